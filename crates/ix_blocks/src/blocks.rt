ghost use Rattle.std.specs.Prelude.{◌≡◌, ◌+◌, ◌<◌, ◌≤◌, ◌++◌, length, take, drop, min, IfOk, Ok, Err, if◌then◌else◌};
ghost use Rattle.ix_model.specs.{world.Contents.{grown, spliced, cut_to}, rows.Telling.{blocks_for}};
ghost use Rattle.ix_blocks.specs.Files.{used, bytes_of, with_bytes, all_empty, laid_over, length_after, most, has_room};

use crate::rows::SIZE;
use crate::store::Store;
use ix_memory::NoMemory;
use ix_model::blocks_for;
use std::alloc::Global;
use std::marker::Model;

/// More blocks, of 512 bytes each, are needed than are free.
#[derive(Debug, Clone, Copy, PartialEq, Eq)]
pub struct NoSpace;

/// The bytes of files, which lie in blocks of 512 bytes of one pool.
///
/// A file has the blocks that its bytes fill, the last one in part, and no more. Contracts see the
/// bytes of each file and the number of blocks. The blocks of a file are a chain, so `read` and
/// `write` go to the first block that they touch from the end of the chain that is nearer.
///
/// Files are numbered from 0, and each call that names one asks that it is below their number. A length is in bytes; each call
/// that is given one, or writes, asks that the file has at most 1,048,576 then.
#[derive(Drop)]
pub struct Blocks {
    store: Store,
    /// The number of bytes of each file.
    lengths: Vec<u32>,
}

impl Model for Blocks {
    ghost use Rattle.ix_blocks.specs.Files.{Files};

    ghost Value = { Files };

    ghost use Rattle.ix_blocks.specs.Shown.{blocks_view, IsBlocks};

    ghost view = { blocks_view };

    ghost invariant = { IsBlocks };
}

impl Blocks {
    /// So many blocks, 512 bytes each, which are all free, and so many files, each empty.
    ///
    /// It takes the memory for both; no other call takes any.
    pub fn new(alloc: Global, blocks: u32, files: u32) -> Result<Blocks, NoMemory>
        ensures { IfOk result (λ b. b ≡ all_empty blocks files) }
    {
        let store = Store::new(alloc, blocks, files)?;
        let lengths = vec![in alloc; 0; files as usize]?;
        Ok(Blocks { store, lengths })
    }

    /// How many bytes a file has, at most 1,048,576. Constant time.
    pub fn len(&self, file: u32) -> u64
        requires { file < length self.now.files }
        ensures { result ≡ length (bytes_of file self.now) }
    {
        u64::from(self.lengths[file as usize])
    }

    /// How many blocks are free: all but those that the files use. Constant time.
    pub fn free(&self) -> u32
        ensures { result + used self.now.files ≡ self.now.blocks }
    {
        self.store.free()
    }

    /// Copies the bytes of a file from `at` on into the front of `out`, as many as there are and it
    /// holds, and answers their number; the rest of `out` stays. The cost is that of the bytes
    /// copied, and a step for each block of the file before them, or behind the first of them, whichever are fewer.
    pub fn read(&self, file: u32, at: u64, out: &mut [u8]) -> usize
        requires { file < length self.now.files }
        ensures count { result ≡ min (length out.old) (length (drop at (bytes_of file self.now))) }
        ensures out { out.new ≡ take result (drop at (bytes_of file self.now)) ++ drop result out.old }
    {
        let len = self.len(file);
        if at >= len {
            return 0;
        }
        let count = out.len().min((len - at) as usize);
        let held = blocks_for(len as usize);
        self.store.get(file, held, at as usize, &mut out[..count]);
        count
    }

    /// Writes bytes over those of a file from `at` on. Where they end past the last byte the file
    /// grows, and a gap before them reads as zeros. A write of no bytes changes nothing.
    ///
    /// [`NoSpace`], and nothing has changed, exactly where the file would need more blocks than its own and
    /// the free ones together. The cost is that of the bytes and of the gap, and a step for each block of
    /// the file before them, or behind the first of them, whichever are fewer.
    pub fn write(&mut self, file: u32, at: u64, bytes: &[u8]) -> Result<(), NoSpace>
        requires file { file < length self.old.files }
        requires most { length_after file at bytes.now self.old ≤ most }
        ensures room { result ≡ (if has_room file (length_after file at bytes.now self.old) self.old then Ok tt else Err (record {})) }
        ensures bytes { self.new ≡ (if has_room file (length_after file at bytes.now self.old) self.old then with_bytes file (spliced at bytes.now (bytes_of file self.old)) self.old else self.old) }
    {
        if bytes.is_empty() {
            return Ok(());
        }
        let place = at as usize;
        self.grow(file, place + bytes.len())?;
        self.lay(file, place, bytes);
        Ok(())
    }

    /// Sets the number of bytes of a file. What is past it goes, and the blocks that are needed no
    /// more are free at once; where the file grows it has zeros.
    ///
    /// [`NoSpace`], and nothing has changed, exactly where the file would need more blocks than its own and
    /// the free ones together. The cost is that of the blocks taken or given back.
    pub fn cut(&mut self, file: u32, len: u64) -> Result<(), NoSpace>
        requires file { file < length self.old.files }
        requires most { len ≤ most }
        ensures room { result ≡ (if has_room file len self.old then Ok tt else Err (record {})) }
        ensures bytes { self.new ≡ (if has_room file len self.old then with_bytes file (cut_to len (bytes_of file self.old)) self.old else self.old) }
    {
        self.grow(file, len as usize)?;
        self.shrink(file, len as usize);
        Ok(())
    }

    /// Whether a file may have a length: it needs no more blocks then than its own and the free ones together. So this tells
    /// whether a write or a cut to that length is refused. Constant time.
    pub fn has_room(&self, file: u32, len: u64) -> bool
        requires file { file < length self.now.files }
        requires most { len ≤ most }
        ensures { result ≡ has_room file len self.now }
    {
        let held = blocks_for(self.len(file) as usize);
        blocks_for(len as usize).saturating_sub(held) <= self.free() as usize
    }

    /// Puts zeros at the end of a file up to a length; nothing where it is that long already.
    fn grow(&mut self, file: u32, len: usize) -> Result<(), NoSpace>
        requires file { file < length self.old.files }
        requires most { len ≤ most }
        ensures room { result ≡ (if has_room file len self.old then Ok tt else Err (record {})) }
        ensures bytes { self.new ≡ (if has_room file len self.old then with_bytes file (grown len (bytes_of file self.old)) self.old else self.old) }
    {
        let old = self.len(file) as usize;
        if len <= old {
            return Ok(());
        }
        let held = blocks_for(old);
        let more = blocks_for(len) - held;
        if more > self.free() as usize {
            return Err(NoSpace);
        }
        self.store.clear(file, held, old, held * SIZE - old);
        self.store.grow(file, more);
        self.lengths[file as usize] = len as u32;
        Ok(())
    }

    /// Lets the bytes of a file past a length go; none where it is no longer.
    fn shrink(&mut self, file: u32, len: usize)
        requires file { file < length self.old.files }
        requires most { len ≤ most }
        ensures { self.new ≡ with_bytes file (take len (bytes_of file self.old)) self.old }
    {
        let old = self.len(file) as usize;
        if len >= old {
            return;
        }
        self.store.shrink(file, blocks_for(old) - blocks_for(len));
        self.lengths[file as usize] = len as u32;
    }

    /// Lays bytes over those of a file from a place on.
    fn lay(&mut self, file: u32, place: usize, bytes: &[u8])
        requires file { file < length self.old.files }
        requires within { place + length bytes.now ≤ length (bytes_of file self.old) }
        ensures { self.new ≡ with_bytes file (laid_over place bytes.now (bytes_of file self.old)) self.old }
    {
        let held = blocks_for(self.len(file) as usize);
        self.store.put(file, held, place, bytes);
    }
}
