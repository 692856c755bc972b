ghost use Rattle.std.specs.Prelude.{◌≡◌, ◌<◌, ◌+◌, ◌*◌, ◌≤◌, length, take, drop, replicate, IfOk};
ghost use Rattle.ix_blocks.specs.Wholes.{whole_of, none_held, blocks_added, blocks_dropped, with_laid_over};

use crate::rows;
use crate::rows::{Block, SIZE};
use ix_links::Links;
use ix_memory::NoMemory;
use std::alloc::Global;
use std::marker::Model;

/// Whole blocks in chains, one for each file.
///
/// Contracts see the bytes of all blocks of each file, one behind the other, and how many blocks are free.
#[derive(Drop)]
pub(crate) struct Store {
    links: Links,
    blocks: Vec<Block>,
}

impl Model for Store {
    ghost use Rattle.ix_blocks.specs.Wholes.{Wholes};

    ghost Value = { Wholes };

    ghost use Rattle.ix_blocks.specs.Stored.{store_view, IsStore};

    ghost view = { store_view };

    ghost invariant = { IsStore };
}

impl Store {
    /// A pool of free blocks, and files with no block.
    pub(crate) fn new(alloc: Global, blocks: u32, files: u32) -> Result<Store, NoMemory>
        ensures { IfOk result (λ s. s ≡ none_held blocks files) }
    {
        let links = Links::new(alloc, blocks, files)?;
        links.is_pool();
        let pool = vec![in alloc; [0; SIZE]; blocks as usize]?;
        Ok(Store {
            links,
            blocks: pool,
        })
    }

    /// How many blocks are free.
    pub(crate) fn free(&self) -> u32
        ensures { result ≡ self.now.free }
    {
        self.links.free()
    }

    /// Puts so many free blocks, of zeros, at the end of a file.
    pub(crate) fn grow(&mut self, file: u32, more: usize)
        requires file { file < length self.old.wholes }
        requires some { more ≤ self.old.free }
        ensures { self.new ≡ blocks_added more file self.old }
    {
        for _added in 0..more {
            self.push(file);
        }
    }

    /// Gives so many of the last blocks of a file back.
    pub(crate) fn shrink(&mut self, file: u32, fewer: usize)
        requires file { file < length self.old.wholes }
        requires some { 512 * fewer ≤ length (whole_of file self.old) }
        ensures { self.new ≡ blocks_dropped fewer file self.old }
    {
        for _dropped in 0..fewer {
            self.pop(file);
        }
    }

    /// Lays bytes over those of a file of so many blocks from a place on.
    pub(crate) fn put(&mut self, file: u32, held: usize, place: usize, bytes: &[u8])
        requires file { file < length self.old.wholes }
        requires held { length (whole_of file self.old) ≡ 512 * held }
        requires within { place + length bytes.now ≤ length (whole_of file self.old) }
        ensures { self.new ≡ with_laid_over file place bytes.now self.old }
    {
        rows::lay(
            &self.links,
            self.blocks.as_mut_slice(),
            file,
            held,
            place,
            bytes,
        );
    }

    /// Lays zeros over so many bytes of a file of so many blocks, at most a block's, from a place on.
    pub(crate) fn clear(&mut self, file: u32, held: usize, place: usize, count: usize)
        requires file { file < length self.old.wholes }
        requires held { length (whole_of file self.old) ≡ 512 * held }
        requires few { count ≤ 512 }
        requires within { place + count ≤ length (whole_of file self.old) }
        ensures { self.new ≡ with_laid_over file place (replicate count 0) self.old }
    {
        self.put(file, held, place, &[0; SIZE][..count]);
    }

    /// Copies the bytes of a file of so many blocks from a place on, as many as fill `out`.
    pub(crate) fn get(&self, file: u32, held: usize, place: usize, out: &mut [u8])
        requires file { file < length self.now.wholes }
        requires held { length (whole_of file self.now) ≡ 512 * held }
        requires within { place + length out.old ≤ length (whole_of file self.now) }
        ensures { out.new ≡ take (length out.old) (drop place (whole_of file self.now)) }
    {
        rows::fetch(&self.links, self.blocks.as_slice(), file, held, place, out);
    }

    /// Puts a free block, of zeros, at the end of a file.
    fn push(&mut self, file: u32)
        requires file { file < length self.old.wholes }
        requires some { 0 < self.old.free }
        ensures { self.new ≡ blocks_added 1 file self.old }
    {
        match self.links.push_back(file) {
            Some(block) => {
                self.links.is_pool();
                rows::clear(&mut self.blocks[block as usize]);
            }
            None => unreachable!(),
        }
    }

    /// Gives the last block of a file back.
    fn pop(&mut self, file: u32)
        requires file { file < length self.old.wholes }
        requires some { 0 < length (whole_of file self.old) }
        ensures { self.new ≡ blocks_dropped 1 file self.old }
    {
        match self.links.last(file) {
            Some(block) => {
                self.links.remove(file, block);
                self.links.is_pool();
            }
            None => unreachable!(),
        }
    }
}
