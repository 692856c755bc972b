ghost use Rattle.std.specs.Prelude.{◌≡◌, ◌+◌, ◌-◌, ◌<◌, ◌≤◌, ◌++◌, length, take, drop, min, replicate, is_some, IsTrue, slice_index_or, slice_set, true, false};
ghost use Rattle.std.specs.Option.{option_map_or};
ghost use Rattle.ix_model.specs.world.{World.{Holding, at, is_file, is_pipe}, Contents.{holds_nothing, side, with_side, spliced, cut_to}};
ghost use Rattle.ix_model.specs.rows.{Telling.{length_then}, Walks.{node}};
ghost use Rattle.ix_tables.specs.Views.{has_room};

use crate::tables::Tables;
use ix_model::Obj;

/// What files and pipes hold.
impl Tables {
    /// Copies the bytes of a file from an offset on into the front of `out`, as many as there are and it holds, and answers
    /// their number: 0 at the end and past it. The rest of `out` stays. The cost is that of the bytes, and a step for each
    /// block between them and the nearer end of the file.
    pub fn read(&self, n: u32, offset: u64, out: &mut [u8]) -> usize
        requires { option_map_or is_file (at self.now.objects n) false ≡ true }
        ensures count { result ≡ min (length out.old) (length (drop offset (slice_index_or self.now.holdings n holds_nothing).first)) }
        ensures out { out.new ≡ take result (drop offset (slice_index_or self.now.holdings n holds_nothing).first) ++ drop result out.old }
    {
        self.inodes.read(Obj(n), offset, out)
    }

    /// How many bytes a file holds, at most 1,048,576.
    pub fn size(&self, n: u32) -> u64
        requires { option_map_or is_file (at self.now.objects n) false ≡ true }
        ensures { result ≡ length (slice_index_or self.now.holdings n holds_nothing).first }
    {
        match self.inodes.get(Obj(n)) {
            Some(inode) => inode.size,
            None => 0,
        }
    }

    /// Whether a file may have a length, of at most 1,048,576: its file system has as many blocks.
    pub fn has_room(&self, n: u32, len: u64) -> bool
        requires file { option_map_or is_file (at self.now.objects n) false ≡ true }
        requires most { len ≤ 1048576 }
        ensures { result ≡ has_room n len self.now }
    {
        self.inodes.lemma_blocks_add_up(Obj(n));
        self.inodes.has_room(Obj(n), len)
    }

    /// Writes bytes over those of a file from an offset on; a gap before them reads as zeros. There has to be room.
    pub fn write(&mut self, n: u32, offset: u64, bytes: &[u8])
        requires file { option_map_or is_file (at self.old.objects n) false ≡ true }
        requires most { length_then offset (length bytes.now) (length (slice_index_or self.old.holdings n holds_nothing).first) ≤ 1048576 }
        requires room { has_room n (length_then offset (length bytes.now) (length (slice_index_or self.old.holdings n holds_nothing).first)) self.old ≡ true }
        ensures { self.new ≡ record self.old { holdings = slice_set self.old.holdings n (with_side 0 (spliced offset bytes.now (slice_index_or self.old.holdings n holds_nothing).first) (slice_index_or self.old.holdings n holds_nothing)) } }
    {
        self.inodes.lemma_blocks_add_up(Obj(n));
        match self.inodes.write(Obj(n), offset, bytes) {
            Ok(()) => (),
            Err(_) => unreachable!(),
        }
    }

    /// Writes a byte so many times behind the last one of a file. There has to be room.
    pub(crate) fn write_times(&mut self, n: u32, times: u32, byte: u8)
        requires file { option_map_or is_file (at self.old.objects n) false ≡ true }
        requires most { length (slice_index_or self.old.holdings n holds_nothing).first + times ≤ 1048576 }
        requires room { has_room n (length (slice_index_or self.old.holdings n holds_nothing).first + times) self.old ≡ true }
        ensures { self.new ≡ record self.old { holdings = slice_set self.old.holdings n (with_side 0 ((slice_index_or self.old.holdings n holds_nothing).first ++ replicate times byte) (slice_index_or self.old.holdings n holds_nothing)) } }
    {
        let len = self.size(n);
        let block = [byte; 4096];
        let mut done = 0;
        'parts: while done < times {
            let part = (times - done).min(4096);
            self.write(n, len + u64::from(done), &block[..part as usize]);
            done += part;
        }
    }

    /// Sets the length of a file: what is past it goes, and what is missing reads as zeros. There has to be room.
    pub fn cut(&mut self, n: u32, len: u64)
        requires file { option_map_or is_file (at self.old.objects n) false ≡ true }
        requires most { len ≤ 1048576 }
        requires room { has_room n len self.old ≡ true }
        ensures { self.new ≡ record self.old { holdings = slice_set self.old.holdings n (with_side 0 (cut_to len (slice_index_or self.old.holdings n holds_nothing).first) (slice_index_or self.old.holdings n holds_nothing)) } }
    {
        self.inodes.lemma_blocks_add_up(Obj(n));
        match self.inodes.cut(Obj(n), len) {
            Ok(()) => (),
            Err(_) => unreachable!(),
        }
    }

    /// Takes what an end of a pipe, 0 or 1, can read into the front of `out`, as much as it holds, and answers how many bytes
    /// that are. The rest of `out` stays.
    pub fn take(&mut self, n: u32, end: u8, out: &mut [u8]) -> usize
        requires pipe { is_pipe (node self.old.objects n) ≡ true }
        requires end { end < 2 }
        ensures count { result ≡ min (length out.old) (length (side end (slice_index_or self.old.holdings n holds_nothing))) }
        ensures out { out.new ≡ take result (side end (slice_index_or self.old.holdings n holds_nothing)) ++ drop result out.old }
        ensures rest { self.new ≡ record self.old { holdings = slice_set self.old.holdings n (with_side end (drop result (side end (slice_index_or self.old.holdings n holds_nothing))) (slice_index_or self.old.holdings n holds_nothing)) } }
    {
        self.pipes.read(n - self.first_pipe, end, out)
    }

    /// How many bytes an end of a pipe, 0 or 1, can read: at most 4,096.
    pub fn left(&self, n: u32, end: u8) -> u32
        requires pipe { is_pipe (node self.now.objects n) ≡ true }
        requires end { end < 2 }
        ensures left { result ≡ length (side end (slice_index_or self.now.holdings n holds_nothing)) }
        ensures few { result ≤ 4096 }
    {
        self.pipes.left(n - self.first_pipe, end)
    }

    /// Writes bytes through an end of a pipe, 0 or 1. It asks that there is room for them: what the other end can read is at
    /// most 4,096 bytes then.
    pub fn append(&mut self, n: u32, end: u8, bytes: &[u8])
        requires pipe { is_pipe (node self.old.objects n) ≡ true }
        requires end { end < 2 }
        requires room { length (side (1 - end) (slice_index_or self.old.holdings n holds_nothing)) + length bytes.now ≤ 4096 }
        ensures { self.new ≡ record self.old { holdings = slice_set self.old.holdings n (with_side (1 - end) (side (1 - end) (slice_index_or self.old.holdings n holds_nothing) ++ bytes.now) (slice_index_or self.old.holdings n holds_nothing)) } }
    {
        match self.pipes.write(n - self.first_pipe, end, bytes) {
            Ok(()) => (),
            Err(_) => unreachable!(),
        }
    }
}
