ghost use Rattle.std.specs.Prelude.{◌≡◌, ◌+◌, ◌-◌, ◌<◌, ◌==◌, ◌^◌, length, is_some, is_none, count_by, IfSome, IsTrue, None, Some, not, slice_index_or, slice_set};
ghost use Rattle.ix_tables.specs.Views.{released};
ghost use Rattle.std.proofs.Common.{option_map};
ghost use Rattle.ix_label.specs.Category.{bottom};
ghost use Rattle.ix_model.specs.world.World.{at, put, change, lowest_free, held, is_dir};
ghost use Rattle.ix_model.specs.rows.Walks.{node};
ghost use Rattle.ix_open.specs.Entries.{open_of};

use crate::tables::Tables;
use ix_label::Label;
use ix_model::{Mode, Obj};
use ix_open::OpenView;

/// Open entries, and where processes are at home.
impl Tables {
    /// The open entry of a number; `None` exactly where none stands there.
    pub fn entry(&self, id: u32) -> Option<OpenView>
        ensures entry { option_map open_of result ≡ at self.now.opens id }
        ensures offset { IfSome result (λ e. e.at ≡ slice_index_or self.now.offsets id 0) }
        ensures owners { IfSome result (λ e. e.owners ≡ slice_index_or self.now.owners id 0) }
        ensures end { IfSome result (λ e. e.end < 2) }
    {
        self.opens.get(id)
    }

    /// How many numbers of open entries are free.
    pub fn free_opens(&self) -> u32
        ensures { result ≡ count_by is_none self.now.opens }
    {
        self.opens.free()
    }

    /// Whether an open entry is on that end of that object.
    pub fn held(&self, n: u32, end: u8) -> bool
        ensures { result ≡ held self.now.opens n end }
    {
        self.opens.held(Obj(n), end)
    }

    /// A new open entry at offset 0, with the label bottom and one owner, under the lowest free number; `None`, with no
    /// change, exactly where none is free.
    pub fn open(&mut self, n: u32, end: u8, mode: Mode) -> Option<u32>
        requires object { n < length self.old.objects }
        requires end { end < 2 }
        ensures id { result ≡ lowest_free self.old.opens }
        ensures none { result ≡ None → self.new ≡ self.old }
        ensures some { IfSome result (λ e. self.new ≡ record self.old { opens = put self.old.opens e (Some (record { object = n; end = end; mode = mode; label = bottom })); offsets = slice_set self.old.offsets e 0; owners = slice_set self.old.owners e 1 }) }
    {
        self.opens.open(Obj(n), end, mode)
    }

    /// The entry has one owner more; it asks that it has fewer than 2^32 - 1.
    pub fn share(&mut self, id: u32)
        requires lives { IsTrue (is_some (at self.old.opens id)) }
        requires few { slice_index_or self.old.owners id 0 + 1 < 2 ^ 32 }
        ensures { self.new ≡ record self.old { owners = slice_set self.old.owners id (slice_index_or self.old.owners id 0 + 1) } }
    {
        self.opens.share(id);
    }

    /// The entry has one owner fewer; `true`, and it is gone, exactly where that was the last one.
    pub fn release(&mut self, id: u32) -> bool
        requires lives { IsTrue (is_some (at self.old.opens id)) }
        ensures last { result ≡ (slice_index_or self.old.owners id 0 == 1) }
        ensures left { self.new ≡ released result id self.old }
    {
        self.opens.release(id)
    }

    /// Sets the offset of an entry, in bytes from the beginning of the file.
    pub fn seek(&mut self, id: u32, offset: u32)
        requires { IsTrue (is_some (at self.old.opens id)) }
        ensures { self.new ≡ record self.old { offsets = slice_set self.old.offsets id offset } }
    {
        self.opens.seek(id, offset);
    }

    /// Sets the label of an entry: that of what its offset tells.
    pub fn mark(&mut self, id: u32, label: Label)
        requires { IsTrue (is_some (at self.old.opens id)) }
        ensures { self.new ≡ record self.old { opens = change self.old.opens id (λ e. record e { label = label }) } }
    {
        self.opens.set_label(id, label);
    }

    /// Whether some living process has an object as working directory. Constant time.
    pub fn is_home(&self, n: u32) -> bool
        requires { n < length self.now.homes }
        ensures { result ≡ not (slice_index_or self.now.homes n 0 == 0) }
    {
        self.homes[n as usize] > 0
    }

    /// One living process more has the object as working directory; it asks that fewer than 2^32 - 1 have it. Constant time.
    pub fn settle(&mut self, n: u32)
        requires within { n < length self.old.homes }
        requires few { slice_index_or self.old.homes n 0 + 1 < 2 ^ 32 }
        ensures { self.new ≡ record self.old { homes = slice_set self.old.homes n (slice_index_or self.old.homes n 0 + 1) } }
    {
        self.homes[n as usize] += 1;
    }

    /// One living process fewer has the object as working directory, of at least one. Constant time.
    pub fn leave(&mut self, n: u32)
        requires within { n < length self.old.homes }
        requires some { 0 < slice_index_or self.old.homes n 0 }
        ensures { self.new ≡ record self.old { homes = slice_set self.old.homes n (slice_index_or self.old.homes n 0 - 1) } }
    {
        self.homes[n as usize] -= 1;
    }
}
