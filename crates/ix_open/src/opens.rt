ghost use Rattle.std.specs.Prelude.{◌≡◌, ℕ, ◌+◌, ◌-◌, ◌<◌, ◌==◌, ◌^◌, IsTrue, IfOk, IfSome, Some, is_some, is_none, slice_index_or, count_by};
ghost use Rattle.std.proofs.Common.{option_map};
ghost use Rattle.ix_label.specs.Category.{bottom};
ghost use Rattle.ix_model.specs.world.World.{Open, at, lowest_free, is_on, held};
ghost use Rattle.ix_open.specs.Table.{none_open, opened, with_owners, with_offset, with_label, without, released};
ghost use Rattle.ix_open.specs.Entries.{shown, open_of, with_entry, with_new};

use crate::keys::{entry_at, key_of, place};
use crate::view::OpenView;
use ix_label::Label;
use ix_model::{Mode, NoMemory, Obj};
use ix_numbers::Numbers;
use slab::Slab;
use std::alloc::Global;
use std::marker::Model;

/// Open entries by number, for objects of which the numbers are below a limit. A new entry takes the
/// lowest free number.
///
/// All memory is taken by [`new`](Opens::new). Each call but [`get`](Opens::get) that names an entry asks that it is there.
#[derive(Drop)]
pub struct Opens {
    entries: Slab<OpenView>,
    /// The key under which the slab keeps the entry of each number.
    keys: Vec<Option<usize>>,
    /// Which numbers are free.
    numbers: Numbers,
    /// How many entries are on each end of each object.
    counts: Vec<u32>,
    objects: u32,
}

impl Model for Opens {
    ghost use Rattle.std.specs.{Coded.{codes}, Prelude.{◌≡◌}};
    ghost use Rattle.ix_label.specs.contracts.label.Label as label_type;
    ghost use Rattle.ix_open.specs.{Table.{OpenTable}, Entries.{table_of}, Indexed.{seen, IsIndex}, Tally.{AreCounted}};
    ghost use Rattle.ix_numbers.specs.Marks.{vacancies};

    ghost Value = { OpenTable };

    ghost coded = { Prim.hlevel (codes, label_type.the_row.coded) };

    ghost view = { λ m. table_of (seen m.entries m.keys.items) m.objects };

    ghost invariant = { λ m. IsIndex m.entries m.keys.items
        × ((m.numbers ≡ vacancies m.keys.items)
        × AreCounted (seen m.entries m.keys.items) m.counts.items m.objects) };
}

impl Opens {
    /// So many numbers, all free, for objects of which the numbers are below `objects`.
    ///
    /// It takes all memory that there will be, and refuses where there is not so much. It costs a step for
    /// each number and each object.
    pub fn new(alloc: Global, opens: u32, objects: u32) -> Result<Opens, NoMemory>
        ensures { IfOk result (λ m. m ≡ none_open opens objects) }
    {
        let entries = Slab::with_capacity(alloc, opens as usize)?;
        let mut keys = Vec::new(alloc);
        keys.resize(opens as usize, None)?;
        let numbers = Numbers::new(alloc, opens)?;
        let mut counts = Vec::new(alloc);
        counts.resize(2 * objects as usize, 0)?;
        Ok(Opens {
            entries,
            keys,
            numbers,
            counts,
            objects,
        })
    }

    /// A new entry, with offset 0, the label bottom and one owner, under the lowest free number.
    ///
    /// `None` exactly where no number is free; nothing has changed then. It costs the logarithm of the
    /// number of free ones.
    pub fn open(&mut self, obj: Obj, end: u8, mode: Mode) -> Option<u32>
        requires object { obj.0 < self.old.objects }
        requires end { end < 2 }
        ensures id { result ≡ lowest_free self.old.opens }
        ensures new { self.new ≡ opened result (record { object = obj.0; end = end; mode = mode; label = bottom }) self.old }
    {
        self.add(OpenView {
            obj,
            end,
            mode,
            at: 0,
            owners: 1,
            label: Label::bottom(),
        })
    }

    /// The entry has one owner more; it asks that it has fewer than 2^32 - 1. All else stays. One step.
    pub fn share(&mut self, id: u32)
        requires lives { IsTrue (is_some (at self.old.opens id)) }
        requires few { slice_index_or self.old.owners id 0 + 1 < 2 ^ 32 }
        ensures { self.new ≡ with_owners id (slice_index_or self.old.owners id 0 + 1) self.old }
    {
        let entry = self.entry(id);
        self.set(
            id,
            OpenView {
                owners: entry.owners + 1,
                ..entry
            },
        );
    }

    /// The entry has one owner fewer. `true` exactly where that was the last one: then the entry is gone, and its
    /// number is free.
    ///
    /// It costs the logarithm of the number of free ones where the entry goes, and else one step.
    pub fn release(&mut self, id: u32) -> bool
        requires lives { IsTrue (is_some (at self.old.opens id)) }
        ensures last { result ≡ (slice_index_or self.old.owners id 0 == 1) }
        ensures left { self.new ≡ released result id self.old }
    {
        let entry = self.entry(id);
        if entry.owners > 1 {
            self.set(
                id,
                OpenView {
                    owners: entry.owners - 1,
                    ..entry
                },
            );
            return false;
        }
        self.remove(id);
        true
    }

    /// The entry of a number; `None` exactly where none stands there. One step.
    pub fn get(&self, id: u32) -> Option<OpenView>
        ensures entry { result ≡ option_map (shown self.now id) (at self.now.opens id) }
        ensures end { IfSome result (λ e. e.end < 2) }
    {
        entry_at(&self.entries, self.keys.as_slice(), id)
    }

    /// Sets the offset of an entry, in bytes from the beginning of the file. All else stays. One step.
    pub fn seek(&mut self, id: u32, offset: u32)
        requires lives { IsTrue (is_some (at self.old.opens id)) }
        ensures { self.new ≡ with_offset id offset self.old }
    {
        let entry = self.entry(id);
        self.set(
            id,
            OpenView {
                at: offset,
                ..entry
            },
        );
    }

    /// Sets the label of an entry: that of what its offset tells. All else stays. One step.
    pub fn set_label(&mut self, id: u32, label: Label)
        requires lives { IsTrue (is_some (at self.old.opens id)) }
        ensures { self.new ≡ with_label id label self.old }
    {
        let entry = self.entry(id);
        self.set(id, OpenView { label, ..entry });
    }

    /// Whether an entry is on that end of that object. One step, however many entries there are.
    pub fn held(&self, obj: Obj, end: u8) -> bool
        ensures { result ≡ held self.now.opens obj.0 end }
    {
        end < 2
            && match self.counts.get(place(obj, end)) {
                Some(count) => *count > 0,
                None => false,
            }
    }

    /// How many numbers are free.
    pub fn free(&self) -> u32
        ensures { result ≡ count_by is_none self.now.opens }
    {
        self.numbers.free()
    }

    /// Puts an entry at the lowest free number; `None`, with no change, exactly where none is free.
    fn add(&mut self, entry: OpenView) -> Option<u32>
        requires object { entry.obj.0 < self.old.objects }
        requires end { entry.end < 2 }
        requires owned { 0 < entry.owners }
        ensures id { result ≡ lowest_free self.old.opens }
        ensures new { self.new ≡ with_new result entry self.old }
    {
        let id = self.numbers.take()?;
        let count = place(entry.obj, entry.end);
        let key = self.entries.insert_reserved(entry);
        self.keys[id as usize] = Some(key);
        self.counts[count] += 1;
        Some(id)
    }

    /// The entry of a number at which one stands.
    fn entry(&self, id: u32) -> OpenView
        requires { IsTrue (is_some (at self.now.opens id)) }
        ensures open { at self.now.opens id ≡ Some (open_of result) }
        ensures offset { slice_index_or self.now.offsets id 0 ≡ result.at }
        ensures owners { slice_index_or self.now.owners id 0 ≡ result.owners }
        ensures owned { 0 < result.owners }
    {
        self.entries[key_of(self.keys.as_slice(), id)]
    }

    /// Puts an entry on the same end of the same object in the place of the one that stands at the number.
    fn set(&mut self, id: u32, entry: OpenView)
        requires there { IsTrue (is_on entry.obj.0 entry.end (at self.old.opens id)) }
        requires owned { 0 < entry.owners }
        ensures { self.new ≡ with_entry id entry self.old }
    {
        let key = key_of(self.keys.as_slice(), id);
        self.entries[key] = entry;
    }

    /// The entry of a number at which one stands goes.
    fn remove(&mut self, id: u32)
        requires { IsTrue (is_some (at self.old.opens id)) }
        ensures { self.new ≡ without id self.old }
    {
        let key = key_of(self.keys.as_slice(), id);
        let entry = self.entries.remove(key);
        self.keys[id as usize] = None;
        self.counts[place(entry.obj, entry.end)] -= 1;
        self.numbers.give(id);
    }
}
