ghost use Rattle.std.specs.Prelude.{◌≡◌, ℕ, ◌<◌, ◌≤◌, ◌-◌, ◌+◌, ◌^◌, ◌==◌, ◌&&◌, ◌||◌, not, true, false, Some, None, IfOk, if◌then◌else◌, is_some, List, Option, count_by};
ghost use Rattle.ix_float.specs.declared.mark.Way as way_type;
ghost use Rattle.ix_model.specs.world.World.{Process, at};
ghost use Rattle.ix_marks.specs.RowIndex.{row_of};
ghost use Rattle.ix_marks.specs.Known.{spot_of, has_row, is_it, unless, on_object, on_entry, generation_at, sum_at};

use crate::row::{Row, Spot, empty_rows};
use crate::row_index::RowIndex;
use ix_float::Way;
use ix_model::{Fd, NoMemory, Pid};
use std::alloc::Global;
use std::marker::Model;

/// Which descriptors of which processes are fresh, for each way, and at which spot each was set.
///
/// Each process, each object and each open entry has a generation, a number that is raised when its label changes. A mark
/// keeps the generation of the process, and the sum of those of the object and the open entry, with which it was set.
/// None of them ever falls, so the mark is fresh exactly where both are the numbers of now. A change of a label touches
/// one number, and no mark.
///
/// All memory is taken by [`new`](Marks::new). A call that is given a pid looks for its row in one bucket; beside that
/// each takes constant time. Contracts see which descriptors are fresh and at which spots, and whose the rows are.
///
/// A call that tells of a changed label asks that fewer than 2^62 were told of before, and that an object or an open entry is
/// one of those for which there are generations.
#[derive(Drop)]
pub struct Marks {
    owners: RowIndex,
    /// The marks of each row.
    rows: Vec<Row>,
    /// The generation of each object.
    objects: Vec<u64>,
    /// The generation of each open entry.
    opens: Vec<u64>,
    /// How many changes of labels were told. No generation is above it.
    raised: u64,
}

impl Model for Marks {
    ghost use Rattle.ix_marks.specs.Known.{Known, known, AreKept};

    ghost Value = { Known };

    ghost view = { λ m. known m.owners m.rows.items m.objects.items m.opens.items m.raised };

    ghost invariant = { λ m. AreKept m.owners m.rows.items m.objects.items m.opens.items m.raised };
}

impl Marks {
    /// Rows for so many processes, and generations for so many objects and open entries. Nothing is fresh.
    ///
    /// It takes all memory that there will be, and refuses where there is not so much. It costs a step for each.
    pub fn new(alloc: Global, procs: u32, objects: u32, opens: u32) -> Result<Marks, NoMemory>
        ensures fresh { IfOk result (λ m. (q d : ℕ) (w : way_type.Way) → spot_of m q d w ≡ None) }
        ensures rows { IfOk result (λ m. (q : ℕ) → has_row m q ≡ false) }
        ensures free { IfOk result (λ m. m.owners.free ≡ procs) }
        ensures sizes { IfOk result (λ m. m.sizes ≡ record { rows = procs; objects = objects; opens = opens }) }
        ensures raised { IfOk result (λ m. m.raised ≡ 0) }
    {
        let owners = RowIndex::new(alloc, procs)?;
        let rows = empty_rows(alloc, procs)?;
        let objects = vec![in alloc; 0; objects as usize]?;
        let opens = vec![in alloc; 0; opens as usize]?;
        Ok(Marks {
            owners,
            rows,
            objects,
            opens,
            raised: 0,
        })
    }

    /// Whether a descriptor of a process is fresh for that way.
    pub fn fresh(&self, pid: Pid, fd: Fd, way: Way) -> bool
        ensures { result ≡ is_some (spot_of self.now pid.0 fd.0 way) }
    {
        let Some(row) = self.owners.find(pid) else {
            return false;
        };
        let row = &self.rows[row as usize];
        let place = row.place(fd.0 as usize);
        let sum = sum_at(&self.objects, &self.opens, place.spot(way));
        place.mark.fresh(way, row.generation, sum)
    }

    /// A descriptor of a process, which stands for that spot, is fresh for that way from now on. A process that has no
    /// row takes one. It asks that the descriptor is below 32, and that a row is free where one is taken.
    pub fn set(&mut self, pid: Pid, fd: Fd, way: Way, spot: Spot)
        requires fd { fd.0 < 32 }
        requires room { has_row self.old pid.0 ≡ false → 0 < self.old.owners.free }
        ensures spots { (q d : ℕ) (w : way_type.Way) → spot_of self.new q d w ≡ (if is_it pid.0 fd.0 way q d w then Some spot else spot_of self.old q d w) }
        ensures rows { (q : ℕ) → has_row self.new q ≡ (q == pid.0 || has_row self.old q) }
        ensures free { self.new.owners.free ≡ (if has_row self.old pid.0 then self.old.owners.free else self.old.owners.free - 1) }
        ensures sizes { self.new.sizes ≡ self.old.sizes }
        ensures raised { self.new.raised ≡ self.old.raised }
    {
        let row = self.row_for(pid);
        let sum = sum_at(&self.objects, &self.opens, spot);
        self.rows[row as usize].set(fd.0 as usize, way, spot, sum);
    }

    /// A descriptor of a process is closed: it is fresh for neither way.
    pub fn clear(&mut self, pid: Pid, fd: Fd)
        ensures spots { (q d : ℕ) (w : way_type.Way) → spot_of self.new q d w ≡ (if q == pid.0 && d == fd.0 then None else spot_of self.old q d w) }
        ensures owners { self.new.owners ≡ self.old.owners }
        ensures sizes { self.new.sizes ≡ self.old.sizes }
        ensures raised { self.new.raised ≡ self.old.raised }
    {
        let Some(row) = self.owners.find(pid) else {
            return;
        };
        self.rows[row as usize].clear(fd.0 as usize);
    }

    /// A process has ended: none of its descriptors is fresh, and its row is free again.
    pub fn forget(&mut self, pid: Pid)
        ensures spots { (q d : ℕ) (w : way_type.Way) → spot_of self.new q d w ≡ (if q == pid.0 then None else spot_of self.old q d w) }
        ensures rows { (q : ℕ) → has_row self.new q ≡ (not (q == pid.0) && has_row self.old q) }
        ensures free { self.new.owners.free ≡ (if has_row self.old pid.0 then self.old.owners.free + 1 else self.old.owners.free) }
        ensures sizes { self.new.sizes ≡ self.old.sizes }
        ensures raised { self.new.raised ≡ self.old.raised }
    {
        self.owners.leave(pid);
    }

    /// A process's label has changed: none of its descriptors is fresh. Where it has no row none was.
    pub fn relabel_process(&mut self, pid: Pid)
        requires { self.old.raised < 2 ^ 62 }
        ensures spots { (q d : ℕ) (w : way_type.Way) → spot_of self.new q d w ≡ (if q == pid.0 then None else spot_of self.old q d w) }
        ensures owners { self.new.owners ≡ self.old.owners }
        ensures sizes { self.new.sizes ≡ self.old.sizes }
        ensures raised { self.new.raised ≡ self.old.raised + 1 }
    {
        self.raised += 1;
        if let Some(row) = self.owners.find(pid) {
            self.rows[row as usize].generation += 1;
        }
    }

    /// An object's label has changed: no descriptor that stands for it is fresh.
    pub fn relabel_object(&mut self, object: u32)
        requires object { object < self.old.sizes.objects }
        requires raised { self.old.raised < 2 ^ 62 }
        ensures spots { (q d : ℕ) (w : way_type.Way) → spot_of self.new q d w ≡ unless (on_object object) (spot_of self.old q d w) }
        ensures owners { self.new.owners ≡ self.old.owners }
        ensures sizes { self.new.sizes ≡ self.old.sizes }
        ensures raised { self.new.raised ≡ self.old.raised + 1 }
    {
        self.raised += 1;
        self.objects[object as usize] += 1;
    }

    /// An open entry's label has changed: no descriptor that stands for it is fresh.
    pub fn relabel_entry(&mut self, entry: u32)
        requires entry { entry < self.old.sizes.opens }
        requires raised { self.old.raised < 2 ^ 62 }
        ensures spots { (q d : ℕ) (w : way_type.Way) → spot_of self.new q d w ≡ unless (on_entry entry) (spot_of self.old q d w) }
        ensures owners { self.new.owners ≡ self.old.owners }
        ensures sizes { self.new.sizes ≡ self.old.sizes }
        ensures raised { self.new.raised ≡ self.old.raised + 1 }
    {
        self.raised += 1;
        self.opens[entry as usize] += 1;
    }

    /// Whether a process has a row.
    pub fn has_row(&self, pid: Pid) -> bool
        ensures { result ≡ has_row self.now pid.0 }
    {
        self.owners.find(pid).is_some()
    }

    /// How many rows are free. Constant time.
    pub fn free(&self) -> u32
        ensures { result ≡ self.now.owners.free }
    {
        self.owners.free()
    }

    /// Does nothing: its contract is the law that a row is free for a process that has none, where each process that has
    /// one stands in a table, as this one does, of no more than there are rows.
    pub fn room(&self, pid: Pid)
        ensures { (processes : List (Option Process))
            → count_by is_some processes ≤ self.now.sizes.rows
            → ((q : ℕ) → has_row self.now q ≡ true → is_some (at processes q) ≡ true)
            → is_some (at processes pid.0) ≡ true
            → has_row self.now pid.0 ≡ false
            → 0 < self.now.owners.free }
    {
        self.owners.lemma_rows_add_up();
    }

    /// The row of a process, which takes one if it has none.
    fn row_for(&mut self, pid: Pid) -> u32
        requires room { has_row self.old pid.0 ≡ false → 0 < self.old.owners.free }
        ensures row { row_of pid.0 self.new.owners.pids ≡ Some result }
        ensures spots { (q d : ℕ) (w : way_type.Way) → spot_of self.new q d w ≡ spot_of self.old q d w }
        ensures rows { (q : ℕ) → has_row self.new q ≡ (q == pid.0 || has_row self.old q) }
        ensures free { self.new.owners.free ≡ (if has_row self.old pid.0 then self.old.owners.free else self.old.owners.free - 1) }
        ensures sizes { self.new.sizes ≡ self.old.sizes }
        ensures raised { self.new.raised ≡ self.old.raised }
    {
        if let Some(row) = self.owners.find(pid) {
            return row;
        }
        let row = self.owners.take(pid);
        self.rows[row as usize] = Row::empty();
        row
    }
}

/// The generation of an object and that of an open entry, in one number: it stays exactly where both do.
fn sum_at(objects: &[u64], opens: &[u64], spot: Spot) -> u64
    requires object { generation_at objects.now spot.object ≤ 2 ^ 62 }
    requires entry { generation_at opens.now spot.entry ≤ 2 ^ 62 }
    ensures { result ≡ sum_at objects.now opens.now spot }
{
    generation_at(objects, spot.object) + generation_at(opens, spot.entry)
}

/// The generation of a number; 0 where it is none of theirs.
fn generation_at(generations: &[u64], number: u32) -> u64
    ensures { result ≡ generation_at generations.now number }
{
    match generations.get(number as usize) {
        Some(generation) => *generation,
        None => 0,
    }
}
