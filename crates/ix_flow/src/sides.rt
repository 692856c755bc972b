ghost use Rattle.std.{specs.Prelude.{◌≡◌, ◌<◌, ◌+◌, ◌*◌, ◌++◌, ℕ, true, false, List, drop, Some, None, OnOk}, proofs.Common.{option_map}};
ghost use Rattle.ix_label.specs.Category.{Categories};
ghost use Rattle.ix_model.specs.{history.History.{History}, world.{Contents.{on_side, resized, written_over}, World.{HoldingOf}}};
ghost use Rattle.ix_flow.specs.Origins as origin;
ghost use Rattle.ix_flow.specs.{Origins.{Marked, gap_mark, marked_from}, Tracking.{AreSides, HasEnd, IsFound, IsWrite, side_of}};

use crate::side::Side;
use ix_model::{NoMemory, Obj};
use std::alloc::Global;
use std::collections::BTreeMap;

/// What a write wrote: its place, the number of the label that it was made under, and how many bytes.
#[derive(Clone, Copy)]
pub struct Written {
    pub place: u32,
    pub label: u32,
    pub count: u32,
}

/// What the ends of objects can read, and where that came from. `NoMemory` comes where there is none for an end more, or for what is
/// kept of one; they aren't used again then.
#[derive(Drop)]
pub struct Sides {
    alloc: Global,
    /// By twice the object's number and the end. Where none stands nothing is held.
    all: BTreeMap<u64, Side>,
}

impl Sides {
    /// Of objects that hold nothing.
    pub fn new(alloc: Global) -> Sides
        ensures { (o end : ℕ) → side_of result o end ≡ None }
    {
        Sides {
            alloc,
            all: BTreeMap::new(alloc),
        }
    }

    /// Takes out what an end of an object can read.
    fn take(&mut self, object: Obj, end: u8) -> Side
        ensures found { IsFound (side_of self.old object.0 end) result }
        ensures others { (o other : ℕ) → (o * 2 + other ≡ object.0 * 2 + end → ⊥) → side_of self.new o other ≡ side_of self.old o other }
    {
        match self.all.remove(&key(object, end)) {
            Some(side) => side,
            None => Side::new(self.alloc),
        }
    }

    /// Puts in what an end of an object can read.
    pub fn put(&mut self, object: Obj, end: u8, side: Side) -> Result<(), NoMemory>
        ensures put { OnOk result (side_of self.new object.0 end ≡ Some side) }
        ensures others { OnOk result ((o other : ℕ) → (o * 2 + other ≡ object.0 * 2 + end → ⊥) → side_of self.new o other ≡ side_of self.old o other) }
    {
        match self.all.insert(key(object, end), side) {
            Ok(_) => Ok(()),
            Err(_) => Err(NoMemory),
        }
    }

    /// What an end of an object can read, where anything is held there.
    pub fn get(&self, object: Obj, end: u8) -> Option<&Side>
        ensures { option_map (λ s. s.now) result ≡ side_of self.now object.0 end }
    {
        self.all.get(&key(object, end))
    }

    /// Lets an object hold nothing.
    pub fn forget(&mut self, object: Obj)
        ensures none { (end : ℕ) → end < 2 → side_of self.new object.0 end ≡ None }
        ensures others { (o end : ℕ) → end < 2 → (o ≡ object.0 → ⊥) → side_of self.new o end ≡ side_of self.old o end }
    {
        self.all.remove(&key(object, 0));
        self.all.remove(&key(object, 1));
    }

    /// Takes so many bytes from the front of what an end of a pipe can read, as far as there are any.
    pub fn drain(&mut self, object: Obj, end: u8, count: u32) -> Result<(), NoMemory>
        ensures { OnOk result ((labels : List Categories) (h : History) (hs : List (HoldingOf Marked)) → AreSides self.old labels h hs → HasEnd h hs object.0 end true
            → AreSides self.new labels h (on_side object.0 end (drop count) hs)) }
    {
        let mut side = self.take(object, end);
        side.take(count)?;
        self.put(object, end, side)?;
        Ok(())
    }

    /// Puts the bytes of a write behind those that an end of a pipe can read.
    pub fn append(&mut self, object: Obj, end: u8, written: Written) -> Result<(), NoMemory>
        ensures { OnOk result ((labels : List Categories) (h : History) (hs : List (HoldingOf Marked)) (bytes : List ℕ) → AreSides self.old labels h hs → HasEnd h hs object.0 end true → IsWrite labels h written bytes
            → AreSides self.new labels h (on_side object.0 end (λ old. old ++ marked_from (origin.Written written.place) 0 bytes) hs)) }
    {
        let mut side = self.take(object, end);
        side.append(written.count, written.place, written.label)?;
        self.put(object, end, side)?;
        Ok(())
    }

    /// Puts the bytes of a write over those of a file, from an offset on; a gap before them is one.
    pub fn write(
        &mut self,
        object: Obj,
        end: u8,
        offset: u32,
        written: Written,
    ) -> Result<(), NoMemory>
        ensures { OnOk result ((labels : List Categories) (h : History) (hs : List (HoldingOf Marked)) (bytes : List ℕ) → AreSides self.old labels h hs → HasEnd h hs object.0 end false → IsWrite labels h written bytes
            → AreSides self.new labels h (on_side object.0 end (written_over gap_mark offset (marked_from (origin.Written written.place) 0 bytes)) hs)) }
    {
        let mut side = self.take(object, end);
        side.write(offset, written.count, written.place, written.label)?;
        self.put(object, end, side)?;
        Ok(())
    }

    /// Sets the length of a file: what is past it goes, and what is missing is a gap.
    pub fn cut(&mut self, object: Obj, end: u8, len: u32) -> Result<(), NoMemory>
        ensures { OnOk result ((labels : List Categories) (h : History) (hs : List (HoldingOf Marked)) → AreSides self.old labels h hs → HasEnd h hs object.0 end false
            → AreSides self.new labels h (on_side object.0 end (resized gap_mark len) hs)) }
    {
        let mut side = self.take(object, end);
        side.cut(len)?;
        self.put(object, end, side)?;
        Ok(())
    }
}

/// The key of an end of an object.
fn key(object: Obj, end: u8) -> u64
    ensures { result ≡ object.0 * 2 + end }
{
    u64::from(object.0) * 2 + u64::from(end)
}
