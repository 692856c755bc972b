ghost use Rattle.std.specs.Prelude.{◌≡◌, ◌<◌, ℕ, Some, IfOk, IfSome, OnOk, slice_get, slice_index_or};
ghost use Rattle.ix_label.specs.Category.{Categories, bottom, same};

use ix_label::{Label, Steps};
use ix_model::{NoMemory, Pid};
use std::alloc::Global;
use std::collections::BTreeMap;
use std::marker::Brand;
use std::sync::ledger::{Blank, Ledger};

/// The labels that bytes were written under, each with a number. A process that keeps its label keeps the number, too. `NoMemory`
/// comes where there is none for one more; they aren't used again then.
#[derive(Drop)]
pub struct Labels {
    all: Vec<Label>,
    /// The number of the label of each process that wrote, by its pid.
    last: BTreeMap<u32, u32>,
}

impl Labels {
    /// None.
    pub fn new(alloc: Global) -> Labels {
        Labels {
            all: Vec::new(alloc),
            last: BTreeMap::new(alloc),
        }
    }

    /// The label of a number; bottom where there is none.
    pub fn get(&self, number: u32) -> Label
        ensures { result ≡ slice_index_or self.now.all.items number bottom }
    {
        match self.all.get(number as usize) {
            Some(label) => *label,
            None => Label::bottom(),
        }
    }

    /// A number for a label.
    pub fn add(&mut self, label: Label) -> Result<u32, NoMemory>
        ensures label { IfOk result (λ n. slice_get self.new.all.items n ≡ Some label) }
        ensures stays { OnOk result ((n : ℕ) (l : Categories) → slice_get self.old.all.items n ≡ Some l → slice_get self.new.all.items n ≡ Some l) }
    {
        let Ok(number) = u32::try_from(self.all.len()) else {
            return Err(NoMemory);
        };
        match self.all.push(label) {
            Ok(()) => Ok(number),
            Err(_) => Err(NoMemory),
        }
    }

    /// The number of the label under which a process wrote last, where that is this label.
    fn last_of(&self, pid: Pid, label: &Label) -> Option<u32>
        ensures { IfSome result (λ n. slice_get self.now.all.items n ≡ Some label.now) }
    {
        let number = *self.last.get(&pid.0)?;
        match self.all.get(number as usize) {
            Some(last) if same(last, label) => Some(number),
            _ => None,
        }
    }

    /// The number of the label under which a process writes.
    pub fn of_writer(&mut self, pid: Pid, label: Label) -> Result<u32, NoMemory>
        ensures label { IfOk result (λ n. slice_get self.new.all.items n ≡ Some label) }
        ensures stays { OnOk result ((n : ℕ) (l : Categories) → slice_get self.old.all.items n ≡ Some l → slice_get self.new.all.items n ≡ Some l) }
    {
        if let Some(number) = self.last_of(pid, &label) {
            return Ok(number);
        }
        let number = self.add(label)?;
        match self.last.insert(pid.0, number) {
            Ok(_) => Ok(number),
            Err(_) => Err(NoMemory),
        }
    }
}

/// Whether two labels have the same categories, where nobody is told of the look.
fn same(one: &Label, other: &Label) -> bool
    ensures { result ≡ same one.now other.now }
{
    same_counted::<Brand>(one, other, Blank::new(1))
}

/// The same, with the look counted under a ledger.
fn same_counted<L: Ledger>(one: &Label, other: &Label, blank: Blank) -> bool
    requires name { blank.name ≡ L.name }
    requires parts { blank.parts ≡ L.parts }
    requires some { 0 < L.parts }
    ensures { result ≡ same one.now other.now }
{
    let mut steps = Steps::<L>::new(blank);
    one.same(other, &mut steps)
}
