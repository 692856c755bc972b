ghost use Rattle.std.specs.Prelude.{◌≡◌, ◌↔◌, IsTrue, Some, None};
ghost use Rattle.ix_float.specs.Marks.{last_set, marked};

use std::marker::Model;

/// What a mark is for: labels are looked at alike in each read, and alike in each write.
#[derive(Clone, Copy, Debug, PartialEq, Eq)]
pub enum Way {
    Reading,
    Writing,
}

/// Which changes of labels had been made when a mark was set: numbers that the layer above raises at each change.
#[derive(Clone, Copy)]
struct Generations {
    /// Of the process's label.
    proc: u64,
    /// Of the label of the object behind its descriptor.
    obj: u64,
}

/// The mark of a descriptor: for each way, the two generations with which it was last set, if it was. While both stand,
/// no label has changed since.
///
/// Contracts see the two pairs.
#[derive(Clone, Copy)]
pub struct Mark {
    reading: Option<Generations>,
    writing: Option<Generations>,
}

impl Model for Mark {
    ghost use Rattle.ix_float.specs.Marks.{Marked, seen, kept};

    ghost Value = { Marked };

    ghost view = { λ m. record { reading = seen m.reading; writing = seen m.writing } };

    ghost inverse = { λ m. record { reading = kept m.reading; writing = kept m.writing } };
}

impl Mark {
    /// A mark that was never set, for either way.
    pub fn none() -> Mark
        ensures { result ≡ record { reading = None; writing = None } }
    {
        Mark {
            reading: None,
            writing: None,
        }
    }

    /// Whether the mark was last set for that way with these two generations. It is false where it was never set for it.
    pub fn fresh(&self, way: Way, proc_gen: u64, obj_gen: u64) -> bool
        ensures { IsTrue result ↔ last_set way self.now ≡ Some (proc_gen, obj_gen) }
    {
        let last = match way {
            Way::Reading => self.reading,
            Way::Writing => self.writing,
        };
        match last {
            Some(last) => last.proc == proc_gen && last.obj == obj_gen,
            None => false,
        }
    }

    /// Sets the mark for that way with these two generations. What it has for the other way stays.
    pub fn set(&mut self, way: Way, proc_gen: u64, obj_gen: u64)
        ensures { self.new ≡ marked way (proc_gen, obj_gen) self.old }
    {
        let last = Some(Generations {
            proc: proc_gen,
            obj: obj_gen,
        });
        match way {
            Way::Reading => self.reading = last,
            Way::Writing => self.writing = last,
        }
    }
}
