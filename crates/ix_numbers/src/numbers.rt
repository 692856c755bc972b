ghost use Rattle.std.specs.Prelude.{◌≡◌, true, false, Some, IfOk, replicate, slice_get, slice_set};
ghost use Rattle.ix_numbers.specs.Marks.{lowest, count, taken};

use ix_memory::NoMemory;
use std::alloc::Global;
use std::cmp::Reverse;
use std::collections::BinaryHeap;
use std::marker::Model;

/// The numbers below a limit, each free or taken. The lowest free one is given out.
///
/// Contracts see a list that says of each number whether it is free. All memory is taken by [`new`](Numbers::new).
#[derive(Drop)]
pub struct Numbers {
    /// The free ones, the lowest on top.
    free: BinaryHeap<Reverse<u32>>,
    limit: u32,
}

impl Model for Numbers {
    ghost use Rattle.std.specs.{Prelude.{List, Bool}, BinaryHeap.{heap_items, heap_len, heap_capacity}};
    ghost use Rattle.ix_numbers.specs.Heaped.{marks_of, AreHeaped};

    ghost Value = { List Bool };

    ghost view = { λ m. marks_of m.limit (heap_items m.free) };

    ghost invariant = { λ m. AreHeaped m.limit (heap_items m.free) (heap_len m.free) (heap_capacity m.free) };
}

impl Numbers {
    /// The numbers below `limit`, all free.
    ///
    /// It takes all memory that there will be, 4 bytes for each number, and answers `NoMemory` where there is not so
    /// much. It costs a step for each number.
    pub fn new(alloc: Global, limit: u32) -> Result<Numbers, NoMemory>
        ensures { IfOk result (λ m. m ≡ replicate limit true) }
    {
        let mut free = BinaryHeap::with_capacity(alloc, limit as usize)?;
        for n in 0..limit {
            free.push(Reverse(n))?;
        }
        Ok(Numbers { free, limit })
    }

    /// The lowest free number; None exactly where none is free. Constant time.
    pub fn first(&self) -> Option<u32>
        ensures { result ≡ lowest self.now }
    {
        match self.free.peek() {
            Some(n) => Some(n.0),
            None => None,
        }
    }

    /// Takes the lowest free number; None, with no change, exactly where none is free. It costs the logarithm of the
    /// number of free ones.
    pub fn take(&mut self) -> Option<u32>
        ensures number { result ≡ lowest self.old }
        ensures taken { self.new ≡ taken result self.old }
    {
        let Reverse(number) = self.free.pop()?;
        Some(number)
    }

    /// Gives a number back, and asks that it is taken: it is free from then on. It costs the logarithm of the number of
    /// free ones.
    pub fn give(&mut self, n: u32)
        requires { slice_get self.old n ≡ Some false }
        ensures { self.new ≡ slice_set self.old n true }
    {
        match self.free.push(Reverse(n)) {
            Ok(()) => (),
            Err(_) => unreachable!(),
        }
    }

    /// How many numbers are free. Constant time.
    pub fn free(&self) -> u32
        ensures { result ≡ count self.now }
    {
        self.free.len() as u32
    }
}
