ghost use Rattle.std.specs.Prelude.{◌≡◌, ◌++◌, ◌<◌, [], length, replicate, slice_index_or};
ghost use Rattle.ix_model.specs.world.Naming.{same_bytes};

use std::alloc::Global;
use std::marker::Model;

/// Bytes that are said one by one, and behind them a byte so many times, for which no memory is taken.
#[derive(Drop)]
pub struct Contents {
    said: Vec<u8>,
    times: u32,
    byte: u8,
}

impl Model for Contents {
    ghost use Rattle.std.specs.Prelude.{List, ℕ, ◌++◌, replicate};

    ghost Value = { List ℕ };

    ghost view = { λ c. c.said.items ++ replicate c.times c.byte };
}

impl Contents {
    /// No bytes. They take no memory.
    pub fn new(alloc: Global) -> Contents
        ensures { result ≡ [] }
    {
        Contents::times(alloc, 0, 0)
    }

    /// The bytes of a vector. None of them is copied.
    pub fn from_vec(said: Vec<u8>) -> Contents
        ensures { result ≡ said.items }
    {
        Contents {
            said,
            times: 0,
            byte: 0,
        }
    }

    /// A byte so many times. It takes no memory.
    pub fn times(alloc: Global, times: u32, byte: u8) -> Contents
        ensures { result ≡ replicate times byte }
    {
        Contents {
            said: Vec::new(alloc),
            times,
            byte,
        }
    }

    /// How many bytes there are.
    pub fn len(&self) -> usize
        ensures { result ≡ length self.now }
    {
        self.said.len() + self.times as usize
    }

    /// The bytes that are said one by one, and how many times a byte stands behind them.
    pub fn parts(&self) -> (&[u8], u32, u8)
        ensures { result.0.now ++ replicate result.1 result.2 ≡ self.now }
    {
        (self.said.as_slice(), self.times, self.byte)
    }

    /// The byte at an index.
    fn at(&self, i: usize) -> u8
        requires { i < length self.now }
        ensures { result ≡ slice_index_or self.now i 0 }
    {
        if i < self.said.len() {
            self.said[i]
        } else {
            self.byte
        }
    }

    /// Whether these are the same bytes as others. It takes constant time for a byte so many times, unless of the others
    /// some are said one by one.
    pub fn same(&self, other: &Contents) -> bool
        ensures { result ≡ same_bytes self.now other.now }
    {
        if self.said.len() == other.said.len() {
            return self.said.as_slice() == other.said.as_slice()
                && self.times == other.times
                && (self.times == 0 || self.byte == other.byte);
        }
        self.same_one_by_one(other)
    }

    fn same_one_by_one(&self, other: &Contents) -> bool
        ensures { result ≡ same_bytes self.now other.now }
    {
        if self.len() != other.len() {
            return false;
        }
        for i in 0..self.len() {
            if self.at(i) != other.at(i) {
                return false;
            }
        }
        true
    }
}
