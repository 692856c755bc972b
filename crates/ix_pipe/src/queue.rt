ghost use Rattle.std.specs.Prelude.{◌≡◌, ◌+◌, ◌≤◌, [], ◌++◌, length, take, drop, min, nat_le, IfOk, if◌then◌else◌};
ghost use Rattle.ix_pipe.specs.Pipe.{most};

use circular_buffer::HeapCircularBuffer;
use ix_model::NoMemory;
use std::alloc::Global;
use std::marker::Model;

/// How many bytes a direction of a pipe holds at most.
const MOST: usize = 4_096;

/// The bytes don't fit into what is left of the direction.
#[derive(Debug, Clone, Copy, PartialEq, Eq)]
pub struct PipeFull;

/// One direction of a pipe: at most 4,096 bytes, first in, first out. They lie in a ring that is made once.
#[derive(Drop)]
pub struct Queue {
    bytes: HeapCircularBuffer<u8>,
}

impl Model for Queue {
    ghost use Rattle.std.specs.Prelude.{◌≡◌, List, ℕ};
    ghost use Rattle.ix_pipe.specs.Pipe.{most};

    ghost Value = { List ℕ };

    ghost view = { λ q. q.bytes.items };

    ghost invariant = { λ q. q.bytes.capacity ≡ most };
}

impl Queue {
    /// No bytes, with room for all that there may be, 4 KiB. `NoMemory` where there is none for it; no other call takes any.
    pub fn new(alloc: Global) -> Result<Queue, NoMemory>
        ensures { IfOk result (λ q. q ≡ []) }
    {
        match HeapCircularBuffer::with_capacity(alloc, MOST) {
            Ok(bytes) => Ok(Queue { bytes }),
            Err(_) => Err(NoMemory),
        }
    }

    /// How many bytes there are.
    pub fn len(&self) -> usize
        ensures len { result ≡ length self.now }
        ensures few { result ≤ most }
    {
        self.bytes.len()
    }

    /// Takes the first bytes into the front of `out`, as many as there are and it holds. The cost is theirs.
    pub fn take_into(&mut self, out: &mut [u8]) -> usize
        ensures count { result ≡ min (length out.old) (length self.old) }
        ensures out { out.new ≡ take result self.old ++ drop result out.old }
        ensures rest { self.new ≡ drop result self.old }
    {
        self.bytes.read_into(out)
    }

    /// Puts the bytes at the end; refused, with no change, exactly where they don't fit. The cost is theirs.
    pub fn append(&mut self, bytes: &[u8]) -> Result<(), PipeFull>
        ensures room { result ≡ (if nat_le (length self.old + length bytes.now) most then Ok tt else Err (record {})) }
        ensures bytes { self.new ≡ (if nat_le (length self.old + length bytes.now) most then self.old ++ bytes.now else self.old) }
    {
        if bytes.len() > MOST - self.bytes.len() {
            return Err(PipeFull);
        }
        self.bytes.fill_from_slice(bytes);
        Ok(())
    }

    /// Lets all bytes go.
    pub fn clear(&mut self)
        ensures { self.new ≡ [] }
    {
        self.bytes.clear();
    }
}
