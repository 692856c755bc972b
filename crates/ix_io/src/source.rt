ghost use Rattle.std.specs.Prelude.{◌≤◌, ℕ, List, Option, length, IfOk};
ghost use Rattle.ix_io.specs.Streams.{HasCause, Reads};

use crate::errors::Failed;

/// Bytes that come in.
pub trait Source {
    /// The bytes that are still left, where the source tells them.
    ghost left: { Self → Option (List ℕ) };

    /// How often it has failed. The count rises by each call that fails and by no other, and stands still at 2^64 - 1.
    ghost faults: { Self → ℕ };

    /// Puts bytes at the front of `buf`, and answers how many. From a source that tells its bytes
    /// these are the first that are left, and it answers 0 for a `buf` that is not empty only where
    /// none is left. What stands in `buf` behind them, and all of it after `Failed`, is not said.
    ///
    /// `Failed` takes no byte. It comes only where the count of faults rose in this call, and the count
    /// rises with nothing else; a count that stands at its end is taken as one that rose.
    fn read(&mut self, buf: &mut [u8]) -> Result<usize, Failed>
        ensures bound { IfOk result (λ n. n ≤ length buf.old) }
        ensures bytes { Reads (left self.old) (left self.new) result buf.new }
        ensures cause { HasCause (faults self.old) (faults self.new) result };
}
