ghost use Rattle.std.specs.Prelude.{◌≡◌, ◌≤◌, ◌<◌, ℕ, Bool, List, Option, length, is_ok, false, IfOk};
ghost use Rattle.ix_io.specs.Streams.{HasCause, Takes};

use crate::errors::Failed;

/// Bytes that go out.
pub trait Sink {
    /// The bytes that were taken so far, where the sink tells them.
    ghost taken: { Self → Option (List ℕ) };

    /// How often it has failed. The count rises by each call that fails and by no other, and stands still at 2^64 - 1.
    ghost faults: { Self → ℕ };

    /// Whether all that was taken is finished.
    ghost finished: { Self → Bool };

    /// Takes bytes off the front of `bytes`, and answers how many: at least one, where there is one.
    /// The sink is not finished afterwards.
    ///
    /// `Failed` takes no byte. It comes only where the count of faults rose in this call, and the count
    /// rises with nothing else; a count that stands at its end is taken as one that rose.
    fn write(&mut self, bytes: &[u8]) -> Result<usize, Failed>
        ensures bound { IfOk result (λ n. n ≤ length bytes.now) }
        ensures some { 0 < length bytes.now → IfOk result (λ n. 0 < n) }
        ensures bytes { Takes (taken self.old) (taken self.new) result bytes.now }
        ensures unfinished { finished self.new ≡ false }
        ensures cause { HasCause (faults self.old) (faults self.new) result };

    /// Sees to it that all bytes that were taken are out. The sink is finished exactly where it
    /// answers `Ok`, and the bytes that were taken stay.
    ///
    /// `Failed` comes only where the count of faults rose in this call, as under `write`.
    fn finish(&mut self) -> Result<(), Failed>
        ensures bytes { taken self.new ≡ taken self.old }
        ensures finished { finished self.new ≡ is_ok result }
        ensures cause { HasCause (faults self.old) (faults self.new) result };
}
