ghost use Rattle.std.specs.Prelude.{◌≡◌, ℕ, List};
ghost use Rattle.ix_model.specs.history.{Calls.{op_of}, Made.{Made, entry}, Systems.{made_after, stops_after, last_stop, FullFor, Fits, LeavesRest}};

use crate::call::{Buf, Call};
use crate::ids::Pid;
use crate::reply::Answer;

/// What makes system calls, as one seat.
pub trait Sys {
    ghost use Rattle.ix_model.specs.declared.reply.Answer.{Answer};

    /// The number of its seat.
    ghost seat: { Self → ℕ };

    /// The entries that it has made, each with its reply and the bytes that it was given, the first one first.
    ghost made: { Self → List Made };

    /// How many of its calls stopped: they were answered otherwise than `Given`. The count stands still at 2^64 - 1,
    /// and there it is taken as one that rose.
    ghost stops: { Self → ℕ };

    /// The last such answer; anything where no call stopped.
    ghost stopped: { Self → Answer };

    /// Whether the second state can come of the first by calls of this seat.
    ghost follows: { Self → Self → Type 0 };

    ghost reflexive: { (s : Self) → follows s s };

    ghost transitive: { (s t u : Self) → follows s t → follows t u → follows s u };

    /// Makes a call: `line` is the line of the script that it comes from, and `pid` the calling process.
    ///
    /// `Given` has the machine's reply, and the call with it is one entry more. Where that is `Bytes`, so many bytes stand
    /// at the front of `buf`, and what stands behind them stays; else all of `buf` stays. `JournalFull` comes where the
    /// journal has no room for the call's cost, which is its `need`, and `NoMemory` where there is no memory for the call.
    /// These two make no entry, and are one stop more.
    fn call(&mut self, line: u32, pid: Pid, call: &Call<'_>, buf: &mut Buf) -> Answer
        ensures seat { seat self.new ≡ seat self.old }
        ensures made { made self.new ≡ made_after result (entry (seat self.old) line pid (op_of call.now)) buf.new (made self.old) }
        ensures stops { stops self.new ≡ stops_after result (stops self.old) }
        ensures stopped { stopped self.new ≡ last_stop result (stopped self.old) }
        ensures full { FullFor (op_of call.now) result }
        ensures fits { Fits (op_of call.now) result }
        ensures rest { LeavesRest result buf.old buf.new }
        ensures follows { follows self.old self.new };
}
