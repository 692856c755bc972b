ghost use Rattle.std.specs.Prelude.{◌≡◌};
ghost use Rattle.ix_model.specs.history.{Calls.{op_of}, Made.{entry}, Shown.{AreShown}};
ghost use Rattle.ix_core.specs.Stepping.{IsNext};

use crate::keeper::Core;
use ix_model::{Call, Pid, Reply};

/// What sees the entries of a core as they are made, one after the other.
pub trait Witness {
    ghost use Rattle.ix_model.specs.history.History.{History};

    /// What a witness knows of a history whose entries it has seen since it was the first.
    ghost knows: { Self → History → Self → Type 0 };

    /// Is about to see the next entry: the seat that makes the call, and the line of the script from which it comes. The call isn't
    /// made yet. Contracts learn nothing of it.
    fn before(&self, _seat: u32, _line: u32) {}

    /// Sees an entry that was just made: the core after it, the line of the script that it comes from, the calling process, the
    /// seat, the call, the reply, and the bytes that were read. Of a history of which it knew before, it knows with that entry.
    fn see(
        &mut self,
        core: &Core,
        line: u32,
        pid: Pid,
        seat: u32,
        call: &Call<'_>,
        reply: &Reply,
        bytes: &[u8],
    )
        requires shown { AreShown reply.now bytes.now }
        ensures knows { (first : Self) (before : History) → IsNext before core.now (entry seat line pid (op_of call.now)) reply.now bytes.now
            → knows first before self.old → knows first core.now self.new };
}
