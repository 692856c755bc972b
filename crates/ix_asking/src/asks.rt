ghost use Rattle.std.specs.Prelude.{◌≡◌, ◌<◌, ◌≤◌, ℕ, length};
ghost use Rattle.ix_asking.specs.{Asking.{Asking, came_as, first, heard, IsDue}, Steps.{next_of}};

use ix_model::{Call, Pid, Reply};

/// What stands next: what came of all, or the next call. The call borrows from what asks for it.
#[derive(Drop)]
pub enum Step<'a, C> {
    Came(C),
    Call {
        /// The line of the script that the call comes from.
        line: u32,
        pid: Pid,
        call: Call<'a>,
    },
}

// A call takes 96 of them.
const _: () = prove!(std::mem::size_of::<Step<'static, ()>>() <= 112);

/// What asks for calls, one at a time, and makes none itself.
pub trait Asks {
    /// What is answered once nothing more is asked for.
    type Came;

    /// What comes of the calls, for contracts.
    ghost End: { Type 0 };

    /// What is answered where that comes of them.
    ghost came: { End → Self.Came };

    /// What no answer changes.
    ghost Kept: { Type 0 };

    ghost kept: { Self → Kept };

    /// What is still asked for.
    ghost asking: { Self → Asking End };

    /// How many calls it asks for at most.
    ghost most: { Self → ℕ };

    /// What stands next.
    fn next(&self) -> Step<'_, Self::Came>
        ensures { next_of result ≡ came_as came (first (asking self.now)) };

    /// Takes the answer to the call that stands next: the reply, and the bytes that were read, if any.
    fn hear(&mut self, reply: &Reply, bytes: &[u8])
        requires call { IsDue (first (asking self.old)) }
        requires few { length bytes.now ≤ 4096 }
        ensures asking { asking self.new ≡ heard (asking self.old) (record { reply = reply.now; bytes = bytes.now }) }
        ensures fewer { most self.new < most self.old }
        ensures kept { kept self.new ≡ kept self.old };
}
