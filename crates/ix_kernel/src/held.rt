// What the gate of a kernel keeps.
ghost use Rattle.ix_model.specs.history.{Calls.{op_of}, Made.{entry}};
ghost use Rattle.ix_core.specs.Stepping.{StepsAs};

use ix_core::Core;
use ix_gate::Machine;
use ix_model::{Answer, Buf, Call, Config, Kept, Pid};

/// A core, whose history the gate keeps in one line. It lies on the heap: who takes a turn takes its address alone.
#[derive(Drop)]
pub struct Held {
    pub(crate) core: Box<Core>,
}

impl Machine for Held {
    type Base = Config;

    type Entry = Kept;

    ghost use Rattle.ix_kernel.specs.Seen.{seat_of};

    ghost base = { λ h. h.core.value.config };

    ghost history = { λ h. h.core.value.events };

    ghost seat = { seat_of };
}

impl Held {
    // Makes a call as the seat of a number. Nobody counts its looks at labels.
    pub(crate) fn step(
        &mut self,
        seat: u32,
        line: u32,
        pid: Pid,
        call: &Call<'_>,
        buf: &mut Buf,
    ) -> Answer
        ensures { StepsAs result self.old.core.value self.new.core.value (entry seat line pid (op_of call.now)) buf.old buf.new }
    {
        self.core.call(seat, line, pid, call, buf)
    }
}
