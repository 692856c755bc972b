ghost use Rattle.std.specs.{Prelude.{◌≡◌, ℕ, ◌++◌, ◌+◌, OnOk, length}, Option.{option_copied, option_map}};
ghost use Rattle.ix_model.specs.history.{Calls.{op_of}, History.{History, world_of}, Made.{entry}, Shown.{AreShown}};
ghost use Rattle.ix_script.specs.lines.Before.{form_told, lanes_of};
ghost use Rattle.ix_core.specs.Stepping.{IsNext};
ghost use Rattle.ix_replay.specs.report.Report.{entry_text, lane_name};

use ix_core::Core;
use ix_label::Label;
use ix_model::{Call, NoMemory, Pid, ProcView, Reply};
use ix_report::entry_line;
use ix_script::Script;

/// The name of a seat's lane.
fn lane_name<'a>(script: &'a Script<'_>, seat: u32) -> &'a [u8]
    ensures { result.now ≡ lane_name (lanes_of script.now) seat }
{
    match script.lane(seat) {
        Some(name) => name,
        None => &[],
    }
}

/// The label of a process, where there is one.
fn label_of(caller: &Option<ProcView>) -> Option<&Label>
    ensures { option_copied result ≡ option_map (λ v. v.label) caller.now }
{
    match caller {
        Some(view) => Some(&view.label),
        None => None,
    }
}

/// Appends the line of an entry that a core has just made, in the form of the script: the number of the script's line that it comes
/// from (from 1), the calling process, the number of the seat (from 0), the call, the reply, and the bytes that were read. It asks
/// that these are as many as the reply says, at most 4,096, and none where it says of none. After `NoMemory` the bytes of `out` are
/// as they were.
#[inline(always)]
pub fn push_entry(
    out: &mut Vec<u8>,
    script: &Script<'_>,
    core: &Core,
    line: u32,
    pid: Pid,
    seat: u32,
    call: &Call<'_>,
    reply: &Reply,
    bytes: &[u8],
) -> Result<(), NoMemory>
    requires { AreShown reply.now bytes.now }
    ensures { (before : History) → IsNext before core.now (entry seat line pid (op_of call.now)) reply.now bytes.now
        → OnOk result (out.new.items ≡ out.old.items
        ++ entry_text (form_told script.now) (lanes_of script.now) (length before.events + 1) (world_of before) (entry seat line pid (op_of call.now))) }
{
    let lane = lane_name(script, seat);
    let caller = core.process(pid);
    let label = label_of(&caller);
    entry_line(
        out,
        script.form(),
        core.len(),
        lane,
        line,
        pid,
        call,
        reply,
        bytes,
        label,
    )
}
