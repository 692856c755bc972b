ghost use Rattle.std.specs.Prelude.{◌≡◌, ◌++◌, OnOk};
ghost use Rattle.ix_model.specs.history.History.{world_of};
ghost use Rattle.ix_replay.specs.report.Report.{object_text, process_text};

use ix_core::Core;
use ix_label::Form;
use ix_model::{NoMemory, Pid};
use ix_report::{object_line, process_line};

/// A heading. `NoMemory` where there was none for it; `out` isn't gone on with then.
pub fn push_heading(out: &mut Vec<u8>, text: &[u8]) -> Result<(), NoMemory>
    ensures { OnOk result (out.new.items ≡ out.old.items ++ text.now) }
{
    out.extend_from_slice(text).map_err(|_| NoMemory)
}

/// The object of a number, where there is one, with its label in the form. `NoMemory` where there was none for its line; the bytes of
/// `out` are as they were then.
pub fn push_object(out: &mut Vec<u8>, form: Form, core: &Core, n: u32) -> Result<(), NoMemory>
    ensures { OnOk result (out.new.items ≡ out.old.items ++ object_text form (world_of core.now).frame.objects n) }
{
    match core.object(n) {
        Some(view) => object_line(out, form, n, &view),
        None => Ok(()),
    }
}

/// The process of a pid, where there is one, with its label in the form. `NoMemory` where there was none for its line; the bytes of
/// `out` are as they were then.
pub fn push_process(out: &mut Vec<u8>, form: Form, core: &Core, pid: u32) -> Result<(), NoMemory>
    ensures { OnOk result (out.new.items ≡ out.old.items ++ process_text form (world_of core.now).frame.processes pid) }
{
    match core.process(Pid(pid)) {
        Some(view) => process_line(out, form, Pid(pid), &view),
        None => Ok(()),
    }
}
