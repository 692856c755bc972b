use bitflags::Flags;
use ix_audit::Log;
use ix_label::Label;
use ix_model::{Act, AuditLine, Pid, PrivSet};
use std::alloc::Global;
use std::process::Abort;

/// A line of a log.
fn line() -> AuditLine {
    AuditLine {
        place: 3,
        pid: Pid(1),
        act: Act::ReadLog,
        target: 0,
        was: Label::bottom(),
        now: Label::bottom(),
        cap: PrivSet::empty(),
        lic: PrivSet::empty(),
    }
}

/// Whether a log of one line keeps a line, and refuses a second.
fn keeps_a_line(alloc: Global) -> bool {
    let Ok(mut log) = Log::new(alloc, 1) else {
        return false;
    };
    let first = log.push(line()).is_ok();
    let second = log.push(line()).is_ok();
    first && !second && log.full()
}

#[test]
fn a_log_of_one_line_refuses_the_second(rt: HostRuntime) {
    assert!(rt; keeps_a_line(rt.alloc()));
}
