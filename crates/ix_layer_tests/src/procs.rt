use bitflags::Flags;
use ix_label::Label;
use ix_model::{Keep, Pid, PrivSet, ProcSpec};
use ix_proc::Procs;
use std::alloc::Global;
use std::process::Abort;

/// A process at bottom, without privileges.
fn plain() -> ProcSpec {
    ProcSpec {
        label: Label::bottom(),
        ceiling: Label::top(),
        cap: PrivSet::empty(),
        lic: PrivSet::empty(),
    }
}

/// The child of the first process, and the status with which it ended; `None` where there isn't one.
fn ended_child(procs: &Procs) -> Option<(Pid, u8)> {
    let (child, _, status) = procs.ended_child(Pid(1))?;
    Some((child, status))
}

/// Makes a child of the first process, and ends it.
fn end_child(procs: &mut Procs) -> Option<(Pid, u8)> {
    if procs.next_pid() != Pid(2) || procs.get(Pid(1)).is_none() {
        return None;
    }
    procs.fork(Pid(1), Keep::All);
    if procs.get(Pid(2)).is_none() || procs.has_child(Pid(2)) {
        return None;
    }
    procs.end(Pid(2), 9);
    ended_child(procs)
}

/// What a process learns of a child that has ended.
fn learned_of_a_child(alloc: Global) -> Option<(Pid, u8)> {
    let mut procs = Procs::new(alloc, 2).ok()?;
    procs.add(&plain());
    end_child(&mut procs)
}

#[test]
fn a_child_waits_to_be_collected(rt: HostRuntime) {
    assert!(rt; learned_of_a_child(rt.alloc()) == Some((Pid(2), 9)));
}
