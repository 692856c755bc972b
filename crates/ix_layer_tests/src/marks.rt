use ix_float::Way;
use ix_marks::{Marks, Spot};
use ix_model::{Fd, Pid};
use std::alloc::Global;
use std::process::Abort;

/// Whether a descriptor is fresh for reading before it is marked, then, and once the label of its object has changed.
fn freshness(alloc: Global) -> Option<[bool; 3]> {
    let (pid, fd) = (Pid(1), Fd(4));
    let spot = Spot {
        entry: 2,
        object: 5,
    };
    let mut marks = Marks::new(alloc, 2, 8, 4).ok()?;
    let before = marks.fresh(pid, fd, Way::Reading);
    marks.set(pid, fd, Way::Reading, spot);
    let then = marks.fresh(pid, fd, Way::Reading);
    marks.relabel_object(5);
    Some([before, then, marks.fresh(pid, fd, Way::Reading)])
}

#[test]
fn a_descriptor_is_fresh_until_a_label_changes(rt: HostRuntime) {
    assert!(rt; freshness(rt.alloc()) == Some([false, true, false]));
}
