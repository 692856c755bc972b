mod forms;
mod lengths;
mod names;
mod places;
mod plans;
mod sessions;
mod spelled;
mod together;

use ix_script::{ReadFail, read};
use std::alloc::Global;
use std::process::Abort;

/// A script, and the line and the rule of its fault: both are 0 where it has none.
type Case = (&'static str, u32, u8);

/// The line and the rule of the fault, and twice 0 where there is none.
fn fault(alloc: Global, bytes: &[u8]) -> (u32, u8) {
    match read(alloc, bytes) {
        Err(ReadFail::Fault(fault)) => (fault.line, fault.rule),
        Err(ReadFail::NoMemory) => (0, 255),
        Ok(_) => (0, 0),
    }
}

/// Each script has its fault and no other.
fn walk<R: Abort>(rt: &R, alloc: Global, cases: &[Case]) {
    for (script, line, rule) in cases {
        assert_eq!(rt;
            fault(alloc, script.as_bytes()),
            (*line, *rule),
            "{script:?}"
        );
    }
}
