use bitflags::Flags;
use ix_label::Label;
use ix_model::{Caller, Floating, Obj, Pid, PrivSet};

/// Where the record of a pid stands.
#[derive(Clone, Copy)]
pub struct Slot {
    pub pid: Pid,
    pub link: u32,
}

/// A process with its parent, if it has one, and its exit status, if it has ended.
#[derive(Clone, Copy)]
pub struct Record {
    pub who: Caller,
    pub parent: Option<Pid>,
    pub ended: Option<u8>,
}

/// The record that stands where no process ever stood.
pub fn blank() -> Record {
    let who = Caller {
        pid: Pid(0),
        float: Floating {
            label: Label::bottom(),
            ceiling: Label::bottom(),
            frozen: false,
        },
        cap: PrivSet::empty(),
        lic: PrivSet::empty(),
        own: PrivSet::empty(),
        cwd: Obj(0),
        fds: [None; 32],
    };
    Record {
        who,
        parent: None,
        ended: None,
    }
}
