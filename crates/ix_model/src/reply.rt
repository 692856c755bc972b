use crate::audit::AuditLine;
use crate::ids::{Fd, Obj, Pid};
use crate::name::Name;
use crate::privs::PrivSet;
use crate::refusal::Refusal;
use ix_label::Label;

/// What an object is.
#[derive(Clone, Copy, Debug, PartialEq, Eq)]
pub enum Kind {
    File,
    Dir,
    Pipe,
}

/// What the machine answers to a call.
#[derive(Clone, Copy)]
pub enum Reply {
    /// It is done, and there is nothing to tell.
    Done,
    /// A number: an object's, a descriptor's, a pid, or the length written.
    Number(u64),
    /// The descriptors of the two ends of a pipe, end 0 first.
    Two(Fd, Fd),
    /// So many bytes were read. They are the first ones of the buffer.
    Bytes(u32),
    /// What an object is.
    Stat {
        obj: Obj,
        kind: Kind,
        /// In bytes, 0 for a directory.
        size: u64,
        /// The number of names, 1 for a directory.
        links: u32,
        frozen: bool,
        cap: PrivSet,
        lic: PrivSet,
    },
    /// A label.
    Lab(Label),
    /// An entry of a directory.
    Named {
        name: Name,
        obj: Obj,
    },
    /// The end is claimed, and the other one isn't.
    Half,
    /// Both ends are claimed: who has the other one.
    Whole {
        pid: Pid,
        label: Label,
        lic: PrivSet,
    },
    /// A line of the audit log.
    LogLine(AuditLine),
    /// A child that has ended.
    Child {
        pid: Pid,
        status: u8,
    },
    /// The call is refused.
    No(Refusal),
}

/// What the core answers to a call.
#[derive(Clone, Copy)]
pub enum Answer {
    /// The machine's reply. The call is an entry of the history.
    Given(Reply),
    /// The journal has no room for the call: `used` and `need` together are above `cap`, all in bytes of cost.
    /// Nothing has changed.
    JournalFull { used: u64, need: u64, cap: u64 },
    /// There is no memory for the call. Nothing has changed.
    NoMemory,
}

// A line of the audit log has two labels.
const _: () = prove!(std::mem::size_of::<Answer>() <= 200);
