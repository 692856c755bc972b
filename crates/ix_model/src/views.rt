use crate::ids::{Obj, Pid};
use crate::privs::PrivSet;
use crate::reply::Kind;
use ix_label::Label;

/// A label that floats upward, as far as its ceiling, unless it is frozen.
#[derive(Clone, Copy)]
pub struct Floating {
    pub label: Label,
    pub ceiling: Label,
    pub frozen: bool,
}

/// A living process, as the calls that it makes see it.
#[derive(Clone, Copy)]
pub struct Caller {
    pub pid: Pid,
    pub float: Floating,
    /// The capabilities, from the program that it last took.
    pub cap: PrivSet,
    /// The licences of its own.
    pub lic: PrivSet,
    /// The licences of that program.
    pub own: PrivSet,
    /// The working directory.
    pub cwd: Obj,
    /// The descriptors: each names an open entry, or is free.
    pub fds: [Option<u32>; 32],
}

/// What a report says of an object.
#[derive(Clone, Copy)]
pub struct ObjView {
    pub kind: Kind,
    pub label: Label,
    pub frozen: bool,
}

/// What a report says of a process.
#[derive(Clone, Copy)]
pub struct ProcView {
    pub label: Label,
    pub ended: bool,
}
