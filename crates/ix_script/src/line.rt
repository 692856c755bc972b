use crate::paths::{MadePath, PathWord};
use crate::payload::Payload;
use crate::values::{LabelWord, NameWord, PolicyText};
use ix_label::Form;
use ix_model::{Mode, PrivSet};

/// What a `limit` line limits.
#[derive(Clone, Copy, Debug, PartialEq, Eq)]
pub enum What {
    Procs,
    Opens,
    Pipes,
    Names,
    Log,
}

/// A descriptor, as a script says it.
#[derive(Drop)]
pub enum FdWord<'a> {
    Number(u8),
    /// The name that stands after `as` on an earlier line of the lane.
    Named(NameWord<'a>),
}

/// Which descriptors a child gets, as a script says it.
#[derive(Drop)]
pub enum KeepWord<'a> {
    All,
    Nothing,
    One(FdWord<'a>),
}

/// A line of a script, which borrows the script's text. A `named` is what stands after `as`.
#[derive(Drop)]
pub enum Line<'a> {
    /// An empty line, or one that begins with `#`.
    Skipped,
    /// `ix 1` or `ix 2`: the form in which labels are spelled.
    Version {
        form: Form,
    },
    Limit {
        what: What,
        number: u32,
    },
    Fs {
        name: NameWord<'a>,
        ceiling: LabelWord<'a>,
        blocks: u32,
        inodes: u32,
    },
    Proc {
        name: NameWord<'a>,
        label: LabelWord<'a>,
        ceiling: LabelWord<'a>,
        cap: PrivSet,
        lic: PrivSet,
    },
    Dir {
        path: MadePath<'a>,
        label: LabelWord<'a>,
        frozen: bool,
    },
    File {
        path: MadePath<'a>,
        label: LabelWord<'a>,
        frozen: bool,
        cap: PrivSet,
        lic: PrivSet,
        bytes: Payload<'a, 1_048_576>,
    },
    Policy {
        text: PolicyText<'a>,
    },
    Phase,
    Lane {
        name: NameWord<'a>,
    },
    Create {
        proc: NameWord<'a>,
        path: PathWord<'a>,
    },
    Open {
        proc: NameWord<'a>,
        path: PathWord<'a>,
        mode: Mode,
        named: Option<NameWord<'a>>,
    },
    Read {
        proc: NameWord<'a>,
        fd: FdWord<'a>,
        count: u32,
    },
    Write {
        proc: NameWord<'a>,
        fd: FdWord<'a>,
        bytes: Payload<'a, 4096>,
    },
    Cut {
        proc: NameWord<'a>,
        fd: FdWord<'a>,
        len: u32,
    },
    Seek {
        proc: NameWord<'a>,
        fd: FdWord<'a>,
        at: u32,
    },
    Dup {
        proc: NameWord<'a>,
        fd: FdWord<'a>,
        named: Option<NameWord<'a>>,
    },
    Close {
        proc: NameWord<'a>,
        fd: FdWord<'a>,
    },
    Pipe {
        proc: NameWord<'a>,
        named: Option<(NameWord<'a>, NameWord<'a>)>,
    },
    Mkdir {
        proc: NameWord<'a>,
        path: PathWord<'a>,
    },
    Link {
        proc: NameWord<'a>,
        target: PathWord<'a>,
        path: PathWord<'a>,
    },
    Unlink {
        proc: NameWord<'a>,
        path: PathWord<'a>,
    },
    Rmdir {
        proc: NameWord<'a>,
        path: PathWord<'a>,
    },
    Chdir {
        proc: NameWord<'a>,
        path: PathWord<'a>,
    },
    Stat {
        proc: NameWord<'a>,
        path: PathWord<'a>,
    },
    List {
        proc: NameWord<'a>,
        path: PathWord<'a>,
        index: u32,
    },
    Fork {
        proc: NameWord<'a>,
        keep: KeepWord<'a>,
        named: Option<NameWord<'a>>,
    },
    Exec {
        proc: NameWord<'a>,
        path: PathWord<'a>,
    },
    Exit {
        proc: NameWord<'a>,
        status: u32,
    },
    Wait {
        proc: NameWord<'a>,
    },
    Labelof {
        proc: NameWord<'a>,
        path: PathWord<'a>,
    },
    Self_ {
        proc: NameWord<'a>,
    },
    Setlabel {
        proc: NameWord<'a>,
        path: PathWord<'a>,
        label: LabelWord<'a>,
    },
    Setself {
        proc: NameWord<'a>,
        label: LabelWord<'a>,
    },
    Freeze {
        proc: NameWord<'a>,
        path: PathWord<'a>,
    },
    Freezeself {
        proc: NameWord<'a>,
    },
    Thaw {
        proc: NameWord<'a>,
        path: PathWord<'a>,
    },
    Thawself {
        proc: NameWord<'a>,
    },
    Setpriv {
        proc: NameWord<'a>,
        path: PathWord<'a>,
        cap: PrivSet,
        lic: PrivSet,
    },
    Droplic {
        proc: NameWord<'a>,
        set: PrivSet,
    },
    Grant {
        proc: NameWord<'a>,
        to: NameWord<'a>,
        set: PrivSet,
    },
    Ceiling {
        proc: NameWord<'a>,
        of: NameWord<'a>,
        label: LabelWord<'a>,
    },
    Pex {
        proc: NameWord<'a>,
        fd: FdWord<'a>,
    },
    Unpex {
        proc: NameWord<'a>,
        fd: FdWord<'a>,
    },
    Readlog {
        proc: NameWord<'a>,
        index: u32,
    },
    Copy {
        proc: NameWord<'a>,
        from: FdWord<'a>,
        to: FdWord<'a>,
        count: u32,
    },
    /// A privilege server serves one request.
    Priv {
        proc: NameWord<'a>,
        fd: FdWord<'a>,
    },
    /// A session server serves one request.
    Login {
        proc: NameWord<'a>,
        fd: FdWord<'a>,
        hand: FdWord<'a>,
        named: Option<NameWord<'a>>,
    },
}

// A `login` line takes all of them, and a `file` line 88.
const _: () = prove!(std::mem::size_of::<Line<'static>>() <= 96);
