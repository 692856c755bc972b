use ix_label::Label;
use ix_model::{Fd, Keep, Mode, Pid, PrivSet};
use std::marker::Model;
use std::mem::size_of;

/// A call on one path, without the path.
#[derive(Clone, Copy)]
pub enum OnPath {
    CreateAt,
    OpenAt { mode: Mode },
    MakeDir,
    UnlinkAt,
    RemoveDir,
    ChangeDir,
    StatAt,
    ListAt { index: u32 },
    Exec,
    LabelOf,
    /// Which of the journal's labels, from 0.
    SetLabel { label: u32 },
    Freeze,
    Thaw,
    SetPriv { cap: PrivSet, lic: PrivSet },
}

/// A call that has no path and writes no bytes.
#[derive(Clone, Copy)]
pub enum Alone {
    ReadFd { fd: Fd, count: u32 },
    CutFd { fd: Fd, len: u32 },
    SeekFd { fd: Fd, at: u32 },
    DupFd { fd: Fd },
    CloseFd { fd: Fd },
    MakePipe,
    Fork { keep: Keep },
    Exit { status: u8 },
    WaitChild,
    SelfLabel,
    /// Which of the journal's labels, from 0.
    SetSelf { label: u32 },
    FreezeSelf,
    ThawSelf,
    DropLic { set: PrivSet },
    GrantLic { pid: Pid, set: PrivSet },
    /// Which of the journal's labels, from 0.
    SetCeiling { pid: Pid, label: u32 },
    Pex { fd: Fd },
    Unpex { fd: Fd },
    ReadLog { index: u32 },
}

/// A call without its words, which are the texts of its paths or the bytes that it writes, and without its label.
#[derive(Clone, Copy)]
pub enum Head {
    Plain(Alone),
    /// Whether its path is absolute.
    Path(bool, OnPath),
    /// Whether both paths are absolute, and how long the target's text is, which lies before the path's.
    Link {
        target: bool,
        split: u32,
        path: bool,
    },
    Write(Fd),
}

/// An entry without its words, and where these lie.
#[derive(Drop)]
pub struct Record {
    pub seat: u32,
    pub line: u32,
    pub pid: Pid,
    /// Where its words begin, and how many bytes they take.
    pub start: u32,
    pub len: u32,
    pub head: Head,
}

impl Model for Record {
    ghost use Rattle.ix_journal.specs.Recorded.{Recorded};

    ghost Value = { Recorded };

    ghost view = { λ r. record { seat = r.seat; line = r.line; pid = r.pid.0; start = r.start; len = r.len; head = r.head } };
}

/// Each entry costs 128 bytes besides its words: its record and a label take no more.
const _: () = prove!(size_of::<Record>() + size_of::<Label>() <= 128);
