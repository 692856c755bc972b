use crate::ids::{Fd, Pid};
use crate::path::Path;
use crate::privs::PrivSet;
use ix_label::Label;

/// The bytes that a read puts out: the first so many as it answers, and the rest as they were.
pub type Buf = [u8; 4096];

/// What an open entry serves for.
#[derive(Clone, Copy, Debug, PartialEq, Eq)]
pub enum Mode {
    Read,
    Write,
    Both,
}

/// Which descriptors a child gets.
#[derive(Clone, Copy, Debug, PartialEq, Eq)]
pub enum Keep {
    All,
    Nothing,
    /// That one alone, under its number.
    One(Fd),
}

/// A system call. It borrows the names of its paths and the bytes that it writes, so that it can be handed on: it takes 96 bytes.
#[derive(Clone, Copy)]
pub enum Call<'a> {
    /// Makes an empty file.
    CreateAt {
        path: Path<'a>,
    },
    /// Opens a file under the lowest free descriptor.
    OpenAt {
        path: Path<'a>,
        mode: Mode,
    },
    /// Reads at most `count` bytes, at most 4,096.
    ReadFd {
        fd: Fd,
        count: u32,
    },
    /// Writes all these bytes, at most 4,096.
    WriteFd {
        fd: Fd,
        bytes: &'a [u8],
    },
    /// Sets a file's length, at most 1,048,576.
    CutFd {
        fd: Fd,
        len: u32,
    },
    /// Sets a file's offset, at most 1,048,576.
    SeekFd {
        fd: Fd,
        at: u32,
    },
    /// A second descriptor on the same open entry.
    DupFd {
        fd: Fd,
    },
    /// Frees a descriptor.
    CloseFd {
        fd: Fd,
    },
    /// Makes a pipe, and opens both ends.
    MakePipe,
    /// Makes an empty directory.
    MakeDir {
        path: Path<'a>,
    },
    /// Gives a file a second name.
    LinkAt {
        target: Path<'a>,
        path: Path<'a>,
    },
    /// Takes a file's name away.
    UnlinkAt {
        path: Path<'a>,
    },
    /// Removes an empty directory.
    RemoveDir {
        path: Path<'a>,
    },
    /// Sets the working directory.
    ChangeDir {
        path: Path<'a>,
    },
    /// Tells what an object is.
    StatAt {
        path: Path<'a>,
    },
    /// Tells the name at an index of a directory, from 0.
    ListAt {
        path: Path<'a>,
        index: u32,
    },
    /// Makes a child.
    Fork {
        keep: Keep,
    },
    /// Takes the capabilities and licences of a program file.
    Exec {
        path: Path<'a>,
    },
    /// Ends the caller.
    Exit {
        status: u8,
    },
    /// Collects an ended child.
    WaitChild,
    /// Tells an object's label.
    LabelOf {
        path: Path<'a>,
    },
    /// Tells the caller's label.
    SelfLabel,
    /// Sets an object's label.
    SetLabel {
        path: Path<'a>,
        label: Label,
    },
    /// Sets the caller's label.
    SetSelf {
        label: Label,
    },
    /// Freezes an object's label.
    Freeze {
        path: Path<'a>,
    },
    /// Freezes the caller's label.
    FreezeSelf,
    /// Unfreezes an object's label.
    Thaw {
        path: Path<'a>,
    },
    /// Unfreezes the caller's label.
    ThawSelf,
    /// Sets the capabilities and licences of a program file.
    SetPriv {
        path: Path<'a>,
        cap: PrivSet,
        lic: PrivSet,
    },
    /// Drops privileges of the caller.
    DropLic {
        set: PrivSet,
    },
    /// Grants a process licences.
    GrantLic {
        pid: Pid,
        set: PrivSet,
    },
    /// Sets a process's ceiling.
    SetCeiling {
        pid: Pid,
        label: Label,
    },
    /// Claims the pipe's end behind a descriptor.
    Pex {
        fd: Fd,
    },
    /// Gives a claim up.
    Unpex {
        fd: Fd,
    },
    /// Tells the audit line at an index, from 0.
    ReadLog {
        index: u32,
    },
}

// A label takes 64 of them, and a path 24.
const _: () = prove!(std::mem::size_of::<Call<'static>>() <= 104);
