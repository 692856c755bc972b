use crate::ids::Pid;
use crate::privs::PrivSet;
use ix_label::Label;

/// An act that exercises a privilege.
#[derive(Clone, Copy, Debug, PartialEq, Eq)]
pub enum Act {
    /// An object's label was lowered.
    DownFile,
    /// A process lowered its own label.
    DownSelf,
    /// A file's privileges were set.
    SetPriv,
    /// A process was granted licences.
    Grant,
    /// A ceiling was set.
    Ceiling,
    /// An object was unfrozen.
    ThawFile,
    /// A process unfroze itself.
    ThawSelf,
    /// The audit log was read.
    ReadLog,
}

/// A line of the audit log.
#[derive(Clone, Copy)]
pub struct AuditLine {
    /// The place of the act's entry in the history, from 1.
    pub place: u32,
    /// Who acted.
    pub pid: Pid,
    pub act: Act,
    /// The object, the pid, or for a read of the log its index.
    pub target: u32,
    /// The label or ceiling before.
    pub was: Label,
    /// The label or ceiling after.
    pub now: Label,
    /// The capabilities that were set, else none.
    pub cap: PrivSet,
    /// The licences that were set or granted, else none.
    pub lic: PrivSet,
}
