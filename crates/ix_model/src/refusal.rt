ghost use Rattle.std.specs.Prelude.{◌≡◌};
ghost use Rattle.ix_model.specs.rows.Refusals.{keeps_label, number_of};

/// Why the machine refuses a call.
#[derive(Clone, Copy, Debug, PartialEq, Eq)]
pub enum Refusal {
    /// The calling process, or the one that the call names, doesn't live.
    NoProcess,
    /// It is no descriptor of the caller.
    BadFd,
    /// The descriptor isn't open for reading.
    NotReadable,
    /// The descriptor isn't open for writing.
    NotWritable,
    /// A name on the path isn't there.
    NotFound,
    /// A name is sought in an object that isn't a directory, or a directory was asked for.
    NotDir,
    /// The object is a directory.
    IsDir,
    /// The name is there already.
    Exists,
    /// The directory has names.
    NotEmpty,
    /// Two objects lie on two file systems, or a root would be removed.
    CrossFs,
    /// The process's label would rise, and the process is frozen.
    ProcFrozen,
    /// The process's label would pass its ceiling.
    ProcCeiling,
    /// The object's label would change, and the object is frozen.
    FileFrozen,
    /// The object's label would pass the ceiling of its file system.
    FsCeiling,
    /// A file that carries privileges can't be changed.
    Trusted,
    /// The privilege isn't in the process's capabilities.
    NoCapability,
    /// The privilege is in the process's capabilities, and in no licence of it.
    NoLicence,
    /// The new label isn't at or above what it has to be.
    NotAbove,
    /// The new ceiling isn't at or above the label.
    BelowLabel,
    /// Another process has claimed the pipe's end.
    PexHeld,
    /// The descriptor isn't one of a pipe.
    NotPipe,
    /// The claim on the end isn't the caller's.
    NotClaimed,
    /// The file system has too few free blocks.
    NoSpace,
    /// There is no free inode, or no free pipe.
    NoInode,
    /// There is no room for another name.
    NoEntry,
    /// There is no room for another process.
    NoSlot,
    /// The caller has too few free descriptors.
    NoFd,
    /// There are too few free open entries.
    NoOpen,
    /// A count, a length or an offset is above its limit.
    TooBig,
    /// The pipe has no room for the bytes.
    PipeFull,
    /// Nobody holds the pipe's other end.
    Broken,
    /// The caller has no child.
    NoChild,
    /// A child of the caller lives, or isn't collected.
    ChildrenLive,
    /// The audit log is full.
    LogFull,
    /// There is nothing yet, and there may be later.
    Again,
    /// The index is at or past the end of the list.
    EndOfList,
    /// The descriptor is one of a pipe.
    IsPipe,
    /// The directory is a living process's working directory.
    InUse,
}

impl Refusal {
    /// Its number, from 1 to 38, in the order in which they are declared.
    pub fn number(self) -> u8
        ensures { result ≡ number_of self }
    {
        self as u8 + 1
    }

    /// Whether the caller's raised label stays after it. It does after the eight refusals that come once a look
    /// has passed; every other refusal changes nothing at all.
    pub fn keeps_label(self) -> bool
        ensures { result ≡ keeps_label self }
    {
        matches!(
            self,
            Refusal::NotFound
                | Refusal::NotDir
                | Refusal::IsDir
                | Refusal::Exists
                | Refusal::NotEmpty
                | Refusal::CrossFs
                | Refusal::Again
                | Refusal::EndOfList
        )
    }
}
