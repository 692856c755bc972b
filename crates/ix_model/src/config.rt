use crate::contents::Contents;
use crate::list::List;
use crate::name::Name;
use crate::path_buf::PathBuf;
use crate::privs::PrivSet;
use crate::valid::is_valid;
use ix_label::Label;
use std::marker::Brand;
use std::sync::ledger::Blank;

/// A file system.
#[derive(Clone, Copy)]
pub struct FsSpec {
    /// Its root directory's name in the first file system's root. The first one's isn't used.
    pub name: Name,
    /// Above what no label of an object on it goes.
    pub ceiling: Label,
    /// 1 to 65,536 blocks of 512 bytes.
    pub blocks: u32,
    /// 1 to 65,536.
    pub inodes: u32,
}

/// How many there can be at most.
#[derive(Clone, Copy)]
pub struct Limits {
    /// Processes, living or not yet collected: 1 to 1,024.
    pub procs: u32,
    /// Open entries: 1 to 4,096.
    pub opens: u32,
    /// Pipes: 0 to 1,024.
    pub pipes: u32,
    /// Names in all directories together: 16 to 65,536.
    pub names: u32,
    /// Audit lines: 0 to 65,536.
    pub log: u32,
}

/// A process that is there at the start. It has pid 1, 2 and so on in order, the root as working directory, no
/// descriptors and no parent.
#[derive(Clone, Copy)]
pub struct ProcSpec {
    pub label: Label,
    pub ceiling: Label,
    pub cap: PrivSet,
    pub lic: PrivSet,
}

/// A file or directory that is there at the start.
#[derive(Drop)]
pub struct ObjSpec {
    /// Absolute, with a name at least.
    pub path: PathBuf,
    /// Whether it is a directory.
    pub dir: bool,
    pub label: Label,
    pub frozen: bool,
    /// None for a directory.
    pub cap: PrivSet,
    /// None for a directory.
    pub lic: PrivSet,
    /// None for a directory.
    pub bytes: Contents,
}

/// What a machine starts from.
#[derive(Drop)]
pub struct Config {
    /// 1 to 16 file systems; the first holds the root.
    pub fss: List<FsSpec>,
    pub limits: Limits,
    pub procs: List<ProcSpec>,
    /// In the order in which they are made.
    pub objects: List<ObjSpec>,
    /// What the journal may cost, at most 870,400,000.
    pub journal: u64,
}

impl Config {
    ghost use Rattle.std.specs.Prelude.{◌≡◌};
    ghost use Rattle.ix_model.specs.opening.Valid.{is_valid};

    /// Whether a machine can start from it: whether its file systems, limits and processes are within their bounds,
    /// each object line can be carried out after those before it, and the journal is within its limit.
    ///
    /// It takes no memory. Each object line is compared with all lines before it, so the time grows with the square of
    /// their number.
    pub fn valid(&self) -> bool
        ensures { result ≡ is_valid self.now }
    {
        is_valid::<Brand>(self, Blank::new(1))
    }
}
