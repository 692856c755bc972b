ghost use Rattle.std.specs.Prelude.{◌≡◌};
ghost use Rattle.ix_model.specs.{world.World.{is_dir, is_file, is_pipe, is_trusted}, rows.Walks.{nothing}};
ghost use Rattle.ix_tables.specs.Views.{object_by};

use bitflags::Flags;
use ix_model::{Floating, Kind, PrivSet};

/// What is told of an object: all but its names and its claims.
#[derive(Clone, Copy)]
pub struct ObjectRow {
    pub kind: Kind,
    /// The number of its file system; a pipe has none.
    pub fs: Option<u32>,
    /// Its label, whether it is frozen, and the ceiling of its file system; a pipe's is top.
    pub float: Floating,
    pub cap: PrivSet,
    pub lic: PrivSet,
    /// How many names it has; 1 for a directory, 0 for a pipe.
    pub links: u32,
    /// How many bytes a file holds, at most 1,048,576; 0 for what is no file.
    pub size: u64,
}

impl ObjectRow {
    /// Whether it is a file.
    pub fn is_file(&self) -> bool
        ensures { result ≡ is_file (object_by nothing self.now) }
    {
        matches!(self.kind, Kind::File)
    }

    /// Whether it is a directory.
    pub fn is_dir(&self) -> bool
        ensures { result ≡ is_dir (object_by nothing self.now) }
    {
        matches!(self.kind, Kind::Dir)
    }

    /// Whether it is a pipe.
    pub fn is_pipe(&self) -> bool
        ensures { result ≡ is_pipe (object_by nothing self.now) }
    {
        matches!(self.kind, Kind::Pipe)
    }

    /// Whether it is a file that carries privileges.
    pub fn is_trusted(&self) -> bool
        ensures { result ≡ is_trusted (object_by nothing self.now) }
    {
        self.is_file() && !(self.cap.is_empty() && self.lic.is_empty())
    }
}
