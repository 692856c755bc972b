ghost use Rattle.std.specs.Prelude.{◌≡◌};
ghost use Rattle.ix_inode.specs.Shown.{told, new_node};

use bitflags::Flags;
use ix_label::Label;
use ix_model::{Floating, Kind, PrivSet};

/// What is told of a file or a directory.
#[derive(Clone, Copy)]
pub struct Inode {
    /// `Dir` or `File`.
    pub kind: Kind,
    /// The number of its file system.
    pub fs: u32,
    /// Its label, the ceiling of its file system, and whether it is frozen.
    pub float: Floating,
    /// The capabilities that a program takes from it.
    pub cap: PrivSet,
    /// The licences that a program takes from it.
    pub lic: PrivSet,
    /// How many names it has; 1 for a directory.
    pub links: u32,
    /// How many bytes it holds.
    pub size: u64,
}

/// What is kept of a file or a directory beside its names and bytes.
#[derive(Clone, Copy)]
pub struct Node {
    /// A directory, else a file.
    pub dir: bool,
    /// The number of its file system.
    pub fs: u32,
    pub label: Label,
    pub frozen: bool,
    pub cap: PrivSet,
    pub lic: PrivSet,
    /// How many names it has; 1 for a directory.
    pub links: u32,
}

impl Node {
    /// A new directory, or a new file, on a file system: at bottom, not frozen, without privileges.
    pub(crate) fn new(fs: u32, dir: bool) -> Node
        ensures { result ≡ new_node fs dir }
    {
        Node {
            dir,
            fs,
            label: Label::bottom(),
            frozen: false,
            cap: PrivSet::empty(),
            lic: PrivSet::empty(),
            links: if dir { 1 } else { 0 },
        }
    }

    /// What is told of it, under that ceiling and with that many bytes.
    pub(crate) fn told(&self, ceiling: Label, size: u64) -> Inode
        ensures { result ≡ told ceiling size self.now }
    {
        Inode {
            kind: if self.dir { Kind::Dir } else { Kind::File },
            fs: self.fs,
            float: Floating {
                label: self.label,
                ceiling,
                frozen: self.frozen,
            },
            cap: self.cap,
            lic: self.lic,
            links: self.links,
            size,
        }
    }
}
