ghost use Rattle.std.specs.Prelude.{◌≡◌, ◌+◌, ◌<◌, ◌≤◌, IfOk, MatchOption, IsTrue, is_some, None, [], length};
ghost use Rattle.ix_model.specs.world.World.{at, put};
ghost use Rattle.ix_blocks.specs.Files.{with_bytes};
ghost use Rattle.ix_inode.specs.Volumes.{IsNew};

use crate::node::Node;
use crate::table::Table;
use ix_blocks::Blocks;
use ix_model::{FsSpec, NoMemory};
use std::alloc::Global;

/// The inodes of one file system, with their bytes.
#[derive(Drop)]
pub(crate) struct Volume {
    pub(crate) spec: FsSpec,
    /// The number of its first inode.
    pub(crate) first: u32,
    /// Its inodes, by their numbers in it.
    pub(crate) nodes: Table,
    /// Their bytes, by the same numbers.
    pub(crate) blocks: Blocks,
}

impl Volume {
    /// A file system of which the first inode is its root directory, and all others are free.
    pub(crate) fn new(alloc: Global, fs: u32, first: u32, spec: FsSpec) -> Result<Volume, NoMemory>
        requires { 0 < spec.inodes }
        ensures { IfOk result (λ v. IsNew fs first spec v) }
    {
        let mut nodes = Table::new(alloc, spec.inodes)?;
        nodes.take(Node::new(fs, true));
        let blocks = Blocks::new(alloc, spec.blocks, spec.inodes)?;
        Ok(Volume {
            spec,
            first,
            nodes,
            blocks,
        })
    }

    /// The number in the file system of an object of it; None for one that isn't on it.
    pub(crate) fn place_of(&self, object: u32) -> Option<u32>
        ensures { MatchOption result (self.now.first ≤ object → self.now.first + self.now.spec.inodes ≤ object) (λ n. (object ≡ self.now.first + n) × (n < self.now.spec.inodes)) }
    {
        if object < self.first || object - self.first >= self.spec.inodes {
            return None;
        }
        Some(object - self.first)
    }

    /// Lets an inode go, with its bytes; its number is free from then on.
    pub(crate) fn release(&mut self, n: u32)
        requires lives { IsTrue (is_some (at self.old.nodes n)) }
        requires file { n < length self.old.blocks.files }
        ensures { self.new ≡ record self.old { nodes = put self.old.nodes n None; blocks = with_bytes n [] self.old.blocks } }
    {
        self.nodes.release(n);
        match self.blocks.cut(n, 0) {
            Ok(()) => (),
            Err(_) => unreachable!(),
        }
    }
}
