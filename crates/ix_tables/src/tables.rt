ghost use Rattle.std.specs.Prelude.{◌≡◌, length};

use ix_inode::Inodes;
use ix_model::Limits;
use ix_name::Names;
use ix_open::Opens;
use ix_pipe::Pipes;
use std::marker::Model;

/// Files, directories, pipes and open entries by the numbers of a world, with what they hold.
///
/// Contracts see the parts of a world that these are. Each call touches what it names, and takes no memory.
///
/// A call asks that what it names is there and of its kind, unless it says what it answers where that isn't so. Numbers of
/// objects are those of a world: inodes first, from 0, and pipes behind them. Sizes and offsets are in bytes.
#[derive(Drop)]
pub struct Tables {
    pub(crate) limits: Limits,
    pub(crate) inodes: Inodes,
    pub(crate) names: Names,
    pub(crate) pipes: Pipes,
    pub(crate) opens: Opens,
    /// How many living processes have each object as working directory.
    pub(crate) homes: Vec<u32>,
    /// The number of the first pipe: all inodes stand below it.
    pub(crate) first_pipe: u32,
}

impl Model for Tables {
    ghost use Rattle.std.specs.{Coded.{codes}, Prelude.{◌≡◌, length}};
    ghost use Rattle.ix_label.specs.contracts.label.Label as label_type;
    ghost use Rattle.ix_tables.specs.{Parts.{Parts}, Joined.{joined, AreJoined}};

    ghost Value = { Parts };

    ghost coded = { Prim.hlevel (codes, label_type.the_row.coded) };

    ghost view = { λ m. joined m.limits m.inodes m.names m.pipes m.opens m.homes.items };

    ghost invariant = { λ m. AreJoined m.limits m.inodes m.names m.pipes m.opens m.homes.items × (m.first_pipe ≡ length m.inodes.nodes) };
}

impl Tables {
    /// How many there can be at most.
    pub fn limits(&self) -> &Limits
        ensures { result.now ≡ self.now.limits }
    {
        &self.limits
    }

    /// How many numbers of objects there are: all inodes and all pipes.
    pub fn objects(&self) -> u32
        ensures { result ≡ length self.now.objects }
    {
        self.homes.len() as u32
    }
}
