ghost use Rattle.std.specs.Prelude.{◌≡◌};
ghost use Rattle.ix_image.specs.Lines.{names_in};

use crate::naming::Links;
use crate::tree::Tree;

/// What is told next.
#[derive(Clone, Copy)]
pub enum Next<'a> {
    /// The file system at an index, or what comes behind the last.
    FileSystem(usize),
    /// The object at an index, or the last line.
    Object(usize),
    /// The first of these names of the object of a number; behind its last comes the object at an index.
    Name(u32, Links<'a>, usize),
    End,
}

/// The list of a tree, told line by line.
#[derive(Drop)]
pub struct Listing<'t> {
    pub(crate) tree: &'t Tree<'t>,
    /// How many names there are in all.
    pub(crate) names: u64,
    pub(crate) next: Next<'t>,
    ghost counted: { names ≡ names_in tree.now.nodes },
}
