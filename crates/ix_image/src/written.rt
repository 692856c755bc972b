use crate::part::Part;
use ix_core::Core;
use ix_model::FsSpec;

/// The image of a core's tree, written piece by piece.
#[derive(Drop)]
pub struct Saving<'c> {
    pub(crate) fss: &'c [FsSpec],
    pub(crate) core: &'c Core,
    /// Which objects have a name.
    pub(crate) named: Vec<bool>,
    /// How many objects are in the tree.
    pub(crate) count: u32,
    pub(crate) next: Part,
}
