ghost use Rattle.std.specs.Prelude.{◌≡◌, ℕ, IfOk};
ghost use Rattle.ix_image.specs.{Trees.{TreeOf}, Image.{image_of, IsTree, IsSound}, Meant.{GivesOrStops, IsReadAs, Tells, tree_made}};
ghost use Rattle.ix_image.specs.Reading.{fields_of, tree_in};

use crate::fault::{Fault, ReadImage, Stop};
use crate::fields::{number_at, start_at};
use crate::fitting::names_fit;
use crate::node::Node;
use crate::nodes::nodes_at;
use crate::rules::{LEFT_OVER, MISFIT, TOO_LONG};
use crate::systems::{file_systems_at, inodes_in};
use crate::tree::Tree;
use ix_model::FsSpec;
use std::alloc::Global;

/// The most bytes that an image has.
const LONGEST: usize = 671_088_640;

/// The most file systems.
const MOST_FILE_SYSTEMS: u32 = 16;

/// All fields of an image: its file systems and its objects.
#[tactic(auto, unfolding(crate::specs::Reading::fields_of))]
fn fields_of(alloc: Global, bytes: &[u8]) -> Result<(Vec<FsSpec>, Vec<Node<'_>>), Stop>
    ensures read { GivesOrStops (λ x. tree_made x.0.items x.1.items) result (fields_of bytes.now) }
    ensures tree { IfOk result (λ x. IsTree (tree_made x.0.items x.1.items)) }
{
    let rest = start_at(bytes)?;
    let (count, rest) = number_at(1, MOST_FILE_SYSTEMS, rest)?;
    let (fss, rest) = file_systems_at(alloc, count, rest)?;
    let (count, rest) = number_at(0, inodes_in(&fss), rest)?;
    let (nodes, rest) = nodes_at(alloc, &fss, count, rest)?;
    if !rest.is_empty() {
        return Err(Stop::Fault(Fault::here(LEFT_OVER, rest)));
    }
    Ok((fss, nodes))
}

/// The tree that bytes are the image of.
#[tactic(auto, unfolding(crate::specs::Reading::tree_in))]
fn tree_in(alloc: Global, bytes: &[u8]) -> Result<Tree<'_>, Stop>
    ensures { GivesOrStops (λ t. t) result (tree_in bytes.now) }
{
    if bytes.len() > LONGEST {
        return Err(Stop::Fault(Fault::here(TOO_LONG, &bytes[LONGEST..])));
    }
    let (fss, nodes) = fields_of(alloc, bytes)?;
    if !names_fit(alloc, &fss, &nodes)? {
        return Err(Stop::Fault(Fault::at_end(MISFIT)));
    }
    Ok(Tree { fss, nodes })
}

/// Reads the tree that bytes are the image of. Where they are none, the fault is the first one from left to right: the place,
/// from 0, of the field that breaks a rule, and the first rule that it breaks.
///
/// The tree borrows the bytes. Beside them it takes memory for each object that they can hold, and while it looks at the names
/// of a directory for each of these; a number in them takes none.
pub fn read(alloc: Global, bytes: &[u8]) -> Result<Tree<'_>, ReadImage>
    ensures told { Tells result bytes.now }
    ensures image { IfOk result (λ t. IsSound t × (bytes.now ≡ image_of t)) }
    ensures all { (t : TreeOf) → IsSound t → bytes.now ≡ image_of t → IsReadAs t result }
{
    match tree_in(alloc, bytes) {
        Ok(tree) => Ok(tree),
        Err(Stop::Fault(fault)) => Err(ReadImage::Fault {
            at: bytes.len().saturating_sub(fault.left) as u64,
            rule: fault.rule,
        }),
        Err(Stop::NoMemory) => Err(ReadImage::NoMemory),
    }
}
