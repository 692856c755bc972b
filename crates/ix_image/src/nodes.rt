ghost use Rattle.std.specs.{Prelude.{◌≡◌, ◌≤◌, ◌<◌, length, IfOk}, List.{AllByRecursion}};
ghost use Rattle.ix_image.specs.{Image.{IsFileSystem}, Meant.{Gives, GivesOrStops, held_of, node_of, nodes_of}, Reading.{order_at, held_at, node_at, nodes_at}};

use crate::contents::{Contents, directory_at, file_at};
use crate::fault::{Fault, Stop};
use crate::fields::word_at;
use crate::labels::label_below_at;
use crate::marks::marks_at;
use crate::memory::push;
use crate::node::Node;
use crate::rules::OUT_OF_ORDER;
use crate::systems::{ceiling_of, inodes_in};
use ix_model::FsSpec;
use std::alloc::Global;

/// The fewest bytes of an object.
const NODE_LEN: usize = 76;

/// A number at or above the least one that may come, of some file system.
#[tactic(auto, unfolding(crate::specs::Reading::order_at))]
fn order_at<'a>(fss: &[FsSpec], least: u32, bytes: &'a [u8]) -> Result<(u32, &'a [u8]), Fault>
    requires few { length fss.now ≤ 16 }
    requires each { AllByRecursion IsFileSystem fss.now }
    ensures read { Gives (λ x. (x.0, x.1.now)) result (order_at fss.now least bytes.now) }
    ensures small { IfOk result (λ x. x.0 < 1048576) }
{
    let (number, rest) = word_at(bytes)?;
    if least <= number && number < inodes_in(fss) {
        Ok((number, rest))
    } else {
        Err(Fault::here(OUT_OF_ORDER, bytes))
    }
}

/// What a directory or a file holds.
#[tactic(auto, unfolding(crate::specs::Reading::held_at))]
fn held_at(is_dir: bool, bytes: &[u8]) -> Result<(Contents<'_>, &[u8]), Fault>
    ensures { Gives (λ x. (held_of x.0, x.1.now)) result (held_at is_dir bytes.now) }
{
    if is_dir {
        directory_at(bytes)
    } else {
        file_at(bytes)
    }
}

/// An object.
#[tactic(auto, unfolding(crate::specs::Reading::node_at))]
fn node_at<'a>(fss: &[FsSpec], least: u32, bytes: &'a [u8]) -> Result<(Node<'a>, &'a [u8]), Fault>
    requires few { length fss.now ≤ 16 }
    requires each { AllByRecursion IsFileSystem fss.now }
    ensures read { Gives (λ x. (node_of x.0, x.1.now)) result (node_at fss.now least bytes.now) }
    ensures small { IfOk result (λ x. x.0.number < 1048576) }
{
    let (number, rest) = order_at(fss, least, bytes)?;
    let (marks, rest) = marks_at(rest)?;
    let (label, rest) = label_below_at(&ceiling_of(fss, number), rest)?;
    let (contents, rest) = held_at(marks.is_dir, rest)?;
    let node = Node {
        number,
        frozen: marks.frozen,
        cap: marks.cap,
        lic: marks.lic,
        label,
        contents,
    };
    Ok((node, rest))
}

/// So many objects. Memory is taken for those that the bytes can hold at most.
pub fn nodes_at<'a>(
    alloc: Global,
    fss: &[FsSpec],
    count: u32,
    bytes: &'a [u8],
) -> Result<(Vec<Node<'a>>, &'a [u8]), Stop>
    requires few { length fss.now ≤ 16 }
    requires each { AllByRecursion IsFileSystem fss.now }
    ensures { GivesOrStops (λ x. (nodes_of x.0.items, x.1.now)) result (nodes_at fss.now 0 count bytes.now) }
{
    let most = (bytes.len() / NODE_LEN).min(count as usize);
    let Ok(mut nodes) = Vec::with_capacity(alloc, most) else {
        return Err(Stop::NoMemory);
    };
    let mut rest = bytes;
    let mut least = 0;
    for _ in 0..count {
        let (node, after) = node_at(fss, least, rest)?;
        least = node.number + 1;
        push(&mut nodes, node)?;
        rest = after;
    }
    Ok((nodes, rest))
}
