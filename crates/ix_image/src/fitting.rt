//! Whether the names of a tree fit: what is looked at last, of the whole.
ghost use Rattle.std.specs.Prelude.{◌≡◌, ◌+◌, ◌<◌, ◌≤◌, ◌==◌, ◌&&◌, ◌||◌, nat_lt, if◌then◌else◌, ℕ, IfOk, length, map, min, count_by, slice_index, slice_get, Some};
ghost use Rattle.std.specs.List.{AllByRecursion, list_all, list_any};
ghost use Rattle.ix_model.specs.opening.Valid.{all_differ};
ghost use Rattle.ix_model.specs.world.Naming.{same_bytes};
ghost use Rattle.ix_image.specs.Trees.{NodeOf, is_directory};
ghost use Rattle.ix_image.specs.Image.{IsTree, IsFileSystem, NumbersRise};
ghost use Rattle.ix_image.specs.Fitting.{file_systems_differ, roots_are_there, roots_are_named, root_links, blocks_fit, links_differ, is_well_named, names_fit, times_named};
ghost use Rattle.ix_image.specs.Meant.{AreCounts, AreMarks, links_in, node_of, nodes_of, tree_made};

use crate::leading::{has_link, links_lead};
use crate::memory::push;
use crate::naming::Links;
use crate::node::Node;
use crate::places::{has_directory, place_of};
use crate::reaching::reached;
use crate::systems::home;
use ix_model::{FsSpec, Name, NoMemory, blocks_for};
use std::alloc::Global;

/// Whether the names of a tree fit.
#[tactic(auto, unfolding(crate::specs::Fitting::names_fit))]
pub fn names_fit(alloc: Global, fss: &[FsSpec], nodes: &[Node<'_>]) -> Result<bool, NoMemory>
    requires { IsTree (tree_made fss.now nodes.now) }
    ensures { IfOk result (λ b. b ≡ names_fit (tree_made fss.now nodes.now)) }
{
    if !file_systems_differ(fss) || !roots_are_there(fss, nodes) || !roots_are_named(fss, nodes) {
        return Ok(false);
    }
    if !blocks_fit(fss, nodes) || !all_differ(alloc, nodes)? || !links_lead(fss, nodes) {
        return Ok(false);
    }
    let counts = counts(alloc, nodes)?;
    let marks = reached(alloc, nodes)?;
    Ok(are_well_named(nodes, &counts, &marks))
}

/// Whether one of the file systems has that name.
fn is_named(fss: &[FsSpec], name: &Name) -> bool
    ensures { result ≡ list_any (λ s. same_bytes name.now s.name) fss.now }
{
    let name = name.as_ref();
    fss.iter().any(|s| name.same(&s.name.as_ref()))
}

/// Whether the names of the file systems differ.
fn file_systems_differ(fss: &[FsSpec]) -> bool
    ensures { result ≡ file_systems_differ fss.now }
{
    for (i, fs) in fss.iter().enumerate() {
        if is_named(&fss[i + 1..], &fs.name) {
            return false;
        }
    }
    true
}

/// Whether the first inode of each file system is a directory.
fn roots_are_there(fss: &[FsSpec], nodes: &[Node<'_>]) -> bool
    requires { IsTree (tree_made fss.now nodes.now) }
    ensures { result ≡ roots_are_there (tree_made fss.now nodes.now) }
{
    let mut root = 0;
    'roots: for fs in fss {
        if !has_directory(nodes, root) {
            return false;
        }
        root += fs.inodes;
    }
    true
}

/// The names in object 0; none where it is not there.
fn root_links<'a>(nodes: &[Node<'a>]) -> Links<'a>
    requires { NumbersRise 0 (nodes_of nodes.now) }
    ensures { links_in result ≡ root_links (nodes_of nodes.now) }
{
    let Some(first) = nodes.first() else {
        return Links::none();
    };
    if first.number != 0 {
        return Links::none();
    }
    first.contents.links()
}

/// Whether the first inode of each further file system is named in object 0 by the file system's name.
fn roots_are_named(fss: &[FsSpec], nodes: &[Node<'_>]) -> bool
    requires { IsTree (tree_made fss.now nodes.now) }
    ensures { result ≡ roots_are_named (tree_made fss.now nodes.now) }
{
    let Some(first) = fss.first() else {
        return true;
    };
    let links = root_links(nodes);
    let further = &fss[1..];
    let mut root = first.inodes;
    'roots: for fs in further {
        if !has_link(&links, fs.name.as_bytes(), root) {
            return false;
        }
        root += fs.inodes;
    }
    true
}

/// Whether the files of each file system fit its blocks.
fn blocks_fit(fss: &[FsSpec], nodes: &[Node<'_>]) -> bool
    requires { IsTree (tree_made fss.now nodes.now) }
    ensures { result ≡ blocks_fit (tree_made fss.now nodes.now) }
{
    let mut taken = [0; 16];
    for node in nodes {
        taken[home(fss, node.number)] += blocks_for(node.contents.size());
    }
    for k in 0..fss.len() {
        if taken[k] > fss[k].blocks as usize {
            return false;
        }
    }
    true
}

/// Whether the names in each directory differ.
fn all_differ(alloc: Global, nodes: &[Node<'_>]) -> Result<bool, NoMemory>
    ensures { IfOk result (λ b. b ≡ list_all links_differ (nodes_of nodes.now)) }
{
    for node in nodes {
        if !differ(alloc, &node.contents.links())? {
            return Ok(false);
        }
    }
    Ok(true)
}

/// Whether names differ: they are sorted, and each is compared with the next.
fn differ(alloc: Global, links: &Links<'_>) -> Result<bool, NoMemory>
    ensures { IfOk result (λ b. b ≡ all_differ (map (λ l. l.0) (links_in links.now))) }
{
    let mut names = Vec::with_capacity(alloc, links.len())?;
    let mut rest = *links;
    'links: while let Some((link, more)) = rest.split_first() {
        push(&mut names, link.name)?;
        rest = more;
    }
    names.sort_unstable();
    for i in 1..names.len() {
        if names[i - 1] == names[i] {
            return Ok(false);
        }
    }
    Ok(true)
}

/// How often each object is named, where twice is as good as more.
fn counts(alloc: Global, nodes: &[Node<'_>]) -> Result<Vec<u8>, NoMemory>
    requires { NumbersRise 0 (nodes_of nodes.now) }
    ensures { IfOk result (λ counts. AreCounts (nodes_of nodes.now) (nodes_of nodes.now) counts.items) }
{
    let mut counts = vec![in alloc; 0; nodes.len()]?;
    for node in nodes {
        count_links(nodes, &node.contents.links(), &mut counts);
    }
    Ok(counts)
}

/// Counts what names give.
fn count_links(nodes: &[Node<'_>], links: &Links<'_>, counts: &mut [u8])
    requires rise { NumbersRise 0 (nodes_of nodes.now) }
    requires long { length counts.old ≡ length nodes.now }
    ensures { (i : ℕ) (x : NodeOf) → slice_get (nodes_of nodes.now) i ≡ Some x
        → min (slice_index counts.new i) 2 ≡ min (slice_index counts.old i + count_by (λ l. l.1 == x.number) (links_in links.now)) 2 }
{
    let mut rest = *links;
    'links: while let Some((link, more)) = rest.split_first() {
        if let Some(place) = place_of(nodes, link.object) {
            if counts[place] < 2 {
                counts[place] += 1;
            }
        }
        rest = more;
    }
}

/// Whether a file is named, or a directory is object 0, or named once and reached from there.
fn is_well_named(node: &Node<'_>, count: u8, is_reached: bool) -> bool
    ensures { result ≡ (if is_directory (node_of node.now) then node.now.number == 0 || count == 1 && is_reached else nat_lt 0 count) }
{
    if node.contents.is_dir() {
        node.number == 0 || count == 1 && is_reached
    } else {
        count > 0
    }
}

/// Whether each object is so.
fn are_well_named(nodes: &[Node<'_>], counts: &[u8], marks: &[bool]) -> bool
    requires counts { AreCounts (nodes_of nodes.now) (nodes_of nodes.now) counts.now }
    requires marks { AreMarks (nodes_of nodes.now) marks.now }
    ensures { result ≡ list_all (is_well_named (nodes_of nodes.now)) (nodes_of nodes.now) }
{
    for i in 0..nodes.len() {
        if !is_well_named(&nodes[i], counts[i], marks[i]) {
            return false;
        }
    }
    true
}
