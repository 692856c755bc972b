//! Where names lead.
ghost use Rattle.std.specs.{Prelude.{◌≡◌, ◌≤◌, ◌==◌, ◌&&◌, ◌||◌, length}, List.{AllByRecursion, list_all, list_any}};
ghost use Rattle.ix_image.specs.{Trees.{further_roots, home}, Image.{IsFileSystem, IsTree, NumbersRise}, Fitting.{has_object, leads, links_lead, same_link}};
ghost use Rattle.ix_image.specs.Meant.{link_of, links_in, node_of, nodes_of, tree_made};

use crate::naming::{Link, Links};
use crate::node::Node;
use crate::places::has_object;
use crate::systems::home;
use ix_model::FsSpec;

/// Whether a name is this one and gives that object.
fn is_link(link: &Link<'_>, name: &[u8], object: u32) -> bool
    ensures { result ≡ same_link (name.now, object) (link_of link.now) }
{
    name == link.name && object == link.object
}

/// Whether one of the names is this one and gives that object.
pub fn has_link(links: &Links<'_>, name: &[u8], object: u32) -> bool
    ensures { result ≡ list_any (same_link (name.now, object)) (links_in links.now) }
{
    let mut rest = *links;
    'links: while let Some((link, more)) = rest.split_first() {
        if is_link(&link, name, object) {
            return true;
        }
        rest = more;
    }
    false
}

/// Whether a name is that of a further file system, and gives its first inode.
fn is_further_root(fss: &[FsSpec], link: &Link<'_>) -> bool
    requires few { length fss.now ≤ 16 }
    requires each { AllByRecursion IsFileSystem fss.now }
    ensures { result ≡ list_any (λ root. same_link root (link_of link.now)) (further_roots fss.now) }
{
    let Some(first) = fss.first() else {
        return false;
    };
    let further = &fss[1..];
    let mut root = first.inodes;
    'roots: for fs in further {
        if is_link(link, fs.name.as_bytes(), root) {
            return true;
        }
        root += fs.inodes;
    }
    false
}

/// Whether a name gives an object of the list in the file system of the object that has the name.
fn stays_inside(fss: &[FsSpec], nodes: &[Node<'_>], node: &Node<'_>, link: &Link<'_>) -> bool
    requires { NumbersRise 0 (nodes_of nodes.now) }
    ensures { result ≡ (has_object (nodes_of nodes.now) link.now.object && home fss.now link.now.object == home fss.now node.now.number) }
{
    has_object(nodes, link.object) && home(fss, link.object) == home(fss, node.number)
}

/// Whether a name in an object leads where it may.
fn leads(fss: &[FsSpec], nodes: &[Node<'_>], node: &Node<'_>, link: &Link<'_>) -> bool
    requires { IsTree (tree_made fss.now nodes.now) }
    ensures { result ≡ leads (tree_made fss.now nodes.now) (node_of node.now) (link_of link.now) }
{
    stays_inside(fss, nodes, node, link) || node.number == 0 && is_further_root(fss, link)
}

/// Whether all names in an object do.
fn all_lead(fss: &[FsSpec], nodes: &[Node<'_>], node: &Node<'_>) -> bool
    requires { IsTree (tree_made fss.now nodes.now) }
    ensures { result ≡ links_lead (tree_made fss.now nodes.now) (node_of node.now) }
{
    let mut rest = node.contents.links();
    'links: while let Some((link, more)) = rest.split_first() {
        if !leads(fss, nodes, node, &link) {
            return false;
        }
        rest = more;
    }
    true
}

/// Whether the names in all objects do.
pub fn links_lead(fss: &[FsSpec], nodes: &[Node<'_>]) -> bool
    requires { IsTree (tree_made fss.now nodes.now) }
    ensures { result ≡ list_all (links_lead (tree_made fss.now nodes.now)) (nodes_of nodes.now) }
{
    for node in nodes {
        if !all_lead(fss, nodes, node) {
            return false;
        }
    }
    true
}
