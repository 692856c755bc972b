ghost use Rattle.std.specs.Prelude.{◌≡◌, IfNone, IfSome, false};
ghost use Rattle.ix_image.specs.{Image.{NumbersRise}, Fitting.{has_object, has_directory}, Meant.{IsAt, nodes_of}};

use crate::node::Node;

/// Where the object of a number stands among objects whose numbers rise.
pub fn place_of(nodes: &[Node<'_>], number: u32) -> Option<usize>
    requires { NumbersRise 0 (nodes_of nodes.now) }
    ensures none { IfNone result (has_object (nodes_of nodes.now) number ≡ false) }
    ensures some { IfSome result (λ i. IsAt (nodes_of nodes.now) i number) }
{
    match nodes.binary_search_by_key(&number, |node| node.number) {
        Ok(place) => Some(place),
        Err(_) => None,
    }
}

/// Whether an object of that number is there.
pub fn has_object(nodes: &[Node<'_>], number: u32) -> bool
    requires { NumbersRise 0 (nodes_of nodes.now) }
    ensures { result ≡ has_object (nodes_of nodes.now) number }
{
    match place_of(nodes, number) {
        Some(_) => true,
        None => false,
    }
}

/// Whether a directory of that number is there.
pub fn has_directory(nodes: &[Node<'_>], number: u32) -> bool
    requires { NumbersRise 0 (nodes_of nodes.now) }
    ensures { result ≡ has_directory (nodes_of nodes.now) number }
{
    match place_of(nodes, number) {
        Some(place) => {
            let node = &nodes[place];
            node.contents.is_dir()
        }
        None => false,
    }
}
