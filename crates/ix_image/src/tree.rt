use crate::node::Node;
use ix_model::FsSpec;
use std::marker::Model;

/// A tree of files that was read from an image, which it borrows: its file systems, and its directories and named files by
/// rising number. It meets all rules of images.
#[derive(Drop)]
pub struct Tree<'a> {
    pub(crate) fss: Vec<FsSpec>,
    pub(crate) nodes: Vec<Node<'a>>,
}

impl<'a> Model for Tree<'a> {
    ghost use Rattle.std.specs.Coded.{codes};
    ghost use Rattle.ix_label.specs.contracts.label.Label as label_type;
    ghost use Rattle.ix_image.specs.{Trees.{TreeOf}, Image.{IsSound}, Meant.{tree_made}};

    ghost Value = { TreeOf };

    ghost coded = { Prim.hlevel (codes, label_type.the_row.coded) };

    ghost view = { λ t. tree_made t.fss.items t.nodes.items };

    ghost invariant = { λ t. IsSound (tree_made t.fss.items t.nodes.items) };
}

impl Tree<'_> {
    ghost use Rattle.std.specs.Prelude.{◌≡◌};
    ghost use Rattle.ix_image.specs.Lines.{names_in};

    /// How many names its directories have in all.
    pub(crate) fn names(&self) -> u64
        ensures { result ≡ names_in self.now.nodes }
    {
        let mut all = 0;
        for node in &self.nodes {
            all += node.contents.links().len() as u64;
        }
        all
    }
}
