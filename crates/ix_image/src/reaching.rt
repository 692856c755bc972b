//! Which directories are reached from object 0.
ghost use Rattle.std.specs.Prelude.{◌≡◌, ◌∷◌, [], length, map, IfOk, OnOk};
ghost use Rattle.ix_image.specs.{Image.{NumbersRise}, Found.{Finds}, Meant.{AreMarks, links_in, nodes_of}};

use crate::memory::push;
use crate::naming::Links;
use crate::node::Node;
use crate::places::place_of;
use ix_model::NoMemory;
use std::alloc::Global;

/// The directories that were found, by their places among the objects.
#[derive(Drop)]
struct Found {
    /// Whether each object was found.
    marks: Vec<bool>,
    /// Those that were, in order.
    places: Vec<usize>,
}

impl Found {
    /// Finds the object of a number, where it is a directory and wasn't found before.
    fn find(&mut self, nodes: &[Node<'_>], number: u32) -> Result<(), NoMemory>
        requires rise { NumbersRise 0 (nodes_of nodes.now) }
        requires long { length self.old.marks.items ≡ length nodes.now }
        ensures { OnOk result (Finds (nodes_of nodes.now) (number ∷ []) self.old.marks.items self.old.places.items self.new.marks.items self.new.places.items) }
    {
        let Some(place) = place_of(nodes, number) else {
            return Ok(());
        };
        let node = &nodes[place];
        if self.marks[place] || !node.contents.is_dir() {
            return Ok(());
        }
        push(&mut self.places, place)?;
        self.marks[place] = true;
        Ok(())
    }

    /// Finds the directories that names give.
    fn follow(&mut self, nodes: &[Node<'_>], links: &Links<'_>) -> Result<(), NoMemory>
        requires rise { NumbersRise 0 (nodes_of nodes.now) }
        requires long { length self.old.marks.items ≡ length nodes.now }
        ensures { OnOk result (Finds (nodes_of nodes.now) (map (λ l. l.1) (links_in links.now)) self.old.marks.items self.old.places.items self.new.marks.items self.new.places.items) }
    {
        let mut rest = *links;
        'links: while let Some((link, more)) = rest.split_first() {
            self.find(nodes, link.object)?;
            rest = more;
        }
        Ok(())
    }
}

/// Which directories are reached from object 0: each that is found is looked into, in its turn.
pub fn reached(alloc: Global, nodes: &[Node<'_>]) -> Result<Vec<bool>, NoMemory>
    requires { NumbersRise 0 (nodes_of nodes.now) }
    ensures { IfOk result (λ marks. AreMarks (nodes_of nodes.now) marks.items) }
{
    let marks = vec![in alloc; false; nodes.len()]?;
    let mut found = Found {
        marks,
        places: Vec::new(alloc),
    };
    found.find(nodes, 0)?;
    let mut at = 0;
    'found: while at < found.places.len() {
        let node = &nodes[found.places[at]];
        found.follow(nodes, &node.contents.links())?;
        at += 1;
    }
    Ok(found.marks)
}
