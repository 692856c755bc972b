//! The list of the tree of files that bytes are the image of.
ghost use Rattle.std.specs.Prelude.{◌≡◌};
ghost use Rattle.ix_image.specs.{Laws.{IsImage}, Lines.{list_of}, Reading.{image_fault, tree_in}};
ghost use Rattle.ix_host.specs.run.{Outcome.{listed, unless_faulty}, Run.{Ends}};
ghost use Rattle.ix_host.specs.run.Outcome as outcome;

use crate::refusing::refuse_image;
use crate::status::Status;
use crate::streams::outlet::{finish, room, write_full};
use ix_image::{Listing, ReadImage, Tree, read};
use ix_io::Sink;
use std::alloc::Global;

/// Writes the list of a tree, line by line.
fn tell_list<K: Sink>(alloc: Global, sink: &mut K, tree: &Tree<'_>) -> Status
    ensures { Ends (outcome.Whole (list_of tree.now)) result (K.taken sink.old) (K.taken sink.new)
        (K.finished sink.new) (K.faults sink.old) (K.faults sink.new) }
{
    let Ok(mut waiting) = room(alloc) else {
        return Status::NoMemory;
    };
    let mut listing = Listing::new(tree);
    'lines: while !listing.is_told() {
        if listing.tell(&mut waiting).is_err() {
            return Status::NoMemory;
        }
        let failure = write_full(sink, &mut waiting);
        if failure.is_some() {
            return finish(sink, waiting.as_slice(), failure);
        }
    }
    finish(sink, waiting.as_slice(), None)
}

/// Reads the tree that bytes are the image of, and writes its list; or the first rule that they break.
pub fn load<K: Sink>(alloc: Global, sink: &mut K, bytes: &[u8]) -> Status
    ensures ends { Ends (unless_faulty (image_fault bytes.now) (listed (tree_in bytes.now))) result (K.taken sink.old) (K.taken sink.new)
        (K.finished sink.new) (K.faults sink.old) (K.faults sink.new) }
    ensures image { result ≡ Status.Done → IsImage bytes.now }
{
    match read(alloc, bytes) {
        Ok(tree) => tell_list(alloc, sink, &tree),
        Err(ReadImage::Fault { at, rule }) => refuse_image(alloc, sink, at, rule),
        Err(ReadImage::NoMemory) => Status::NoMemory,
    }
}
