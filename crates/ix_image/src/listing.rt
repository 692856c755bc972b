ghost use Rattle.std.specs.Prelude.{◌≡◌, ◌<◌, ◌++◌, [], true, false, OnOk, OnErr};
ghost use Rattle.ix_image.specs.{Lines.{list_of}, Telling.{Tells, left_of, pieces_of}};
ghost use Rattle.ix_image.specs.declared.telling.Next.TheVariants as next;

use crate::lines::{end_line, file_system_line, link_line, node_line};
use crate::naming::Links;
use crate::telling::{Listing, Next};
use crate::tree::Tree;
use ix_model::NoMemory;

impl<'t> Listing<'t> {
    /// The list of a tree, of which nothing was told.
    pub fn new(tree: &'t Tree<'t>) -> Listing<'t>
        ensures { left_of result ≡ list_of tree.now }
    {
        Listing {
            tree,
            names: tree.names(),
            next: Next::FileSystem(0),
        }
    }

    /// Whether all was told.
    #[tactic(auto, unfolding(crate::specs::Telling::left_of, crate::specs::Telling::pieces_of))]
    pub fn is_told(&self) -> bool
        ensures told { result ≡ true → left_of self.now ≡ [] }
        ensures going { result ≡ false → 0 < pieces_of self.now }
    {
        match self.next {
            Next::FileSystem(_) => false,
            Next::Object(_) => false,
            Next::Name(_, _, _) => false,
            Next::End => true,
        }
    }

    /// Tells the next line, or nothing. After `NoMemory` nothing was told.
    pub fn tell(&mut self, out: &mut Vec<u8>) -> Result<(), NoMemory>
        requires { 0 < pieces_of self.old }
        ensures ok { OnOk result (Tells self.old self.new out.old.items out.new.items) }
        ensures err { OnErr result (out.new.items ≡ out.old.items) }
    {
        match self.next {
            Next::FileSystem(k) => self.tell_file_system(out, k),
            Next::Object(i) => self.tell_object(out, i),
            Next::Name(dir, links, i) => self.tell_name(out, dir, &links, i),
            Next::End => Ok(()),
        }
    }

    /// Tells the file system at an index, or nothing behind the last.
    fn tell_file_system(&mut self, out: &mut Vec<u8>, k: usize) -> Result<(), NoMemory>
        requires { self.old.next ≡ next.FileSystem k }
        ensures ok { OnOk result (Tells self.old self.new out.old.items out.new.items) }
        ensures err { OnErr result (out.new.items ≡ out.old.items) }
    {
        let tree = self.tree;
        let Some(fs) = tree.fss.get(k) else {
            self.next = Next::Object(0);
            return Ok(());
        };
        file_system_line(out, fs)?;
        self.next = Next::FileSystem(k + 1);
        Ok(())
    }

    /// Tells the object at an index, or the last line behind the last.
    fn tell_object(&mut self, out: &mut Vec<u8>, i: usize) -> Result<(), NoMemory>
        requires { self.old.next ≡ next.Object i }
        ensures ok { OnOk result (Tells self.old self.new out.old.items out.new.items) }
        ensures err { OnErr result (out.new.items ≡ out.old.items) }
    {
        let tree = self.tree;
        let Some(node) = tree.nodes.get(i) else {
            end_line(out, tree.nodes.len() as u64, self.names)?;
            self.next = Next::End;
            return Ok(());
        };
        node_line(out, node)?;
        self.next = Next::Name(node.number, node.contents.links(), i + 1);
        Ok(())
    }

    /// Tells the first of these names of the object of a number, or nothing behind the last, before the object at an index.
    fn tell_name(
        &mut self,
        out: &mut Vec<u8>,
        dir: u32,
        links: &Links<'t>,
        i: usize,
    ) -> Result<(), NoMemory>
        requires { self.old.next ≡ next.Name dir links.now i }
        ensures ok { OnOk result (Tells self.old self.new out.old.items out.new.items) }
        ensures err { OnErr result (out.new.items ≡ out.old.items) }
    {
        let Some((link, more)) = links.split_first() else {
            self.next = Next::Object(i);
            return Ok(());
        };
        link_line(out, dir, &link)?;
        self.next = Next::Name(dir, more, i);
        Ok(())
    }
}

/// Appends the list of a tree: a line for each file system, for each object, and behind a directory's for each of its names,
/// and one at the end. After `NoMemory` the bytes are as they were.
pub fn list(tree: &Tree<'_>, out: &mut Vec<u8>) -> Result<(), NoMemory>
    ensures ok { OnOk result (out.new.items ≡ out.old.items ++ list_of tree.now) }
    ensures err { OnErr result (out.new.items ≡ out.old.items) }
{
    let len = out.len();
    let mut listing = Listing::new(tree);
    'lines: while !listing.is_told() {
        if listing.tell(out).is_err() {
            out.truncate(len);
            return Err(NoMemory);
        }
    }
    Ok(())
}
