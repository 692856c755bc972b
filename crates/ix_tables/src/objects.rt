ghost use Rattle.std.specs.Prelude.{◌≡◌, ◌+◌, ◌<◌, ◌==◌, ◌^◌, length, is_some, IfSome, IsTrue, Some, true, false, if◌then◌else◌};
ghost use Rattle.std.specs.Option.{option_map_or};
ghost use Rattle.ix_label.specs.Category.{leq};
ghost use Rattle.ix_model.specs.world.{World.{at, change, ceiling_of, is_dir, is_pipe}, Numbers.{first_inode, first_pipe}};
ghost use Rattle.ix_model.specs.rows.{OnPaths.{links_of}, Walks.{node}};
ghost use Rattle.ix_inode.specs.Shown.{is_dir_kind};
ghost use Rattle.ix_tables.specs.Views.{Shows, frame_alone, object_by};

use crate::row::ObjectRow;
use crate::tables::Tables;
use bitflags::Flags;
use ix_inode::Inode;
use ix_label::Label;
use ix_model::{Floating, Kind, Obj, PrivSet};

/// What is told of objects, and the settings that a call may change.
impl Tables {
    /// What is told of the object of a number; `None` exactly where nothing stands there.
    pub fn object(&self, n: u32) -> Option<ObjectRow>
        ensures object { Shows self.now.objects n result }
        ensures ceiling { IfSome result (λ x. x.float.ceiling ≡ ceiling_of self.now.fss (object_by (node self.now.objects n) x)) }
        ensures links { IfSome result (λ x. x.links ≡ links_of (frame_alone self.now) n (object_by (node self.now.objects n) x)) }
        ensures within { IfSome result (λ x. n < length self.now.objects) }
    {
        if n >= self.first_pipe {
            return self.pipe(n - self.first_pipe);
        }
        let inode = self.inodes.get(Obj(n))?;
        Some(ObjectRow {
            kind: inode.kind,
            fs: Some(inode.fs),
            float: inode.float,
            cap: inode.cap,
            lic: inode.lic,
            links: links_told(&inode),
            size: inode.size,
        })
    }

    /// Whether a directory is there.
    pub fn is_dir(&self, n: u32) -> bool
        ensures dir { result ≡ is_dir (node self.now.objects n) }
        ensures within { result ≡ true → n < length self.now.objects }
    {
        self.directory(n).is_some()
    }

    /// The label of a directory; `None` exactly where none is there.
    pub fn directory(&self, n: u32) -> Option<&Label>
        ensures dir { is_some result ≡ is_dir (node self.now.objects n) }
        ensures label { IfSome result (λ l. l.now ≡ (node self.now.objects n).label) }
        ensures within { is_some result ≡ true → n < length self.now.objects }
    {
        let inode = self.inodes.kept(Obj(n))?;
        if !inode.dir {
            return None;
        }
        Some(&inode.label)
    }

    /// Whether a pipe is there. It takes one step, and looks no inode up.
    pub fn is_pipe(&self, n: u32) -> bool
        ensures { result ≡ option_map_or is_pipe (at self.now.objects n) false }
    {
        if n < self.first_pipe {
            return false;
        }
        self.pipes.lives(n - self.first_pipe)
    }

    /// The label of an object, bottom where there is none.
    pub fn label_of(&self, n: u32) -> Label
        ensures { result ≡ (node self.now.objects n).label }
    {
        if n >= self.first_pipe {
            return self.pipe_label(n - self.first_pipe);
        }
        match self.inodes.kept(Obj(n)) {
            Some(inode) => inode.label,
            None => Label::bottom(),
        }
    }

    /// Whether a number is that of the root of a file system, of which 0 is the first.
    pub fn is_root(&self, n: u32, fs: u32) -> bool
        requires { fs < length self.now.fss }
        ensures { result ≡ (n == first_inode self.now.fss fs) }
    {
        Obj(n) == self.inodes.root(fs)
    }

    /// Sets the label of an object, to one at or below its ceiling.
    pub fn set_label(&mut self, n: u32, label: Label)
        requires lives { IsTrue (is_some (at self.old.objects n)) }
        requires below { IsTrue (leq label (ceiling_of self.old.fss (node self.old.objects n))) }
        ensures { self.new ≡ record self.old { objects = change self.old.objects n (λ x. record x { label = label }) } }
    {
        if n >= self.first_pipe {
            self.pipes.set_label(n - self.first_pipe, label);
        } else {
            self.inodes.set_label(Obj(n), label);
        }
    }

    /// Freezes the label of a file or a directory, or lets it float again. It asks that it is no pipe, whose label always
    /// floats.
    pub fn set_frozen(&mut self, n: u32, on: bool)
        requires lives { IsTrue (is_some (at self.old.objects n)) }
        requires inode { is_pipe (node self.old.objects n) ≡ false }
        ensures { self.new ≡ record self.old { objects = change self.old.objects n (λ x. record x { frozen = on }) } }
    {
        self.inodes.set_frozen(Obj(n), on);
    }

    /// Sets the capabilities and the licences that a file or a directory carries. It asks that it is no pipe, which carries
    /// none.
    pub fn set_privs(&mut self, n: u32, cap: PrivSet, lic: PrivSet)
        requires lives { IsTrue (is_some (at self.old.objects n)) }
        requires inode { is_pipe (node self.old.objects n) ≡ false }
        ensures { self.new ≡ record self.old { objects = change self.old.objects n (λ x. record x { cap = cap; lic = lic }) } }
    {
        self.inodes.set_privs(Obj(n), cap, lic);
    }

    /// The label of a pipe, by its number among the pipes; bottom where there is none.
    fn pipe_label(&self, pipe: u32) -> Label
        ensures { result ≡ (node self.now.objects (first_pipe self.now.fss + pipe)).label }
    {
        if !self.pipes.lives(pipe) {
            return Label::bottom();
        }
        self.pipes.label(pipe)
    }

    /// What is told of a pipe, by its number among the pipes.
    fn pipe(&self, pipe: u32) -> Option<ObjectRow>
        ensures pipe { Shows self.now.objects (first_pipe self.now.fss + pipe) result }
        ensures ceiling { IfSome result (λ x. x.float.ceiling ≡ ceiling_of self.now.fss (object_by (node self.now.objects (first_pipe self.now.fss + pipe)) x)) }
        ensures links { IfSome result (λ x. x.links ≡ links_of (frame_alone self.now) (first_pipe self.now.fss + pipe) (object_by (node self.now.objects (first_pipe self.now.fss + pipe)) x)) }
    {
        if !self.pipes.lives(pipe) {
            return None;
        }
        Some(ObjectRow {
            kind: Kind::Pipe,
            fs: None,
            float: Floating {
                label: self.pipes.label(pipe),
                ceiling: Label::top(),
                frozen: false,
            },
            cap: PrivSet::empty(),
            lic: PrivSet::empty(),
            links: 0,
            size: 0,
        })
    }
}

/// How many names an inode is told to have: one where it is a directory.
fn links_told(inode: &Inode) -> u32
    ensures { result ≡ (if is_dir_kind inode.now.kind then 1 else inode.now.links) }
{
    match inode.kind {
        Kind::Dir => 1,
        Kind::File => inode.links,
        Kind::Pipe => inode.links,
    }
}
