ghost use Rattle.std.specs.Prelude.{◌≡◌, ◌<◌, ◌==◌, [], length, nat_lt, is_some, not, IfSome, IsTrue, None, Some, true, false, slice_get, slice_set};
ghost use Rattle.std.{proofs.Common.{option_map}, specs.Option.{option_map_or}};
ghost use Rattle.ix_model.specs.{rows.{Lifetimes.{stays}, OnPaths.{new_object}, Walks.{node, child}}, world.Numbers.{first_pipe}, world.NameRefs.{name_of}};
ghost use Rattle.ix_model.specs.{world.World.{at, put, change, is_dir, is_file, held}, world.Directories.{IsBehind, with_name, without_name}};
ghost use Rattle.ix_model.specs.{world.Contents.{holds_nothing}, world.Owners.{names_in_all, times_named}};
ghost use Rattle.ix_inode.specs.Shown.{kind_of};
ghost use Rattle.ix_name.specs.Directories.{names_of, under, with_more};
ghost use Rattle.ix_tables.specs.Views.{vacant_inode, frame_alone, object_let_go};

use crate::tables::Tables;
use ix_model::{Kind, Name, NameRef, Obj};
use ix_name::Names;

/// Names of directories, and the files and directories that come and go by them.
impl Tables {
    /// The object that a directory has under a name; `None` exactly where it has none.
    pub fn child(&self, dir: u32, name: &NameRef<'_>) -> Option<u32>
        requires { is_dir (node self.now.objects dir) ≡ true }
        ensures { result ≡ child (node self.now.objects dir) (name_of name.now) }
    {
        match self.names.find(Obj(dir), name) {
            Some(obj) => Some(obj.0),
            None => None,
        }
    }

    /// The name at an index, from 0, of a directory's order of making, with the number of its object; `None` exactly past the
    /// last. It costs a step for each name before it.
    pub fn name_at(&self, dir: u32, index: u32) -> Option<(Name, u32)>
        requires { is_dir (node self.now.objects dir) ≡ true }
        ensures { result ≡ slice_get (node self.now.objects dir).names index }
    {
        match self.names.at(Obj(dir), index) {
            Some((name, obj)) => Some((name, obj.0)),
            None => None,
        }
    }

    /// The name behind one that a directory has, in its order of making, with the number of its object; `None` behind the last.
    /// It costs no walk.
    pub fn name_after(&self, dir: u32, name: &NameRef<'_>) -> Option<(Name, u32)>
        requires { is_dir (node self.now.objects dir) ≡ true }
        ensures { IsBehind (node self.now.objects dir).names (name_of name.now) result }
    {
        match self.names.after(Obj(dir), name) {
            Some((name, obj)) => Some((name, obj.0)),
            None => None,
        }
    }

    /// How many names a directory has. Constant time.
    pub fn count_names(&self, dir: u32) -> u32
        requires { is_dir (node self.now.objects dir) ≡ true }
        ensures { result ≡ length (node self.now.objects dir).names }
    {
        self.names.count(Obj(dir))
    }

    /// Whether a directory has no names. Constant time.
    pub fn is_bare(&self, dir: u32) -> bool
        requires { is_dir (node self.now.objects dir) ≡ true }
        ensures { result ≡ (length (node self.now.objects dir).names == 0) }
    {
        self.count_names(dir) == 0
    }

    /// Whether one name more is within the limit.
    pub fn has_room_for_a_name(&self) -> bool
        ensures { result ≡ nat_lt (names_in_all self.now.objects) self.now.limits.names }
    {
        self.names.free() > 0
    }

    /// The lowest free inode of a file system; `None` exactly where it has none.
    pub fn vacant_inode(&self, fs: u32) -> Option<u32>
        requires { fs < length self.now.fss }
        ensures vacant { result ≡ vacant_inode self.now.fss self.now.objects fs }
        ensures free { IfSome result (λ o. at self.now.objects o ≡ None) }
        ensures within { IfSome result (λ o. o < length self.now.objects) }
    {
        match self.inodes.vacant(fs) {
            Some(obj) => Some(obj.0),
            None => None,
        }
    }

    /// A new file or directory, under the lowest free number of a file system and a name that a directory hasn't.
    pub fn make(&mut self, dir: u32, name: Name, n: u32, fs: u32, kind: Kind)
        requires dir { is_dir (node self.old.objects dir) ≡ true }
        requires absent { child (node self.old.objects dir) name ≡ None }
        requires room { nat_lt (names_in_all self.old.objects) self.old.limits.names ≡ true }
        requires fs { fs < length self.old.fss }
        requires vacant { vacant_inode self.old.fss self.old.objects fs ≡ Some n }
        requires kind { kind_of (is_dir (new_object kind None)) ≡ kind }
        ensures { self.new ≡ record self.old { objects = change (put self.old.objects n (Some (new_object kind (Some fs)))) dir (with_name name n); holdings = slice_set self.old.holdings n holds_nothing } }
    {
        self.inodes.make(fs, kind);
        enter(&mut self.names, dir, name, n);
        self.inodes.set_links(Obj(n), 1);
    }

    /// One name more for a file, in a directory that hasn't it.
    pub fn link(&mut self, dir: u32, name: Name, n: u32)
        requires dir { is_dir (node self.old.objects dir) ≡ true }
        requires absent { child (node self.old.objects dir) name ≡ None }
        requires room { nat_lt (names_in_all self.old.objects) self.old.limits.names ≡ true }
        requires file { option_map_or is_file (at self.old.objects n) false ≡ true }
        ensures { self.new ≡ record self.old { objects = change self.old.objects dir (with_name name n) } }
    {
        enter(&mut self.names, dir, name, n);
        if let Some(inode) = self.inodes.get(Obj(n)) {
            self.inodes.set_links(Obj(n), inode.links + 1);
        }
    }

    /// One name of a file fewer; it asks that the directory has it for this file. The file stays, even without a name:
    /// [`let_go_object`](Tables::let_go_object) looks whether it goes.
    pub fn unlink(&mut self, dir: u32, name: &NameRef<'_>, n: u32)
        requires dir { is_dir (node self.old.objects dir) ≡ true }
        requires child { child (node self.old.objects dir) (name_of name.now) ≡ Some n }
        requires file { is_file (node self.old.objects n) ≡ true }
        ensures { self.new ≡ record self.old { objects = change self.old.objects dir (without_name (name_of name.now)) } }
    {
        self.names.lemma_names_differ(Obj(dir));
        self.names.remove(Obj(dir), name);
        if let Some(inode) = self.inodes.get(Obj(n)) {
            self.inodes.set_links(Obj(n), inode.links - 1);
        }
    }

    /// An empty directory goes, and with it its name in its parent; it asks that the first is empty, and that the parent has
    /// it under that name. Its number is free from then on.
    pub fn remove_dir(&mut self, dir: u32, name: &NameRef<'_>, n: u32)
        requires dir { is_dir (node self.old.objects dir) ≡ true }
        requires child { child (node self.old.objects dir) (name_of name.now) ≡ Some n }
        requires bare { (node self.old.objects n).names ≡ [] }
        requires is_dir { is_dir (node self.old.objects n) ≡ true }
        ensures { self.new ≡ record self.old { objects = put (change self.old.objects dir (without_name (name_of name.now))) n None; holdings = slice_set self.old.holdings n holds_nothing } }
    {
        self.names.lemma_names_differ(Obj(dir));
        self.names.remove(Obj(dir), name);
        self.inodes.free(Obj(n));
    }

    /// A file without a name and an open entry goes, with its bytes, or a pipe without an open entry; anything else stays.
    pub fn let_go_object(&mut self, n: u32)
        ensures { self.new ≡ object_let_go n self.old }
    {
        if n >= self.first_pipe {
            self.let_go_pipe(n);
        } else if self.is_idle(n) {
            self.inodes.free(Obj(n));
        }
    }

    /// Whether a file is there without a name and an open entry, among the inodes.
    fn is_idle(&self, n: u32) -> bool
        requires { n < first_pipe self.now.fss }
        ensures { result ≡ option_map_or (λ x. not (stays (frame_alone self.now) n x)) (at self.now.objects n) false }
    {
        match self.inodes.get(Obj(n)) {
            Some(inode) => match inode.kind {
                Kind::File => inode.links == 0 && !self.opens.held(Obj(n), 0),
                _ => false,
            },
            None => false,
        }
    }
}

/// A name more in a directory that hasn't it, at the end. An entry has to be free.
pub(crate) fn enter(names: &mut Names, dir: u32, name: Name, n: u32)
    requires dir { dir < length names.old.lists }
    requires absent { under name (names_of names.old dir) ≡ None }
    requires room { nat_lt 0 names.old.free ≡ true }
    ensures { names.new ≡ with_more dir name n names.old }
{
    match names.add(Obj(dir), name, Obj(n)) {
        Ok(()) => (),
        Err(_) => unreachable!(),
    }
}
