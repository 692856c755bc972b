ghost use Rattle.std.specs.{Prelude.{◌≡◌, ◌<◌, OnErr, Some, None, length, nat_lt, slice_set, true, false}, Option.{option_map_or}};
ghost use Rattle.ix_model.specs.{laws.Sound.{Sound}, rows.{OnPaths.{link_at, make, new_object}, Outcomes.{RowIs}, Walks.{node, child, nothing}}};
ghost use Rattle.ix_model.specs.{world.Naming.{last_name}, world.Numbers.{fs_number}, world.Contents.{holds_nothing}, world.Directories.{with_name}};
ghost use Rattle.ix_model.specs.{world.Owners.{names_in_all}, world.World.{at, change, put, is_dir, is_file, is_pipe}, world.NameRefs.{name_of}};
ghost use Rattle.ix_model.specs.world.Paths.{path_of};
ghost use Rattle.ix_tables.specs.Views.{object_by, vacant_inode};
ghost use Rattle.ix_fcalls.specs.{Around.{frame_of, world_of}, Counted.{IsCounted, Keeps}};

use crate::caller_in::{CallerIn, Others};
use crate::files::Files;
use ix_label::{Label, Steps};
use ix_model::{Kind, NameRef, Path, Refusal, Reply};
use ix_tables::ObjectRow;
use std::sync::ledger::Ledger;

/// New names: those of new files and directories, and more of a file.
impl Files {
    /// CreateAt and MakeDir: a new file or directory under a name that is missing, on the file system of its directory. A
    /// refusal may have raised the caller's label.
    #[tactic(auto, unfolding(ix_model::specs::rows::Rows::coding, ix_model::specs::rows::OnPaths::make, ix_model::specs::world::Numbers::free_inode, ix_model::specs::world::Directories::has_room_for_a_name))]
    pub(crate) fn make<R: Others, L: Ledger>(
        &mut self,
        who: &mut CallerIn<R>,
        path: &Path<'_>,
        kind: Kind,
        steps: &mut Steps<L>,
    ) -> Result<Reply, Refusal>
        requires kind { is_pipe (new_object kind None) ≡ false }
        requires sound { Sound (world_of R.rest self.old who.old) }
        requires counted { IsCounted self.old who.old }
        ensures row { RowIs result (frame_of R.rest self.new who.new) (make R.rest.pid (path_of path.now) kind (frame_of R.rest self.old who.old)) }
        ensures counted { IsCounted self.new who.new }
        ensures back { OnErr result (self.new ≡ self.old) }
        ensures kept { Keeps self.old self.new }
    {
        let dir = self.missing(who, path, steps)?;
        let Some(x) = self.tables.object(dir) else {
            return Err(Refusal::BadFd);
        };
        let fs = fs_number(&x);
        let Some(n) = self.tables.vacant_inode(fs) else {
            return Err(Refusal::NoInode);
        };
        if !self.tables.has_room_for_a_name() {
            return Err(Refusal::NoEntry);
        }
        self.affect(who, dir, &Label::bottom(), steps)?;
        self.put_named(dir, &last_name(path), n, fs, kind);
        Ok(Reply::Number(n as u64))
    }

    /// LinkAt: one name more for a file, on its file system; the directories of both walks are looked into first. A
    /// refusal may have raised the caller's label.
    #[tactic(auto, unfolding(ix_model::specs::rows::Rows::coding, ix_model::specs::rows::OnPaths::link_at, ix_model::specs::world::Directories::has_room_for_a_name))]
    pub(crate) fn link_at<R: Others, L: Ledger>(
        &mut self,
        who: &mut CallerIn<R>,
        target: &Path<'_>,
        path: &Path<'_>,
        steps: &mut Steps<L>,
    ) -> Result<Reply, Refusal>
        requires sound { Sound (world_of R.rest self.old who.old) }
        requires counted { IsCounted self.old who.old }
        ensures row { RowIs result (frame_of R.rest self.new who.new) (link_at R.rest.pid (path_of target.now) (path_of path.now) (frame_of R.rest self.old who.old)) }
        ensures counted { IsCounted self.new who.new }
        ensures back { OnErr result (self.new ≡ self.old) }
        ensures kept { Keeps self.old self.new }
    {
        let led = self.walked_to(who, target, steps)?;
        let last = self.walked_to(who, path, steps)?;
        let object = self.found_object(who, led)?;
        let Some(x) = self.tables.object(object) else {
            return Err(Refusal::BadFd);
        };
        if let Kind::Dir = x.kind {
            return Err(Refusal::IsDir);
        }
        let dir = self.vacant(who, last)?;
        let Some(y) = self.tables.object(dir) else {
            return Err(Refusal::BadFd);
        };
        if fs_number(&x) != fs_number(&y) {
            return Err(Refusal::CrossFs);
        }
        if !self.tables.has_room_for_a_name() {
            return Err(Refusal::NoEntry);
        }
        self.affect(who, dir, &Label::bottom(), steps)?;
        self.add_name(dir, &last_name(path), object);
        Ok(Reply::Done)
    }

    /// One name more for a file, in a directory that hasn't it.
    fn add_name(&mut self, dir: u32, name: &NameRef<'_>, n: u32)
        requires dir { is_dir (node self.old.objects dir) ≡ true }
        requires absent { child (node self.old.objects dir) (name_of name.now) ≡ None }
        requires room { nat_lt (names_in_all self.old.objects) self.old.limits.names ≡ true }
        requires file { option_map_or is_file (at self.old.objects n) false ≡ true }
        ensures { self.new ≡ record self.old { objects = change self.old.objects dir (with_name (name_of name.now) n) } }
    {
        self.tables.link(dir, name.to_name(), n);
    }

    /// A new file or directory under the lowest free number of a file system, and a name that a directory hasn't.
    fn put_named(&mut self, dir: u32, name: &NameRef<'_>, n: u32, fs: u32, kind: Kind)
        requires dir { is_dir (node self.old.objects dir) ≡ true }
        requires absent { child (node self.old.objects dir) (name_of name.now) ≡ None }
        requires room { nat_lt (names_in_all self.old.objects) self.old.limits.names ≡ true }
        requires fs { fs < length self.old.fss }
        requires vacant { vacant_inode self.old.fss self.old.objects fs ≡ Some n }
        requires kind { is_pipe (new_object kind None) ≡ false }
        ensures { self.new ≡ record self.old { objects = change (put self.old.objects n (Some (new_object kind (Some fs)))) dir (with_name (name_of name.now) n); holdings = slice_set self.old.holdings n holds_nothing } }
    {
        match kind {
            Kind::File => self.tables.make(dir, name.to_name(), n, fs, Kind::File),
            Kind::Dir => self.tables.make(dir, name.to_name(), n, fs, Kind::Dir),
            Kind::Pipe => unreachable!(),
        }
    }
}

/// The number of the file system on which an object lies; 0 where it lies on none.
pub(crate) fn fs_number(x: &ObjectRow) -> u32
    ensures { result ≡ fs_number (object_by nothing x.now) }
{
    match x.fs {
        Some(fs) => fs,
        None => 0,
    }
}

/// The last name of a path that has one.
pub(crate) fn last_name<'a>(path: &Path<'a>) -> NameRef<'a>
    requires { 0 < length (path_of path.now).names }
    ensures { name_of result ≡ last_name (path_of path.now).names }
{
    match path.last_name() {
        Some(name) => name,
        None => unreachable!(),
    }
}
