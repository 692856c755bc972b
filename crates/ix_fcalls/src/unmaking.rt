ghost use Rattle.std.specs.{Prelude.{◌≡◌, ◌<◌, [], OnErr, OnOk, Some, None, length, slice_set, true}, List.{list_any}};
ghost use Rattle.ix_model.specs.{laws.Sound.{Sound}, rows.{OnPaths.{is_home, unlink_at, remove_dir}, Outcomes.{RowIs}, Walks.{node, child}}};
ghost use Rattle.ix_model.specs.{world.Contents.{carried, holds_nothing}, world.Directories.{without_name}, world.World.{change, put, is_dir, is_file}};
ghost use Rattle.ix_model.specs.{world.NameRefs.{name_of}, world.Paths.{path_of}};
ghost use Rattle.ix_tables.specs.Views.{object_let_go};
ghost use Rattle.ix_fcalls.specs.{Around.{frame_of, world_of}, Counted.{IsCounted}};

use crate::caller_in::{CallerIn, Others};
use crate::files::Files;
use crate::making::{fs_number, last_name};
use ix_label::{Label, Steps};
use ix_model::{Kind, NameRef, Path, Refusal, Reply};
use std::sync::ledger::Ledger;

/// Names that go, and what goes with them.
impl Files {
    /// UnlinkAt: one name of a file fewer; without a name and an open entry the file is gone. A refusal may have raised
    /// the caller's label.
    #[tactic(auto, unfolding(ix_model::specs::rows::Rows::coding, ix_model::specs::rows::OnPaths::unlink_at))]
    pub(crate) fn unlink_at<R: Others, L: Ledger>(
        &mut self,
        who: &mut CallerIn<R>,
        path: &Path<'_>,
        steps: &mut Steps<L>,
    ) -> Result<Reply, Refusal>
        requires sound { Sound (world_of R.rest self.old who.old) }
        requires counted { IsCounted self.old who.old }
        ensures row { RowIs result (frame_of R.rest self.new who.new) (unlink_at R.rest.pid (path_of path.now) (frame_of R.rest self.old who.old)) }
        ensures counted { IsCounted self.new who.new }
        ensures back { OnErr result (self.new ≡ self.old) }
        ensures content { OnOk result ((world_of R.rest self.new who.new).content ≡ carried (frame_of R.rest self.old who.old) (frame_of R.rest self.new who.new) (world_of R.rest self.old who.old).content) }
    {
        let spot = self.spot_at(who, path, steps)?;
        let Some(x) = self.tables.object(spot.object) else {
            return Err(Refusal::BadFd);
        };
        if let Kind::Dir = x.kind {
            return Err(Refusal::IsDir);
        }
        let Some(dir) = spot.dir else {
            return Err(Refusal::IsDir);
        };
        self.affect(who, dir, &Label::bottom(), steps)?;
        self.drop_name(dir, &last_name(path), spot.object);
        Ok(Reply::Done)
    }

    /// One name of a file fewer; without a name and an open entry the file is gone.
    fn drop_name(&mut self, dir: u32, name: &NameRef<'_>, n: u32)
        requires dir { is_dir (node self.old.objects dir) ≡ true }
        requires child { child (node self.old.objects dir) (name_of name.now) ≡ Some n }
        requires file { is_file (node self.old.objects n) ≡ true }
        ensures { self.new ≡ object_let_go n (record self.old { objects = change self.old.objects dir (without_name (name_of name.now)) }) }
    {
        self.tables.unlink(dir, name, n);
        self.tables.let_go_object(n);
    }

    /// RemoveDir: an empty directory goes that is no root and nobody's working directory. A refusal may have raised the
    /// caller's label.
    #[tactic(auto, unfolding(ix_model::specs::rows::Rows::coding, ix_model::specs::rows::OnPaths::remove_dir))]
    pub(crate) fn remove_dir<R: Others, L: Ledger>(
        &mut self,
        who: &mut CallerIn<R>,
        path: &Path<'_>,
        steps: &mut Steps<L>,
    ) -> Result<Reply, Refusal>
        requires sound { Sound (world_of R.rest self.old who.old) }
        requires counted { IsCounted self.old who.old }
        ensures row { RowIs result (frame_of R.rest self.new who.new) (remove_dir R.rest.pid (path_of path.now) (frame_of R.rest self.old who.old)) }
        ensures counted { IsCounted self.new who.new }
        ensures back { OnErr result (self.new ≡ self.old) }
        ensures content { OnOk result ((world_of R.rest self.new who.new).content ≡ carried (frame_of R.rest self.old who.old) (frame_of R.rest self.new who.new) (world_of R.rest self.old who.old).content) }
    {
        let spot = self.spot_at(who, path, steps)?;
        let n = spot.object;
        let Some(x) = self.tables.object(n) else {
            return Err(Refusal::BadFd);
        };
        let Kind::Dir = x.kind else {
            return Err(Refusal::NotDir);
        };
        self.observe(who, &x.float.label, steps)?;
        if self.tables.is_root(n, fs_number(&x)) {
            return Err(Refusal::CrossFs);
        }
        if !self.tables.is_bare(n) {
            return Err(Refusal::NotEmpty);
        }
        if self.is_home(who, n) {
            return Err(Refusal::InUse);
        }
        let Some(dir) = spot.dir else {
            return Err(Refusal::InUse);
        };
        self.affect(who, dir, &Label::bottom(), steps)?;
        self.drop_dir(dir, &last_name(path), n);
        Ok(Reply::Done)
    }

    /// An empty directory goes, and with it its name.
    fn drop_dir(&mut self, dir: u32, name: &NameRef<'_>, n: u32)
        requires dir { is_dir (node self.old.objects dir) ≡ true }
        requires child { child (node self.old.objects dir) (name_of name.now) ≡ Some n }
        requires bare { (node self.old.objects n).names ≡ [] }
        requires is_dir { is_dir (node self.old.objects n) ≡ true }
        ensures { self.new ≡ record self.old { objects = put (change self.old.objects dir (without_name (name_of name.now))) n None; holdings = slice_set self.old.holdings n holds_nothing } }
    {
        self.tables.remove_dir(dir, name, n);
    }

    /// Whether an object is the working directory of a living process.
    fn is_home<R: Others>(&self, who: &CallerIn<R>, n: u32) -> bool
        requires counted { IsCounted self.now who.now }
        requires within { n < length self.now.objects }
        ensures { result ≡ list_any (is_home n) who.now }
    {
        let _ = who;
        self.tables.is_home(n)
    }
}
