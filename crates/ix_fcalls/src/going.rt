ghost use Rattle.std.specs.Prelude.{◌≡◌, ◌<◌, ◌≤◌, Some, length, count_by, is_some, OnErr};
ghost use Rattle.ix_model.specs.{laws.Sound.{Sound}, rows.{Outcomes.{RowIs}, OnPaths.{change_dir}}};
ghost use Rattle.ix_model.specs.world.{World.{Process, at, change, living}, Paths.{path_of}};
ghost use Rattle.ix_tables.specs.Parts.{homes_of};
ghost use Rattle.ix_fcalls.specs.{Around.{frame_of, world_of}, Counted.{IsCounted, Keeps}};

use crate::caller_in::{CallerIn, Others};
use crate::files::Files;
use ix_label::Steps;
use ix_model::{Kind, Path, Refusal, Reply};
use std::sync::ledger::Ledger;

/// Where a process is at home.
impl Files {
    /// ChangeDir: the directory of the path is the caller's working directory. A refusal may have raised the caller's
    /// label.
    #[tactic(auto, using(crate::proofs::Moving::moving), unfolding(ix_model::specs::rows::Rows::coding, ix_model::specs::rows::OnPaths::change_dir))]
    pub(crate) fn change_dir<R: Others, L: Ledger>(
        &mut self,
        who: &mut CallerIn<R>,
        path: &Path<'_>,
        steps: &mut Steps<L>,
    ) -> Result<Reply, Refusal>
        requires sound { Sound (world_of R.rest self.old who.old) }
        requires counted { IsCounted self.old who.old }
        requires few { self.old.limits.procs ≤ 1024 }
        ensures row { RowIs result (frame_of R.rest self.new who.new) (change_dir R.rest.pid (path_of path.now) (frame_of R.rest self.old who.old)) }
        ensures counted { IsCounted self.new who.new }
        ensures back { OnErr result (self.new ≡ self.old) }
        ensures kept { Keeps self.old self.new }
    {
        let (dir, x) = self.object_row_at(who, path, steps)?;
        if !matches!(x.kind, Kind::Dir) {
            return Err(Refusal::NotDir);
        }
        self.move_home(who, dir);
        Ok(Reply::Done)
    }

    /// The caller leaves its working directory, and is at home in another.
    fn move_home<R: Others>(&mut self, who: &mut CallerIn<R>, dir: u32)
        requires counted { IsCounted self.old who.old }
        requires few { count_by is_some who.old ≤ 1024 }
        requires home { (q : Process) → living (at who.old R.rest.pid) ≡ Some q → q.cwd < length self.old.objects }
        requires within { dir < length self.old.objects }
        ensures who { who.new ≡ change who.old R.rest.pid (λ q. record q { cwd = dir }) }
        ensures counted { IsCounted self.new who.new }
        ensures homes { self.new ≡ record self.old { homes = homes_of (length self.old.objects) who.new } }
    {
        let home = who.caller().cwd.0;
        self.tables.leave(home);
        self.tables.settle(dir);
        who.set_cwd(dir);
    }
}
