ghost use Rattle.std.specs.Prelude.{◌≡◌, true, OnErr};
ghost use Rattle.ix_model.specs.{laws.Sound.{Sound}, world.{World.{lives}, Paths.{path_of}}};
ghost use Rattle.ix_model.specs.rows.{Outcomes.{RowIs}, OnLabels.{freeze, freeze_self, thaw, thaw_self}};
ghost use Rattle.ix_machine.specs.Restoring.{Restores};

use crate::exercise::audit_line;
use crate::machine::Machine;
use ix_label::{Label, Steps};
use ix_model::{Act, Path, Pid, PrivSet, Refusal, Reply};
use std::sync::ledger::Ledger;

/// The calls on frozen marks.
impl Machine {
    /// Freeze: an object's label moves no more.
    #[tactic(auto, unfolding(ix_model::specs::rows::Rows::coding, ix_model::specs::rows::OnLabels::freeze))]
    pub(crate) fn freeze<L: Ledger>(
        &mut self,
        pid: Pid,
        path: &Path<'_>,
        steps: &mut Steps<L>,
    ) -> Result<Reply, Refusal>
        requires sound { Sound self.old }
        requires lives { lives self.old.frame pid.0 ≡ true }
        ensures row { RowIs result self.new.frame (freeze pid.0 (path_of path.now) self.old.frame) }
        ensures content { self.new.content ≡ self.old.content }
        ensures back { OnErr result (Restores self.old.frame self.new.frame pid.0) }
    {
        let obj = self.object_at(pid, path, steps)?;
        self.affect(pid, obj, &Label::bottom(), steps)?;
        self.set_object_frozen(obj, true);
        Ok(Reply::Done)
    }

    /// FreezeSelf: the caller's label moves no more.
    #[tactic(auto, unfolding(ix_model::specs::rows::Rows::coding, ix_model::specs::rows::OnLabels::freeze_self))]
    pub(crate) fn freeze_self(&mut self, pid: Pid) -> Result<Reply, Refusal>
        requires lives { lives self.old.frame pid.0 ≡ true }
        ensures row { RowIs result self.new.frame (freeze_self pid.0 self.old.frame) }
        ensures content { self.new.content ≡ self.old.content }
        ensures back { OnErr result (Restores self.old.frame self.new.frame pid.0) }
    {
        self.set_process_frozen(pid, true);
        Ok(Reply::Done)
    }

    /// Thaw: an object isn't frozen, also where it wasn't. It needs THAW, and is logged.
    #[tactic(auto, unfolding(ix_model::specs::rows::Rows::coding, ix_model::specs::rows::OnLabels::thaw, ix_model::specs::rows::Auditing::logged))]
    pub(crate) fn thaw<L: Ledger>(
        &mut self,
        place: u32,
        pid: Pid,
        path: &Path<'_>,
        steps: &mut Steps<L>,
    ) -> Result<Reply, Refusal>
        requires sound { Sound self.old }
        requires lives { lives self.old.frame pid.0 ≡ true }
        ensures row { RowIs result self.new.frame (thaw place pid.0 (path_of path.now) self.old.frame) }
        ensures content { self.new.content ≡ self.old.content }
        ensures back { OnErr result (Restores self.old.frame self.new.frame pid.0) }
    {
        let (obj, x) = self.object_row_at(pid, path, steps)?;
        self.exercise(pid, PrivSet::THAW)?;
        self.set_object_frozen(obj, false);
        let label = x.float.label;
        self.push_line(audit_line(place, pid, Act::ThawFile, obj, label, label));
        Ok(Reply::Done)
    }

    /// ThawSelf: the caller isn't frozen, also where it wasn't. It needs THAW, and is logged.
    #[tactic(auto, using(crate::proofs::Restoring::restores_itself), unfolding(ix_model::specs::rows::Rows::coding, ix_model::specs::rows::OnLabels::thaw_self, ix_model::specs::rows::Auditing::logged))]
    pub(crate) fn thaw_self(&mut self, place: u32, pid: Pid) -> Result<Reply, Refusal>
        requires lives { lives self.old.frame pid.0 ≡ true }
        ensures row { RowIs result self.new.frame (thaw_self place pid.0 self.old.frame) }
        ensures content { self.new.content ≡ self.old.content }
        ensures back { OnErr result (Restores self.old.frame self.new.frame pid.0) }
    {
        let label = self.who(pid).float.label;
        self.exercise(pid, PrivSet::THAW)?;
        self.set_process_frozen(pid, false);
        self.push_line(audit_line(place, pid, Act::ThawSelf, pid.0, label, label));
        Ok(Reply::Done)
    }
}
