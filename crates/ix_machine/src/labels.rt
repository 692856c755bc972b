ghost use Rattle.std.specs.Prelude.{◌≡◌, true, false, length, nat_lt, OnOk, OnErr};
ghost use Rattle.ix_label.specs.Category.{leq};
ghost use Rattle.ix_model.specs.{laws.Sound.{Sound}, world.{World.{at, ceiling_of, lives}, Paths.{path_of}}};
ghost use Rattle.ix_model.specs.rows.{Outcomes.{Pass, RowIs}, OnLabels.{allowed, label_of, movable, self_label, set_label, set_self}, Walks.{node}};
ghost use Rattle.ix_tables.specs.Views.{object_by};
ghost use Rattle.ix_machine.specs.{OwnCalls.{self_movable}, Restoring.{Restores}};

use crate::exercise::audit_line;
use crate::machine::Machine;
use ix_label::{Label, Steps};
use ix_model::{Act, Floating, Path, Pid, PrivSet, Refusal, Reply};
use ix_tables::ObjectRow;
use std::sync::ledger::Ledger;

/// The calls on labels.
impl Machine {
    /// LabelOf: the label of an object.
    #[tactic(auto, unfolding(ix_model::specs::rows::Rows::coding, ix_model::specs::rows::OnLabels::label_of))]
    pub(crate) fn label_of<L: Ledger>(
        &mut self,
        pid: Pid,
        path: &Path<'_>,
        steps: &mut Steps<L>,
    ) -> Result<Reply, Refusal>
        requires sound { Sound self.old }
        requires lives { lives self.old.frame pid.0 ≡ true }
        ensures row { RowIs result self.new.frame (label_of pid.0 (path_of path.now) self.old.frame) }
        ensures content { self.new.content ≡ self.old.content }
        ensures back { OnErr result (Restores self.old.frame self.new.frame pid.0) }
    {
        let (_, x) = self.object_row_at(pid, path, steps)?;
        Ok(Reply::Lab(x.float.label))
    }

    /// SelfLabel: the caller's own label.
    #[tactic(auto, unfolding(ix_model::specs::rows::Rows::coding, ix_model::specs::rows::OnLabels::self_label))]
    pub(crate) fn self_label(&self, pid: Pid) -> Reply
        requires { lives self.now.frame pid.0 ≡ true }
        ensures { self_label pid.0 self.now.frame ≡ Pass result self.now.frame }
    {
        Reply::Lab(self.who(pid).float.label)
    }

    /// A label that isn't lowered has to take in the caller's; one that is lowered needs DOWN, and room in the log.
    #[tactic(auto, unfolding(ix_model::specs::rows::Rows::coding, ix_model::specs::rows::OnLabels::allowed))]
    fn allowed<L: Ledger>(
        &self,
        pid: Pid,
        was: &Label,
        now: &Label,
        steps: &mut Steps<L>,
    ) -> Result<(), Refusal>
        requires { lives self.now.frame pid.0 ≡ true }
        ensures row { RowIs result self.now.frame (allowed pid.0 was.now now.now self.now.frame) }
        ensures room { OnOk result (leq was.now now.now ≡ false → nat_lt (length self.now.frame.log) self.now.frame.limits.log ≡ true) }
    {
        if !was.leq(now, steps) {
            return self.exercise(pid, PrivSet::DOWN);
        }
        let both = was.join(&self.who(pid).float.label, steps);
        if !both.leq(now, steps) {
            return Err(Refusal::NotAbove);
        }
        Ok(())
    }

    /// An object's label changes only where it isn't frozen, and stays at or below its ceiling.
    #[tactic(auto, using(crate::proofs::Lowering::below_still), unfolding(ix_model::specs::rows::Rows::coding, ix_model::specs::rows::OnLabels::movable))]
    fn movable<L: Ledger>(
        &self,
        obj: u32,
        x: &ObjectRow,
        now: &Label,
        steps: &mut Steps<L>,
    ) -> Result<(), Refusal>
        requires ceiling { x.now.float.ceiling ≡ ceiling_of self.now.frame.fss (object_by (node self.now.frame.objects obj) x.now) }
        requires below { leq x.now.float.label x.now.float.ceiling ≡ true }
        ensures row { RowIs result self.now.frame (movable (object_by (node self.now.frame.objects obj) x.now) now.now self.now.frame) }
        ensures below { OnOk result (leq now.now x.now.float.ceiling ≡ true) }
    {
        if x.float.label.same(now, steps) {
            return Ok(());
        }
        if x.float.frozen {
            return Err(Refusal::FileFrozen);
        }
        if !now.leq(&x.float.ceiling, steps) {
            return Err(Refusal::FsCeiling);
        }
        Ok(())
    }

    /// SetLabel: the object's label is that; a lowering is logged.
    #[tactic(auto, unfolding(ix_model::specs::rows::Rows::coding, ix_model::specs::rows::OnLabels::set_label, ix_model::specs::rows::Auditing::logged))]
    pub(crate) fn set_label<L: Ledger>(
        &mut self,
        place: u32,
        pid: Pid,
        path: &Path<'_>,
        label: &Label,
        steps: &mut Steps<L>,
    ) -> Result<Reply, Refusal>
        requires sound { Sound self.old }
        requires lives { lives self.old.frame pid.0 ≡ true }
        ensures row { RowIs result self.new.frame (set_label place pid.0 (path_of path.now) label.now self.old.frame) }
        ensures content { self.new.content ≡ self.old.content }
        ensures back { OnErr result (Restores self.old.frame self.new.frame pid.0) }
    {
        let (obj, x) = self.object_row_at(pid, path, steps)?;
        self.allowed(pid, &x.float.label, label, steps)?;
        self.movable(obj, &x, label, steps)?;
        let lowers = !x.float.label.leq(label, steps);
        self.set_object_label(obj, *label);
        if lowers {
            let was = x.float.label;
            self.push_line(audit_line(place, pid, Act::DownFile, obj, was, *label));
        }
        Ok(Reply::Done)
    }

    /// SetSelf: the caller's label is that; a lowering needs DOWN, and is logged.
    #[tactic(auto, using(crate::proofs::Restoring::restores_itself), unfolding(ix_model::specs::rows::Rows::coding, ix_model::specs::rows::OnLabels::set_self, ix_model::specs::rows::Auditing::logged))]
    pub(crate) fn set_self<L: Ledger>(
        &mut self,
        place: u32,
        pid: Pid,
        label: &Label,
        steps: &mut Steps<L>,
    ) -> Result<Reply, Refusal>
        requires lives { lives self.old.frame pid.0 ≡ true }
        ensures row { RowIs result self.new.frame (set_self place pid.0 label.now self.old.frame) }
        ensures content { self.new.content ≡ self.old.content }
        ensures back { OnErr result (Restores self.old.frame self.new.frame pid.0) }
    {
        let float = self.who(pid).float;
        let lowers = !float.label.leq(label, steps);
        self.exercise_if(lowers, pid, PrivSet::DOWN)?;
        self.self_movable(&float, label, steps)?;
        self.set_process_label(pid, *label);
        if lowers {
            self.push_line(audit_line(place, pid, Act::DownSelf, pid.0, float.label, *label));
        }
        Ok(Reply::Done)
    }

    /// A process's label changes only where it isn't frozen, and stays at or below its ceiling.
    #[tactic(auto, unfolding(ix_model::specs::rows::Rows::coding))]
    fn self_movable<L: Ledger>(
        &self,
        float: &Floating,
        now: &Label,
        steps: &mut Steps<L>,
    ) -> Result<(), Refusal>
        ensures row { RowIs result self.now.frame (self_movable float.now now.now self.now.frame) }
    {
        if float.label.same(now, steps) {
            return Ok(());
        }
        if float.frozen {
            return Err(Refusal::ProcFrozen);
        }
        if !now.leq(&float.ceiling, steps) {
            return Err(Refusal::ProcCeiling);
        }
        Ok(())
    }
}
