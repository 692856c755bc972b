ghost use Rattle.std.specs.{Prelude.{◌≡◌, ◌==◌, Some, true, false, unwrap_or, OnErr}, Option.{option_map_or, option_and_then}};
ghost use Rattle.ix_model.specs.laws.Sound.{Sound};
ghost use Rattle.ix_model.specs.world.{Privs.{either_of, without}, World.{at, change, lives, living}, Callers.{with_caller}, Paths.{path_of}};
ghost use Rattle.ix_model.specs.rows.{Outcomes.{RowIs}, OnLabels.{drop_lic, grant_lic, needs_to_set_ceilings, read_log, set_ceiling, set_priv}};
ghost use Rattle.ix_fcalls.specs.Around.{no_process};
ghost use Rattle.ix_machine.specs.Restoring.{Restores};

use crate::exercise::audit_line;
use crate::machine::Machine;
use bitflags::Flags;
use ix_label::{Label, Steps};
use ix_licence::{Privs, dropped};
use ix_model::{Act, AuditLine, Caller, Kind, Path, Pid, PrivSet, Refusal, Reply};
use std::sync::ledger::Ledger;

/// The calls on privileges, ceilings and the log.
impl Machine {
    /// SetPriv: a file's sets, which also affects it. It needs PRIV, and is logged.
    #[tactic(auto, unfolding(ix_model::specs::rows::Rows::coding, ix_model::specs::rows::OnLabels::set_priv, ix_model::specs::rows::Auditing::logged))]
    pub(crate) fn set_priv<L: Ledger>(
        &mut self,
        place: u32,
        pid: Pid,
        path: &Path<'_>,
        cap: PrivSet,
        lic: PrivSet,
        steps: &mut Steps<L>,
    ) -> Result<Reply, Refusal>
        requires sound { Sound self.old }
        requires lives { lives self.old.frame pid.0 ≡ true }
        ensures row { RowIs result self.new.frame (set_priv place pid.0 (path_of path.now) cap lic self.old.frame) }
        ensures content { self.new.content ≡ self.old.content }
        ensures back { OnErr result (Restores self.old.frame self.new.frame pid.0) }
    {
        let (obj, x) = self.object_row_at(pid, path, steps)?;
        if matches!(x.kind, Kind::Dir) {
            return Err(Refusal::IsDir);
        }
        self.exercise(pid, PrivSet::PRIV)?;
        let both = x.float.label.join(&self.who(pid).float.label, steps);
        self.affect(pid, obj, &Label::bottom(), steps)?;
        self.set_object_privs(obj, cap, lic);
        let line = audit_line(place, pid, Act::SetPriv, obj, x.float.label, both);
        self.push_line(AuditLine { cap, lic, ..line });
        Ok(Reply::Done)
    }

    /// DropLic: the set goes from all three of the caller's.
    #[tactic(auto, unfolding(ix_model::specs::rows::Rows::coding, ix_model::specs::rows::OnLabels::drop_lic))]
    pub(crate) fn drop_lic(&mut self, pid: Pid, set: PrivSet) -> Result<Reply, Refusal>
        requires lives { lives self.old.frame pid.0 ≡ true }
        ensures row { RowIs result self.new.frame (drop_lic pid.0 set self.old.frame) }
        ensures content { self.new.content ≡ self.old.content }
        ensures back { OnErr result (Restores self.old.frame self.new.frame pid.0) }
    {
        self.drop_privs(pid, set);
        Ok(Reply::Done)
    }

    /// A living process loses the privileges of a set.
    #[tactic(auto, using(crate::proofs::Rows::dropped_put))]
    fn drop_privs(&mut self, pid: Pid, set: PrivSet)
        requires { lives self.old.frame pid.0 ≡ true }
        ensures { self.new ≡ record self.old { frame = record self.old.frame { processes = change self.old.frame.processes pid.0 (λ q. record q { cap = without q.cap set; lic = without q.lic set; own = without q.own set }) } } }
    {
        let who = *self.who(pid);
        let was = Privs {
            cap: who.cap,
            lic: who.lic,
            own: who.own,
        };
        let now = dropped(was, set);
        self.procs.put(&Caller {
            cap: now.cap,
            lic: now.lic,
            own: now.own,
            ..who
        });
    }

    /// GrantLic: the set joins the licences of a living process. It needs PRIV, and is logged.
    #[tactic(auto, using(crate::proofs::Restoring::restores_itself), unfolding(ix_model::specs::rows::Rows::coding, ix_model::specs::rows::OnLabels::grant_lic, ix_model::specs::rows::Auditing::logged))]
    pub(crate) fn grant_lic(
        &mut self,
        place: u32,
        pid: Pid,
        target: Pid,
        set: PrivSet,
    ) -> Result<Reply, Refusal>
        requires lives { lives self.old.frame pid.0 ≡ true }
        ensures row { RowIs result self.new.frame (grant_lic place pid.0 target.0 set self.old.frame) }
        ensures content { self.new.content ≡ self.old.content }
        ensures back { OnErr result (Restores self.old.frame self.new.frame pid.0) }
    {
        if !self.lives(target) {
            return Err(Refusal::NoProcess);
        }
        let label = self.who(target).float.label;
        self.exercise(pid, PrivSet::PRIV)?;
        self.license(target, set);
        let line = audit_line(place, pid, Act::Grant, target.0, label, label);
        self.push_line(AuditLine { lic: set, ..line });
        Ok(Reply::Done)
    }

    /// A set joins the licences of a living process.
    #[tactic(auto, using(crate::proofs::Rows::licensed_put))]
    fn license(&mut self, pid: Pid, set: PrivSet)
        requires { lives self.old.frame pid.0 ≡ true }
        ensures { self.new ≡ record self.old { frame = record self.old.frame { processes = change self.old.frame.processes pid.0 (λ q. record q { lic = either_of q.lic set }) } } }
    {
        let who = *self.who(pid);
        let lic = either_of(who.lic, set);
        self.procs.put(&Caller { lic, ..who });
    }

    /// Whether CEIL is needed: for a ceiling that isn't at or below the old one, and for that of a process that is neither
    /// the caller nor its child.
    #[tactic(auto, using(crate::proofs::Parents::parent_living))]
    fn needs_to_set_ceilings<L: Ledger>(
        &self,
        pid: Pid,
        target: Pid,
        who: &Caller,
        now: &Label,
        steps: &mut Steps<L>,
    ) -> bool
        requires { living (at self.now.frame.processes target.0) ≡ Some (with_caller who.now (unwrap_or (at self.now.frame.processes target.0) no_process)) }
        ensures { result ≡ needs_to_set_ceilings pid.0 target.0 (with_caller who.now (unwrap_or (at self.now.frame.processes target.0) no_process)) now.now }
    {
        if !now.leq(&who.float.ceiling, steps) {
            return true;
        }
        target.0 != pid.0 && !self.is_parent(pid, target)
    }

    /// Whether a process is the parent of another, which lives.
    fn is_parent(&self, pid: Pid, child: Pid) -> bool
        ensures { result ≡ option_map_or (λ r. r == pid.0) (option_and_then (λ q. q.parent) (at self.now.frame.processes child.0)) false }
    {
        match self.procs.parent(child) {
            Some(parent) => parent.0 == pid.0,
            None => false,
        }
    }

    /// SetCeiling: the ceiling of a living process, not below its label. Where it needs CEIL it is logged.
    #[tactic(auto, using(crate::proofs::Restoring::restores_itself), unfolding(ix_model::specs::rows::Rows::coding, ix_model::specs::rows::OnLabels::set_ceiling, ix_model::specs::rows::Auditing::logged))]
    pub(crate) fn set_ceiling<L: Ledger>(
        &mut self,
        place: u32,
        pid: Pid,
        target: Pid,
        label: &Label,
        steps: &mut Steps<L>,
    ) -> Result<Reply, Refusal>
        requires lives { lives self.old.frame pid.0 ≡ true }
        ensures row { RowIs result self.new.frame (set_ceiling place pid.0 target.0 label.now self.old.frame) }
        ensures content { self.new.content ≡ self.old.content }
        ensures back { OnErr result (Restores self.old.frame self.new.frame pid.0) }
    {
        if !self.lives(target) {
            return Err(Refusal::NoProcess);
        }
        let who = *self.who(target);
        if !who.float.label.leq(label, steps) {
            return Err(Refusal::BelowLabel);
        }
        let needs = self.needs_to_set_ceilings(pid, target, &who, label, steps);
        self.exercise_if(needs, pid, PrivSet::CEIL)?;
        self.set_process_ceiling(target, *label);
        if needs {
            let was = who.float.ceiling;
            self.push_line(audit_line(place, pid, Act::Ceiling, target.0, was, *label));
        }
        Ok(Reply::Done)
    }

    /// ReadLog: a line of the log, counted from 0, before the one that this adds. It needs LOG.
    #[tactic(auto, using(crate::proofs::Restoring::restores_itself), unfolding(ix_model::specs::rows::Rows::coding, ix_model::specs::rows::OnLabels::read_log, ix_model::specs::rows::Auditing::logged, ix_model::specs::rows::Auditing::log_has_room))]
    pub(crate) fn read_log(&mut self, place: u32, pid: Pid, index: u32) -> Result<Reply, Refusal>
        requires lives { lives self.old.frame pid.0 ≡ true }
        ensures row { RowIs result self.new.frame (read_log place pid.0 index self.old.frame) }
        ensures content { self.new.content ≡ self.old.content }
        ensures back { OnErr result (Restores self.old.frame self.new.frame pid.0) }
    {
        self.entitled(pid, PrivSet::LOG)?;
        let Some(line) = self.log.line(index) else {
            return Err(Refusal::EndOfList);
        };
        if !self.log_has_room() {
            return Err(Refusal::LogFull);
        }
        let label = self.who(pid).float.label;
        self.push_line(audit_line(place, pid, Act::ReadLog, index, label, label));
        Ok(Reply::LogLine(line))
    }
}

/// The privileges of either set.
#[tactic(auto, unfolding(ix_model::specs::world::Privs::either_of))]
fn either_of(set: PrivSet, other: PrivSet) -> PrivSet
    ensures { result ≡ either_of set other }
{
    set.union(other)
}
