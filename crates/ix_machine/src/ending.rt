ghost use Rattle.std.specs.{Prelude.{◌≡◌, IfOk, OnErr, OnOk, None, Some, slice_set, true, false}, List.{list_any}};
ghost use Rattle.ix_model.specs.declared.reply.Reply.TheVariants as reply;
ghost use Rattle.ix_model.specs.{laws.Sound.{Sound}, rows.{OnProcesses.{exit, is_child, wait_child}, Outcomes.{Pass, RowIs, RowMeans}}};
ghost use Rattle.ix_model.specs.world.{Contents.{after_exit, carried, status_of}, World.{at, is_ended, lives, put}};
ghost use Rattle.ix_fcalls.specs.Around.{Moment};
ghost use Rattle.ix_machine.specs.OwnCalls.{child_passed, let_go_and_end};

use crate::machine::Machine;
use ix_label::Steps;
use ix_model::{Pid, Refusal, Reply};
use std::sync::ledger::Ledger;

impl Machine {
    /// Exit: the caller ends, with all that it has, and leaves a status to its parent.
    #[tactic(auto, using(crate::proofs::Ends::exit_passes), unfolding(ix_model::specs::rows::Rows::coding, ix_model::specs::rows::OnProcesses::exit))]
    pub(crate) fn exit(&mut self, pid: Pid, status: u8) -> Result<Reply, Refusal>
        requires sound { Sound self.old }
        requires lives { lives self.old.frame pid.0 ≡ true }
        ensures row { RowIs result self.new.frame (exit pid.0 self.old.frame) }
        ensures done { IfOk result (λ r. r ≡ reply.Done) }
        ensures content { OnOk result (self.new.content ≡ after_exit self.new.frame pid.0 status (carried self.old.frame self.new.frame self.old.content)) }
        ensures same { OnErr result (self.new ≡ self.old) }
    {
        if self.procs.has_child(pid) {
            return Err(Refusal::ChildrenLive);
        }
        self.end(pid, status);
        Ok(Reply::Done)
    }

    /// A living process without children ends: all that it has goes, and its record stays until its parent waits.
    fn end(&mut self, pid: Pid, status: u8)
        ghost moment: { Moment }
        requires world { self.old ≡ moment.world }
        requires sound { Sound moment.world }
        requires lives { lives self.old.frame pid.0 ≡ true }
        requires childless { list_any (is_child pid.0) self.old.frame.processes ≡ false }
        ensures row { let_go_and_end pid.0 self.old.frame ≡ Pass tt self.new.frame }
        ensures content { self.new.content ≡ after_exit self.new.frame pid.0 status (carried self.old.frame self.new.frame self.old.content) }
    {
        let mut who = *self.who(pid);
        self.files.let_go(&mut who);
        self.procs.put(&who);
        self.procs.end(pid, status);
    }

    /// WaitChild: the ended child with the lowest pid is looked at, and its record goes. It answers the child and its
    /// status.
    #[tactic(auto, using(crate::proofs::Ends::waiting), unfolding(ix_model::specs::rows::Rows::coding, ix_model::specs::rows::OnProcesses::wait_child, ix_model::specs::rows::Rows::record_of))]
    pub(crate) fn wait_child<L: Ledger>(
        &mut self,
        pid: Pid,
        steps: &mut Steps<L>,
    ) -> Result<(Pid, u8), Refusal>
        requires sound { Sound self.old }
        requires lives { lives self.old.frame pid.0 ≡ true }
        ensures row { RowMeans child_passed result self.new.frame (wait_child pid.0 self.old.frame) }
        ensures status { IfOk result (λ c. c.1 ≡ status_of self.old.content c.0.0) }
        ensures content { OnOk result (self.new.content ≡ carried self.old.frame self.new.frame self.old.content) }
        ensures same { OnErr result (self.new ≡ self.old) }
    {
        if !self.procs.has_child(pid) {
            return Err(Refusal::NoChild);
        }
        let Some((child, label, status)) = self.procs.ended_child(pid) else {
            return Err(Refusal::Again);
        };
        self.observe(pid, &label, steps)?;
        self.collect(child);
        Ok((child, status))
    }

    /// The record of an ended process goes, with its status.
    fn collect(&mut self, child: Pid)
        requires { is_ended (at self.old.frame.processes child.0) ≡ true }
        ensures { self.new ≡ record self.old { frame = record self.old.frame { processes = put self.old.frame.processes child.0 None }; content = record self.old.content { statuses = slice_set self.old.content.statuses child.0 0 } } }
    {
        self.procs.collect(child);
    }
}
