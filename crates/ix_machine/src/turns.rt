ghost use Rattle.std.specs.Prelude.{◌≡◌, ◌<◌, ◌-◌, ◌^◌, length, true};
ghost use Rattle.ix_model.specs.history.Events as op;
ghost use Rattle.ix_model.specs.{history.Step.{step}, laws.Sound.{Sound}, world.World.{lives}};
ghost use Rattle.ix_fcalls.specs.Filed.{Answers};

use crate::machine::Machine;
use ix_label::Steps;
use ix_model::{Buf, Fd, Keep, Pid, Reply};
use std::sync::ledger::Ledger;

/// The steps of the calls that look at what the world holds, or edit it. A refusal leaves the world as it was.
impl Machine {
    /// Fork: a child of the caller, with the descriptors that `keep` says, or a refusal.
    pub(crate) fn forked(&mut self, place: u32, pid: Pid, keep: Keep, buf: &Buf) -> Reply
        requires sound { Sound self.old }
        requires lives { lives self.old.frame pid.0 ≡ true }
        requires few { length self.old.frame.processes < 2 ^ 32 - 1 }
        ensures { Answers (step self.old place pid.0 (op.Fork keep)) self.new result buf.now buf.now }
    {
        let _ = place;
        let _ = buf;
        match self.fork(pid, keep) {
            Ok(reply) => reply,
            Err(why) => Reply::No(why),
        }
    }

    /// Exit: the caller ends with a status, and lets go of what it had open.
    pub(crate) fn exited(&mut self, place: u32, pid: Pid, status: u8, buf: &Buf) -> Reply
        requires sound { Sound self.old }
        requires lives { lives self.old.frame pid.0 ≡ true }
        ensures { Answers (step self.old place pid.0 (op.Exit status)) self.new result buf.now buf.now }
    {
        let _ = place;
        let _ = buf;
        match self.exit(pid, status) {
            Ok(reply) => reply,
            Err(why) => Reply::No(why),
        }
    }

    /// Wait: tells the status of a child that has ended, or refuses.
    #[tactic(auto, using(crate::proofs::Stepped::waited, crate::proofs::Stepped::wait_refused))]
    pub(crate) fn waited<L: Ledger>(
        &mut self,
        place: u32,
        pid: Pid,
        buf: &Buf,
        steps: &mut Steps<L>,
    ) -> Reply
        requires sound { Sound self.old }
        requires lives { lives self.old.frame pid.0 ≡ true }
        ensures { Answers (step self.old place pid.0 op.WaitChild) self.new result buf.now buf.now }
    {
        let _ = place;
        let _ = buf;
        match self.wait_child(pid, steps) {
            Ok((child, status)) => Reply::Child { pid: child, status },
            Err(why) => Reply::No(why),
        }
    }

    /// Pex: the caller claims its end of a pipe, or is refused.
    pub(crate) fn pexed(&mut self, place: u32, pid: Pid, fd: Fd, buf: &Buf) -> Reply
        requires sound { Sound self.old }
        requires lives { lives self.old.frame pid.0 ≡ true }
        ensures { Answers (step self.old place pid.0 (op.Pex fd.0)) self.new result buf.now buf.now }
    {
        let _ = place;
        let _ = buf;
        match self.pex(pid, fd) {
            Ok(reply) => reply,
            Err(why) => Reply::No(why),
        }
    }
}
