ghost use Rattle.std.specs.Prelude.{◌≡◌, IfOk, OnErr, true};
ghost use Rattle.ix_model.specs.{history.Step.{pex_answer}, laws.Sound.{Sound}, rows.{OnDescriptors.{pex, unpex}, Outcomes.{RowIs}, Walks.{behind}}};
ghost use Rattle.ix_model.specs.world.World.{lives};
ghost use Rattle.ix_machine.specs.{Claimed.{ClaimedIs, UnclaimedIs}, Restoring.{Restores}};

use crate::machine::Machine;
use ix_model::{Fd, Pid, Refusal, Reply};
use ix_pipe::Claim;

impl Machine {
    /// Pex: the end is the caller's; where the path becomes whole by it, what was in it is gone.
    pub(crate) fn pex(&mut self, pid: Pid, fd: Fd) -> Result<Reply, Refusal>
        requires sound { Sound self.old }
        requires lives { lives self.old.frame pid.0 ≡ true }
        ensures row { RowIs result self.new.frame (pex pid.0 fd.0 self.old.frame) }
        ensures content { IfOk result (λ r. self.new ≡ (pex_answer self.old (behind self.old.frame pid.0 fd.0) r self.new.frame).world) }
        ensures same { OnErr result (self.new ≡ self.old) }
    {
        match self.claim(pid, fd)? {
            Claim::Held(_) => Err(Refusal::PexHeld),
            Claim::Half => Ok(Reply::Half),
            Claim::Whole(other) => {
                let who = self.who(other);
                Ok(Reply::Whole {
                    pid: other,
                    label: who.float.label,
                    lic: who.lic,
                })
            }
        }
    }

    /// Claims the end of a pipe behind a descriptor of a living process.
    fn claim(&mut self, pid: Pid, fd: Fd) -> Result<Claim, Refusal>
        requires sound { Sound self.old }
        requires lives { lives self.old.frame pid.0 ≡ true }
        ensures { ClaimedIs result pid.0 fd.0 self.old self.new }
    {
        let who = *self.who(pid);
        self.files.claim(&who, fd)
    }

    /// Unpex: the caller's claim goes.
    #[tactic(auto, using(crate::proofs::Restoring::restores_itself))]
    pub(crate) fn unpex(&mut self, pid: Pid, fd: Fd) -> Result<Reply, Refusal>
        requires sound { Sound self.old }
        requires lives { lives self.old.frame pid.0 ≡ true }
        ensures row { RowIs result self.new.frame (unpex pid.0 fd.0 self.old.frame) }
        ensures content { self.new.content ≡ self.old.content }
        ensures back { OnErr result (Restores self.old.frame self.new.frame pid.0) }
    {
        self.unclaim(pid, fd)?;
        Ok(Reply::Done)
    }

    /// Ends the claim of a living process on the end of a pipe behind its descriptor.
    fn unclaim(&mut self, pid: Pid, fd: Fd) -> Result<(), Refusal>
        requires sound { Sound self.old }
        requires lives { lives self.old.frame pid.0 ≡ true }
        ensures { UnclaimedIs result pid.0 fd.0 self.old self.new }
    {
        let who = *self.who(pid);
        self.files.unclaim(&who, fd)
    }
}
