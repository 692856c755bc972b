ghost use Rattle.std.specs.Prelude.{◌≡◌, ℕ, OnErr, true};
ghost use Rattle.ix_model.specs.{world.World.{at, lives}, rows.{Outcomes.{RowIs}, Rows.{observe, affect}}};
ghost use Rattle.ix_machine.specs.{Views.{is_inode}, Restoring.{Restores}};

use crate::machine::Machine;
use ix_label::{Label, Steps};
use ix_model::{Pid, Refusal};
use std::sync::ledger::Ledger;

/// The two rules of floating.
impl Machine {
    /// The process's label floats up to what it looks at.
    #[tactic(auto, using(crate::proofs::Restoring::restores_itself), unfolding(ix_model::specs::rows::Rows::coding, ix_model::specs::rows::Rows::observe))]
    pub(crate) fn observe<L: Ledger>(
        &mut self,
        pid: Pid,
        seen: &Label,
        steps: &mut Steps<L>,
    ) -> Result<(), Refusal>
        requires { lives self.old.frame pid.0 ≡ true }
        ensures row { RowIs result self.new.frame (observe pid.0 seen.now self.old.frame) }
        ensures same { OnErr result (self.new ≡ self.old) }
        ensures rest { self.new ≡ record self.old { frame = record self.old.frame { processes = self.new.frame.processes } } }
        ensures alive { lives self.new.frame pid.0 ≡ true }
        ensures back { Restores self.old.frame self.new.frame pid.0 }
    {
        match ix_float::observe(&self.who(pid).float, seen, steps) {
            Ok(Some(label)) => {
                self.set_process_label(pid, label);
                Ok(())
            }
            Ok(None) => Ok(()),
            Err(why) => Err(why),
        }
    }

    /// The object's label floats up to that of the process that writes to it, and to that of the open entry that the
    /// process goes through; bottom stands for it where none counts.
    #[tactic(auto, unfolding(ix_model::specs::rows::Rows::coding, ix_model::specs::rows::Rows::affect))]
    pub(crate) fn affect<L: Ledger>(
        &mut self,
        pid: Pid,
        object: u32,
        through: &Label,
        steps: &mut Steps<L>,
    ) -> Result<(), Refusal>
        requires { lives self.old.frame pid.0 ≡ true }
        ensures row { RowIs result self.new.frame (affect pid.0 object through.now self.old.frame) }
        ensures rest { self.new ≡ record self.old { frame = record self.old.frame { objects = self.new.frame.objects } } }
        ensures same { OnErr result (self.new ≡ self.old) }
        ensures stand { (n : ℕ) → is_inode (at self.new.frame.objects n) ≡ is_inode (at self.old.frame.objects n) }
    {
        let writer = self.who(pid).float.label.join(through, steps);
        let Some(x) = self.object(object) else {
            return Err(Refusal::BadFd);
        };
        if let Some(label) = ix_float::affect(&x.float, &writer, steps)? {
            self.set_object_label(object, label);
        }
        Ok(())
    }
}
