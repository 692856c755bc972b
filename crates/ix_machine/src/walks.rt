ghost use Rattle.std.specs.Prelude.{◌≡◌, IfOk, Some, true};
ghost use Rattle.ix_model.specs.{laws.Sound.{Sound}, world.{World.{at, ceiling_of, lives}, Paths.{path_of}}};
ghost use Rattle.ix_model.specs.rows.{Outcomes.{RowIs, RowMeans}, Walks.{node, object_at, walked_to}};
ghost use Rattle.ix_tables.specs.Views.{Shows, object_by};
ghost use Rattle.ix_fcalls.specs.Views.{sought_of};
ghost use Rattle.ix_machine.specs.{Views.{is_inode}, Restoring.{Restores}};

use crate::machine::Machine;
use ix_fcalls::Outcome;
use ix_label::Steps;
use ix_model::{Path, Pid, Refusal};
use ix_tables::ObjectRow;
use std::sync::ledger::Ledger;

impl Machine {
    /// All directories that a walk looks into are observed before its outcome is answered.
    #[tactic(auto, unfolding(ix_model::specs::rows::Rows::coding, ix_model::specs::rows::Walks::walked_to))]
    fn walked_to<L: Ledger>(
        &mut self,
        pid: Pid,
        path: &Path<'_>,
        steps: &mut Steps<L>,
    ) -> Result<Outcome, Refusal>
        requires { lives self.old.frame pid.0 ≡ true }
        ensures row { RowMeans sought_of result self.new.frame (walked_to pid.0 (path_of path.now) self.old.frame) }
        ensures rest { self.new ≡ record self.old { frame = record self.old.frame { processes = self.new.frame.processes } } }
        ensures alive { lives self.new.frame pid.0 ≡ true }
        ensures back { Restores self.old.frame self.new.frame pid.0 }
    {
        let walked = self.files.walk(self.who(pid), path, steps);
        self.observe(pid, &walked.seen, steps)?;
        Ok(walked.outcome)
    }

    /// The object of a path, which must be there. It is a file or a directory. A refusal may have raised the process's label.
    #[tactic(auto, unfolding(ix_model::specs::rows::Rows::coding, ix_model::specs::rows::Walks::object_at, ix_model::specs::rows::Walks::found_object))]
    pub(crate) fn object_at<L: Ledger>(
        &mut self,
        pid: Pid,
        path: &Path<'_>,
        steps: &mut Steps<L>,
    ) -> Result<u32, Refusal>
        requires sound { Sound self.old }
        requires lives { lives self.old.frame pid.0 ≡ true }
        ensures row { RowIs result self.new.frame (object_at pid.0 (path_of path.now) self.old.frame) }
        ensures rest { self.new ≡ record self.old { frame = record self.old.frame { processes = self.new.frame.processes } } }
        ensures inode { IfOk result (λ o. is_inode (at self.new.frame.objects o) ≡ true) }
        ensures alive { lives self.new.frame pid.0 ≡ true }
        ensures back { Restores self.old.frame self.new.frame pid.0 }
    {
        match self.walked_to(pid, path, steps)? {
            Outcome::Found { obj, .. } => Ok(obj.0),
            Outcome::Missing { .. } => Err(Refusal::NotFound),
            Outcome::NotFound => Err(Refusal::NotFound),
            Outcome::NotDir => Err(Refusal::NotDir),
        }
    }

    /// The number of the object of a path, which must be there, and what is told of it. In a sound world one stands
    /// wherever a walk ends. A refusal may have raised the process's label.
    pub(crate) fn object_row_at<L: Ledger>(
        &mut self,
        pid: Pid,
        path: &Path<'_>,
        steps: &mut Steps<L>,
    ) -> Result<(u32, ObjectRow), Refusal>
        requires sound { Sound self.old }
        requires lives { lives self.old.frame pid.0 ≡ true }
        ensures row { RowMeans (λ r. r.0) result self.new.frame (object_at pid.0 (path_of path.now) self.old.frame) }
        ensures rest { self.new ≡ record self.old { frame = record self.old.frame { processes = self.new.frame.processes } } }
        ensures object { IfOk result (λ r. Shows self.new.frame.objects r.0 (Some r.1)) }
        ensures ceiling { IfOk result (λ r. r.1.float.ceiling ≡ ceiling_of self.new.frame.fss (object_by (node self.new.frame.objects r.0) r.1)) }
        ensures inode { IfOk result (λ r. is_inode (at self.new.frame.objects r.0) ≡ true) }
        ensures alive { lives self.new.frame pid.0 ≡ true }
        ensures back { Restores self.old.frame self.new.frame pid.0 }
    {
        let obj = self.object_at(pid, path, steps)?;
        let Some(x) = self.object(obj) else {
            return Err(Refusal::BadFd);
        };
        Ok((obj, x))
    }
}
