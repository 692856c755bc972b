ghost use Rattle.std.specs.Prelude.{◌≡◌, ℕ, ◌<◌, length, map, OnErr, OnOk, is_some};
ghost use Rattle.ix_model.specs.{rows.{Outcomes.{RowIs}, Rows.{observe, affect}, Walks.{node}}, world.Owners.{names_in_all}};
ghost use Rattle.ix_fcalls.specs.{Around.{frame_of}, Counted.{IsCounted, Keeps}};

use crate::caller_in::{CallerIn, Others};
use crate::files::Files;
use ix_label::{Label, Steps};
use ix_model::Refusal;
use std::sync::ledger::Ledger;

/// The two rules of floating.
impl Files {
    /// The process's label floats up to what it looks at.
    #[tactic(auto, unfolding(ix_model::specs::rows::Rows::coding, ix_model::specs::rows::Rows::observe))]
    pub(crate) fn observe<R: Others, L: Ledger>(
        &self,
        who: &mut CallerIn<R>,
        seen: &Label,
        steps: &mut Steps<L>,
    ) -> Result<(), Refusal>
        requires counted { IsCounted self.now who.old }
        ensures row { RowIs result (frame_of R.rest self.now who.new) (observe R.rest.pid seen.now (frame_of R.rest self.now who.old)) }
        ensures counted { IsCounted self.now who.new }
    {
        match ix_float::observe(&who.caller().float, seen, steps) {
            Ok(Some(label)) => {
                who.set_label(label);
                Ok(())
            }
            Ok(None) => Ok(()),
            Err(why) => Err(why),
        }
    }

    /// The object's label floats up to that of the process that writes to it, and to that of the open entry that the
    /// process goes through; bottom stands for it where none counts.
    #[tactic(auto, using(crate::proofs::Relabelling::relabelling, crate::proofs::Counting::counting), unfolding(ix_model::specs::rows::Rows::coding, ix_model::specs::rows::Rows::affect))]
    pub(crate) fn affect<R: Others, L: Ledger>(
        &mut self,
        who: &CallerIn<R>,
        object: u32,
        through: &Label,
        steps: &mut Steps<L>,
    ) -> Result<(), Refusal>
        requires counted { IsCounted self.old who.now }
        ensures row { RowIs result (frame_of R.rest self.new who.now) (affect R.rest.pid object through.now (frame_of R.rest self.old who.now)) }
        ensures same { OnErr result (self.new ≡ self.old) }
        ensures counted { IsCounted self.new who.now }
        ensures kept { Keeps self.old self.new }
        ensures names { names_in_all self.new.objects ≡ names_in_all self.old.objects }
        ensures kept_names { (m : ℕ) → (node self.new.objects m).names ≡ (node self.old.objects m).names }
        ensures within { OnOk result (object < length self.new.objects) }
        ensures limits { (self.new.limits ≡ self.old.limits) × (self.new.fss ≡ self.old.fss) × (self.new.opens ≡ self.old.opens) }
        ensures stand { map is_some self.new.objects ≡ map is_some self.old.objects }
    {
        let writer = who.caller().float.label.join(through, steps);
        let Some(x) = self.tables.object(object) else {
            return Err(Refusal::BadFd);
        };
        if let Some(label) = ix_float::affect(&x.float, &writer, steps)? {
            self.tables.set_label(object, label);
        }
        Ok(())
    }
}
