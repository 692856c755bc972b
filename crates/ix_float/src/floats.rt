ghost use Rattle.std.specs.Prelude.{◌≡◌, ◌+◌};
ghost use Rattle.ix_float.specs.Floating.{floated, looks};

use ix_label::{Label, Steps};
use ix_model::{Floating, Refusal};
use std::sync::ledger::Ledger;

/// What the label of a process becomes once it looks at a label: the join of the two.
///
/// It is `None` exactly where the process's label is at or above that label already, and nothing changes. Else a frozen
/// process is refused `ProcFrozen`, and one whose ceiling isn't at or above the join `ProcCeiling`. It takes no memory.
/// It looks at labels once where nothing changes or the process is frozen, else three times.
pub fn observe<L: Ledger>(
    proc: &Floating,
    seen: &Label,
    steps: &mut Steps<L>,
) -> Result<Option<Label>, Refusal>
    ensures rule { result ≡ floated Refusal.ProcFrozen Refusal.ProcCeiling proc.now seen.now }
    ensures cost { steps.new ≡ steps.old + looks proc.now seen.now }
{
    float(proc, seen, Refusal::ProcFrozen, Refusal::ProcCeiling, steps)
}

/// What the label of an object becomes once something of a label is written to it: the join of the two. The object's
/// ceiling is that of its file system, or top for a pipe.
///
/// It is `None` exactly where the object's label is at or above that label already, and nothing changes. Else a frozen
/// object is refused `FileFrozen`, and one whose ceiling isn't at or above the join `FsCeiling`. It takes no memory. It
/// looks at labels once where nothing changes or the object is frozen, else three times.
pub fn affect<L: Ledger>(
    object: &Floating,
    writer: &Label,
    steps: &mut Steps<L>,
) -> Result<Option<Label>, Refusal>
    ensures rule { result ≡ floated Refusal.FileFrozen Refusal.FsCeiling object.now writer.now }
    ensures cost { steps.new ≡ steps.old + looks object.now writer.now }
{
    float(
        object,
        writer,
        Refusal::FileFrozen,
        Refusal::FsCeiling,
        steps,
    )
}

/// Both rules, with the refusals that each of them gives.
#[tactic(auto, using(crate::proofs::Joining::floating))]
fn float<L: Ledger>(
    floating: &Floating,
    other: &Label,
    frozen: Refusal,
    ceiling: Refusal,
    steps: &mut Steps<L>,
) -> Result<Option<Label>, Refusal>
    ensures rule { result ≡ floated frozen ceiling floating.now other.now }
    ensures cost { steps.new ≡ steps.old + looks floating.now other.now }
{
    if other.leq(&floating.label, steps) {
        return Ok(None);
    }
    if floating.frozen {
        return Err(frozen);
    }
    let need = floating.label.join(other, steps);
    if !need.leq(&floating.ceiling, steps) {
        return Err(ceiling);
    }
    Ok(Some(need))
}
