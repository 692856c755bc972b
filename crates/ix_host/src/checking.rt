//! What is answered of a text that claims to be the report of a script.
ghost use Rattle.std.{specs.Prelude.{◌≡◌, IfOk}, proofs.Common.{option_map}};
ghost use Rattle.ix_lanes.specs.asking.Ruled.{rules_told};
ghost use Rattle.ix_replay.specs.report.Fixed.{LanesNamed};
ghost use Rattle.ix_check.specs.{Judging.{verdict_of}, Plans.{found_in}, Verdicts.{verdict_line}};
ghost use Rattle.ix_host.specs.run.Outcome as outcome;
ghost use Rattle.ix_host.specs.run.Run.{Ends};

use crate::status::Status;
use crate::streams::sending::tell;
use ix_check::{Judge, Verdict, push_verdict};
use ix_core::Core;
use ix_io::Sink;
use ix_lanes::header_of;
use ix_model::NoMemory;
use ix_policy::Policy;
use ix_script::Script;
use std::alloc::Global;

/// What is answered of a text that claims to be the report of a script.
fn judge(
    alloc: Global,
    script: &Script<'_>,
    policy: Option<&Policy>,
    claimed: &[u8],
) -> Result<Verdict, NoMemory>
    requires named { LanesNamed script.now }
    requires policy { option_map (λ p. p.now) policy ≡ rules_told script.now }
    ensures { IfOk result (λ verdict. verdict_of verdict ≡ found_in script.now claimed.now) }
{
    let core = Core::boot(alloc, script.config(alloc)?)?;
    let header = header_of(alloc, script)?;
    let mut judge = Judge::new(alloc, script, &header, policy, core)?;
    judge.text(claimed)
}

/// The line of what is answered.
fn answer(
    alloc: Global,
    script: &Script<'_>,
    policy: Option<&Policy>,
    claimed: &[u8],
) -> Result<Vec<u8>, NoMemory>
    requires named { LanesNamed script.now }
    requires policy { option_map (λ p. p.now) policy ≡ rules_told script.now }
    ensures { IfOk result (λ line. line.items ≡ verdict_line (found_in script.now claimed.now)) }
{
    let verdict = judge(alloc, script, policy, claimed)?;
    let mut line = Vec::new(alloc);
    push_verdict(&mut line, verdict)?;
    Ok(line)
}

/// Judges a text that claims to be the report of a script, and writes what is answered of it.
pub fn check<K: Sink>(
    alloc: Global,
    sink: &mut K,
    script: &Script<'_>,
    policy: Option<&Policy>,
    claimed: &[u8],
) -> Status
    requires named { LanesNamed script.now }
    requires policy { option_map (λ p. p.now) policy ≡ rules_told script.now }
    ensures { Ends (outcome.Whole (verdict_line (found_in script.now claimed.now))) result (K.taken sink.old) (K.taken sink.new)
        (K.finished sink.new) (K.faults sink.old) (K.faults sink.new) }
{
    match answer(alloc, script, policy, claimed) {
        Ok(line) => tell(sink, line.as_slice(), Status::Done),
        Err(NoMemory) => Status::NoMemory,
    }
}
