//! Two scripts, compared at a label.
ghost use Rattle.std.{specs.Prelude.{◌≡◌, ◌≤◌, length, Some}, proofs.Common.{option_map}};
ghost use Rattle.ix_script.specs.scripts.Scripts.{script_of};
ghost use Rattle.ix_lanes.specs.asking.Ruled.{rules_told};
ghost use Rattle.ix_twin.specs.{Lines.{twin_text}, Parts.{lines_before, second_part}};
ghost use Rattle.ix_host.specs.{Policies.{policy_refusal}, Seconds.{further_down, second_in, second_refusal}};
ghost use Rattle.ix_host.specs.run.{Inputs.{twin_max}, Outcome.{unless_refused}, Run.{Ends}};
ghost use Rattle.ix_host.specs.run.Outcome as outcome;

use crate::policies::{ScriptPolicy, policy_of};
use crate::refusing::refuse;
use crate::status::Status;
use crate::streams::sending::tell;
use ix_io::Sink;
use ix_label::Label;
use ix_model::NoMemory;
use ix_policy::Policy;
use ix_script::laws::one_byte_more;
use ix_script::{ReadFail, Script, read};
use ix_twin::{compare, divide};
use std::alloc::Global;

/// Compares two scripts at a label, and writes what is to be written of them.
fn tell_both<K: Sink>(
    alloc: Global,
    sink: &mut K,
    at: &Label,
    one: (&Script<'_>, Option<&Policy>),
    two: (&Script<'_>, Option<&Policy>),
) -> Status
    requires first { option_map (λ p. p.now) one.1 ≡ rules_told one.0.now }
    requires second { option_map (λ p. p.now) two.1 ≡ rules_told two.0.now }
    ensures { Ends (outcome.Whole (twin_text at.now one.entry.0.now two.entry.0.now)) result (K.taken sink.old) (K.taken sink.new)
        (K.finished sink.new) (K.faults sink.old) (K.faults sink.new) }
{
    match compare(alloc, at, one.0, one.1, two.0, two.1) {
        Ok(text) => tell(sink, text.as_slice(), Status::Done),
        Err(NoMemory) => Status::NoMemory,
    }
}

/// Compares a script that isn't refused with a second one, before which so many lines stand; or refuses that for its policy.
fn compare_with<K: Sink>(
    alloc: Global,
    sink: &mut K,
    at: &Label,
    one: (&Script<'_>, Option<&Policy>),
    second: &Script<'_>,
    lines: u32,
) -> Status
    requires first { option_map (λ p. p.now) one.1 ≡ rules_told one.0.now }
    requires few { lines ≤ 33554437 }
    requires short { length second.now ≤ 16777217 }
    ensures { Ends (unless_refused (option_map (further_down lines) (policy_refusal second.now)) (twin_text at.now one.entry.0.now second.now)) result
        (K.taken sink.old) (K.taken sink.new) (K.finished sink.new) (K.faults sink.old) (K.faults sink.new) }
{
    match policy_of(alloc, second) {
        Ok(ScriptPolicy::Rules(policy)) => {
            tell_both(alloc, sink, at, one, (second, policy.as_ref()))
        }
        Ok(ScriptPolicy::Refused(line)) => refuse(alloc, sink, lines + line, 27),
        Err(NoMemory) => Status::NoMemory,
    }
}

/// Compares the first script of an input, which isn't refused, with the second one at a label; or refuses that one.
pub fn twin<K: Sink>(
    alloc: Global,
    sink: &mut K,
    at: &Label,
    one: (&Script<'_>, Option<&Policy>),
    input: &[u8],
) -> Status
    requires first { option_map (λ p. p.now) one.1 ≡ rules_told one.0.now }
    requires short { length input.now ≤ twin_max }
    ensures { Ends (unless_refused (second_refusal input.now) (twin_text at.now one.entry.0.now (second_in input.now))) result
        (K.taken sink.old) (K.taken sink.new) (K.finished sink.new) (K.faults sink.old) (K.faults sink.new) }
{
    // That the lines count so far rests on this law.
    one_byte_more();
    let parts = divide(input);
    let lines = parts.lines as u32;
    match read(alloc, parts.second) {
        Ok(second) => compare_with(alloc, sink, at, one, &second, lines),
        Err(ReadFail::Fault(fault)) => refuse(alloc, sink, lines + fault.line, fault.rule),
        Err(ReadFail::NoMemory) => Status::NoMemory,
    }
}
