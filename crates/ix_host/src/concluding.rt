//! What is told of the history to which the lanes of a script came.
ghost use Rattle.std.{specs.Prelude.{◌≡◌, ◌≤◌, List}, proofs.Common.{option_map}};
ghost use Rattle.ix_model.specs.history.Cost.{cost_of_history};
ghost use Rattle.ix_lanes.specs.{asking.Ruled.{rules_told}, histories.Serial.{serial}};
ghost use Rattle.ix_script.specs.{scripts.{Need.{need}, Scripts.{config_of}}, declared.line.Line.{Line}};
ghost use Rattle.ix_replay.specs.{Summary.{summary_line}, Tallying.{HasSeen}};
ghost use Rattle.ix_host.specs.run.Outcome as outcome;
ghost use Rattle.ix_host.specs.run.{Run.{Ends}, Tasks.{text_told}};

use crate::status::Status;
use crate::streams::sending::tell;
use crate::streams::teller::{report, report_serial};
use crate::task::Telling;
use ix_core::Core;
use ix_io::Sink;
use ix_model::NoMemory;
use ix_parallel::Watch;
use ix_policy::Policy;
use ix_replay::{Tally, replay, summary};
use ix_script::Script;
use ix_serial::run_history;
use std::alloc::Global;

/// Writes the summary of a history of a made script with so many commands, whose entries a tally has seen.
fn sum_up<K: Sink>(alloc: Global, sink: &mut K, count: u32, tally: &Tally, history: &Core) -> Status
    ensures { (s : List Line) → history.now.config ≡ config_of s → HasSeen history.now tally.now
        → Ends (outcome.Whole (summary_line count s history.now.events)) result (K.taken sink.old) (K.taken sink.new)
        (K.finished sink.new) (K.faults sink.old) (K.faults sink.new) }
{
    match summary(alloc, count, tally, history) {
        Ok(text) => tell(sink, text.as_slice(), Status::Done),
        Err(NoMemory) => Status::NoMemory,
    }
}

/// Makes the serial run of a script on one core, before a tally, and writes the summary of that.
fn sum_up_serial<K: Sink>(
    alloc: Global,
    sink: &mut K,
    count: u32,
    script: &Script<'_>,
    policy: Option<&Policy>,
) -> Status
    requires policy { option_map (λ p. p.now) policy ≡ rules_told script.now }
    ensures { Ends (outcome.Whole (summary_line count script.now (serial script.now))) result (K.taken sink.old) (K.taken sink.new)
        (K.finished sink.new) (K.faults sink.old) (K.faults sink.new) }
{
    let mut tally = Tally::new();
    match run_history(alloc, script, policy, &mut tally) {
        Ok(history) => sum_up(alloc, sink, count, &tally, &history),
        Err(NoMemory) => Status::NoMemory,
    }
}

/// Has a history of a script made once more, before a tally, and writes the summary of that.
fn sum_up_again<K: Sink>(
    alloc: Global,
    sink: &mut K,
    count: u32,
    script: &Script<'_>,
    history: &Core,
) -> Status
    requires config { history.now.config ≡ config_of script.now }
    requires fits { cost_of_history history.now.events ≤ need script.now }
    ensures { Ends (outcome.Whole (summary_line count script.now history.now.events)) result (K.taken sink.old) (K.taken sink.new)
        (K.finished sink.new) (K.faults sink.old) (K.faults sink.new) }
{
    let mut tally = Tally::new();
    match replay(alloc, script, history, &mut tally) {
        Ok(()) => sum_up(alloc, sink, count, &tally, history),
        Err(NoMemory) => Status::NoMemory,
    }
}

/// Runs the lanes of a script one after the other, and tells what is to be told of the serial history to which they come. Where that is a
/// report, the watch is told of each call before it is made.
pub fn tell_serial<K: Sink, W: Watch>(
    alloc: Global,
    sink: &mut K,
    telling: Telling,
    script: &Script<'_>,
    policy: Option<&Policy>,
    watch: &W,
) -> Status
    requires policy { option_map (λ p. p.now) policy ≡ rules_told script.now }
    ensures { Ends (outcome.Whole (text_told telling script.now (serial script.now))) result (K.taken sink.old) (K.taken sink.new)
        (K.finished sink.new) (K.faults sink.old) (K.faults sink.new) }
{
    match telling {
        Telling::Report => report_serial(alloc, sink, script, policy, watch),
        Telling::Summary(count) => sum_up_serial(alloc, sink, count, script, policy),
    }
}

/// Tells what is to be told of a history of a script that came about elsewhere.
pub fn conclude<K: Sink>(
    alloc: Global,
    sink: &mut K,
    telling: Telling,
    script: &Script<'_>,
    history: &Core,
) -> Status
    requires config { history.now.config ≡ config_of script.now }
    requires fits { cost_of_history history.now.events ≤ need script.now }
    ensures { Ends (outcome.Whole (text_told telling script.now history.now.events)) result (K.taken sink.old) (K.taken sink.new) (K.finished sink.new)
        (K.faults sink.old) (K.faults sink.new) }
{
    match telling {
        Telling::Report => report(alloc, sink, script, history),
        Telling::Summary(count) => sum_up_again(alloc, sink, count, script, history),
    }
}
