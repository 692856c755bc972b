//! What two runs are asked at each place.
ghost use Rattle.std.specs.Prelude.{◌≡◌, ◌&&◌, length};
ghost use Rattle.ix_model.specs.{history.{Calls.{event_of}, Events.{Event}, History.{History, next, with_entry, world_of}}, two_runs.TwoRuns.{is_one_kind}};
ghost use Rattle.ix_twin.specs.Tests.{agrees, crosses, falls_below, is_high, is_low, lets_down};

use crate::sameness::{same_but_given, same_given};
use ix_core::Core;
use ix_label::{Label, Steps};
use ix_model::{Act, AuditLine, Entry, Pid, Reply};
use std::sync::ledger::Ledger;

/// Whether two entries agree where a core is that makes the first of them: they are equal, or a process that isn't at or below the label writes
/// other bytes or exits with another status.
#[tactic(auto, unfolding(crate::specs::Tests::agrees))]
pub fn agrees<L: Ledger>(
    core: &Core,
    one: &Entry<'_>,
    two: &Entry<'_>,
    at: &Label,
    steps: &mut Steps<L>,
) -> bool
    ensures { result ≡ agrees at.now (world_of core.now).frame (event_of one.now) (event_of two.now) }
{
    one.seat == two.seat
        && one.line == two.line
        && one.pid == two.pid
        && same_but_given(&one.call, &two.call, steps)
        && (same_given(&one.call, &two.call) || is_high(core, one.pid, at, steps))
}

/// Whether a process lives, with a label at or below that one.
pub fn is_low<L: Ledger>(core: &Core, pid: Pid, at: &Label, steps: &mut Steps<L>) -> bool
    ensures { result ≡ is_low at.now (world_of core.now).frame pid.0 }
{
    match core.process(pid) {
        Some(view) => !view.ended && view.label.leq(at, steps),
        None => false,
    }
}

/// Whether a process lives, with a label that isn't at or below that one.
fn is_high<L: Ledger>(core: &Core, pid: Pid, at: &Label, steps: &mut Steps<L>) -> bool
    ensures { result ≡ is_high at.now (world_of core.now).frame pid.0 }
{
    match core.process(pid) {
        Some(view) => !view.ended && !view.label.leq(at, steps),
        None => false,
    }
}

/// Whether an act lets something down.
fn lets_down(act: Act) -> bool
    ensures { result ≡ lets_down act }
{
    matches!(act, Act::DownFile | Act::DownSelf)
}

/// Whether a line of the log tells of something that was let down across a label.
fn tells_fall<L: Ledger>(line: &AuditLine, at: &Label, steps: &mut Steps<L>) -> bool
    ensures { result ≡ (lets_down line.entry.now.act && falls_below at.now line.entry.now.was line.entry.now.now) }
{
    lets_down(line.act) && !line.was.leq(at, steps) && line.now.leq(at, steps)
}

/// Whether the last entry of a core let something down across a label, where the log had so many lines before it. What lets something down has
/// its line in the log.
pub fn has_crossed<L: Ledger>(core: &Core, lines: u32, at: &Label, steps: &mut Steps<L>) -> bool
    ensures { (old : History) (e : Event) → core.now ≡ with_entry old e → lines ≡ length (world_of old).frame.log
        → result ≡ crosses at.now (world_of old).frame (next old e).world.frame }
{
    match core.log_line(lines) {
        Some(line) => tells_fall(&line, at, steps),
        None => false,
    }
}

/// Whether two replies are of one kind: of one variant, and refusals the same.
pub fn is_one_kind(one: &Reply, two: &Reply) -> bool
    ensures { result ≡ is_one_kind one.now two.now }
{
    match (one, two) {
        (Reply::No(why), Reply::No(other)) => why.number() == other.number(),
        (Reply::Done, Reply::Done) => true,
        (Reply::Number(_), Reply::Number(_)) => true,
        (Reply::Two(..), Reply::Two(..)) => true,
        (Reply::Bytes(_), Reply::Bytes(_)) => true,
        (Reply::Stat { .. }, Reply::Stat { .. }) => true,
        (Reply::Lab(_), Reply::Lab(_)) => true,
        (Reply::Named { .. }, Reply::Named { .. }) => true,
        (Reply::Half, Reply::Half) => true,
        (Reply::Whole { .. }, Reply::Whole { .. }) => true,
        (Reply::LogLine(_), Reply::LogLine(_)) => true,
        (Reply::Child { .. }, Reply::Child { .. }) => true,
        _ => false,
    }
}
