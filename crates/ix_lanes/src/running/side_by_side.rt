ghost use Rattle.std.specs.{Prelude.{◌≡◌, ◌≤◌, All, Option}, Option.{option_or}};
ghost use denote.Param.Send.{IsSync};
ghost use Rattle.ix_model.specs.declared.reply.Answer.{Answer};
ghost use Rattle.ix_lanes.specs.running.SideBySide.{AllRun, IsReady, RunsPhase};

use crate::running::lane_run::LaneRun;
use ix_model::{Answer, Sys};
use std::thread::{Threads, join_mut};

/// A run of a lane, and what makes its calls.
#[derive(Drop)]
pub struct Lane<'a, S> {
    pub run: LaneRun<'a>,
    pub sys: S,
}

/// What runs a phase.
trait Runner {
    ghost use Rattle.std.specs.Prelude.{ℕ, Option};
    ghost use Rattle.ix_model.specs.declared.reply.Answer.{Answer};

    /// It may run the phase of a number, up to an index.
    ghost is_ready: { ℕ → ℕ → Self → Type 0 };

    /// The second state comes of the first by a phase that answers so.
    ghost runs: { Self → Self → Option Answer → Type 0 };

    /// Whether it has a line in a phase.
    fn takes_part(&self, phase: u32) -> bool;

    /// Runs a phase. `Some` is a stop.
    fn run_next(&mut self, phase: u32, end: u32) -> Option<Answer>
        requires { is_ready phase end self.old }
        ensures { runs self.old self.new result };
}

impl<'a, S: Sys> Runner for Lane<'a, S> {
    ghost use Rattle.ix_lanes.specs.running.SideBySide.{IsReady, RunsPhase};

    ghost is_ready = { λ phase end l. IsReady S.seat S.made phase end l };

    ghost runs = { λ l m answer. RunsPhase S.seat S.made S.stops S.stopped S.follows l m answer };

    fn takes_part(&self, phase: u32) -> bool {
        self.run.takes_part(phase)
    }

    fn run_next(&mut self, phase: u32, end: u32) -> Option<Answer> {
        self.run.phase(&mut self.sys, phase, end)
    }
}

/// Whether one of these has a line in a phase.
fn any_takes_part<T: Runner>(runners: &[T], phase: u32) -> bool {
    for runner in runners {
        if runner.takes_part(phase) {
            return true;
        }
    }
    false
}

/// Runs a phase of each: those that have a line in it side by side, each on a thread of its own, where threads can be started.
#[cycle(halves)]
fn run_all<T: Runner + Send, R: Threads + Sync>(
    rt: &R,
    runners: &mut [T],
    phase: u32,
    end: u32,
) -> Option<Answer>
    requires { All (T.is_ready phase end) runners.old }
    ensures { AllRun T.runs runners.old runners.new result }
{
    if runners.len() == 0 {
        return None;
    }
    if runners.len() == 1 {
        return runners[0].run_next(phase, end);
    }
    let (front, back) = runners.split_at_mut(runners.len() / 2);
    run_both(rt, front, back, phase, end)
}

/// Runs a phase of each of two halves of a list: side by side where each half has a lane with a line in it, and a thread can be started. Where
/// one half has none, nothing in it is waited for, and no thread is started.
#[cycle(halves)]
fn run_both<T: Runner + Send, R: Threads + Sync>(
    rt: &R,
    front: &mut [T],
    back: &mut [T],
    phase: u32,
    end: u32,
) -> Option<Answer>
    requires front { All (T.is_ready phase end) front.old }
    requires back { All (T.is_ready phase end) back.old }
    ensures { (first : Option Answer) × (second : Option Answer) × AllRun T.runs front.old front.new first
        × AllRun T.runs back.old back.new second × (result ≡ option_or first second) }
{
    if !any_takes_part(front, phase) || !any_takes_part(back, phase) {
        let first = run_all(rt, front, phase, end);
        let second = run_all(rt, back, phase, end);
        return first.or(second);
    }
    let (first, second) = join_mut(
        rt,
        &mut || -> Option<Answer>
            requires { IsSync R.row × All (T.is_ready phase end) front.now }
            ensures { AllRun T.runs front.entry.now front.exit.now result }
        { run_all(rt, front, phase, end) },
        &mut || -> Option<Answer>
            requires { IsSync R.row × All (T.is_ready phase end) back.now }
            ensures { AllRun T.runs back.entry.now back.exit.now result }
        { run_all(rt, back, phase, end) },
    );
    first.or(second)
}

/// Runs the next phase of each lane, up to an index, side by side where threads can be started. `None`: each lane's lines are all done. Else it is
/// the stop of the first lane in the list that has one. Each lane is left as `LaneRun::phase` leaves it. It takes no memory. Each lane that
/// has a line in the phase runs on a thread of its own, one of them on the caller's; where a thread can't be started, the caller runs that
/// lane itself. A lane without a line starts none.
pub fn run_phase<'a, S: Sys + Send, R: Threads + Sync>(
    rt: &R,
    lanes: &mut [Lane<'a, S>],
    phase: u32,
    end: u32,
) -> Option<Answer>
    requires { All (IsReady S.seat S.made phase end) lanes.old }
    ensures { AllRun (RunsPhase S.seat S.made S.stops S.stopped S.follows) lanes.old lanes.new result }
{
    run_all(rt, lanes, phase, end)
}
