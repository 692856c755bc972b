//! The phases of a script, one after the other.
ghost use Rattle.std.specs.Prelude.{◌≡◌, ◌<◌, ◌≤◌, suc, length};
ghost use Rattle.ix_gate.specs.Gate.{GateState};
ghost use Rattle.ix_lanes.specs.running.Phases.{lines_before};
ghost use Rattle.ix_script.specs.scripts.Schedule.{phases};
ghost use Rattle.ix_parallel.specs.{Between.{Between, GetsTo, TellParts}, Seats.{AtPhase, Runs}};

use crate::meeting::{first_learns, learn_of_first};
use crate::watch::{Watch, Watched};
use ix_lanes::{Lane, phase_end, run_phase};
use ix_model::Answer;
use ix_script::Script;
use std::sync::Wait;
use std::thread::Threads;

/// Which lanes have a line in their next phase.
fn parts_of<'a, R, W>(lanes: &[Lane<'_, Watched<'a, R, W>>], phase: u32) -> [bool; 64]
    requires few { length lanes.now ≤ 64 }
    ensures { TellParts phase lanes.now result }
{
    let mut parts = [false; 64];
    for n in 0..lanes.len() {
        parts[n] = lanes[n].run.takes_part(phase);
    }
    parts
}

/// Runs a phase: its lanes side by side. Before it, the seat of each lane that takes part meets that of the first lane, which has seen all
/// that was made; after it, the first meets each of these. Other lanes meet none.
fn run_one<'a, W: Watch, R: Threads + Wait + Sync>(
    rt: &R,
    script: &Script<'_>,
    lanes: &mut [Lane<'_, Watched<'a, R, W>>],
    phase: u32,
    end: u32,
) -> Option<Answer>
    requires few { length lanes.old ≤ 64 }
    requires phase { phase < phases script.now }
    requires end { end ≡ length (lines_before (suc phase) script.now) }
    requires at { (kernel : GateState) × Between script.now kernel phase lanes.old }
    ensures { (kernel : GateState) → Between script.now kernel phase lanes.old → GetsTo script.now kernel (suc phase) lanes.new result }
{
    let parts = parts_of(lanes, phase);
    learn_of_first(lanes, &parts);
    let stop = run_phase(rt, lanes, phase, end);
    first_learns(lanes, &parts);
    stop
}

/// Runs all phases of a script, one after the other, until a call of a lane is stopped. The first lane has then seen all that was made.
fn run_each<'a, W: Watch, R: Threads + Wait + Sync>(
    rt: &R,
    script: &Script<'_>,
    lanes: &mut [Lane<'_, Watched<'a, R, W>>],
) -> Option<Answer>
    requires few { length lanes.old ≤ 64 }
    requires at { (kernel : GateState) × Between script.now kernel 0 lanes.old }
    ensures { (kernel : GateState) → Between script.now kernel 0 lanes.old → GetsTo script.now kernel (phases script.now) lanes.new result }
{
    let mut end = 0;
    for phase in 0..script.phases() {
        end = phase_end(script, end, phase);
        let stop = run_one(rt, script, lanes, phase, end);
        if stop.is_some() {
            return stop;
        }
    }
    None
}

/// Runs all phases of a script, one after the other, until a call of a lane is stopped. `Some` is that stop. At the end the seats of all
/// lanes have seen all that was made.
pub fn run_phases<'a, W: Watch, R: Threads + Wait + Sync>(
    rt: &R,
    script: &Script<'_>,
    lanes: &mut [Lane<'_, Watched<'a, R, W>>],
) -> Option<Answer>
    requires few { length lanes.old ≤ 64 }
    requires at { (kernel : GateState) × AtPhase script.now kernel 0 lanes.old }
    ensures { (kernel : GateState) → AtPhase script.now kernel 0 lanes.old → Runs script.now kernel (phases script.now) lanes.new result }
{
    let stop = run_each(rt, script, lanes);
    learn_of_first(lanes, &[true; 64]);
    stop
}
