//! The one history to which the lanes of a script come.
ghost use Rattle.std.{specs.Prelude.{◌≡◌, ◌<◌, ◌≤◌, List, length, IfOk, IfSome, IfNone}, proofs.Common.{option_map}};
ghost use Rattle.ix_kernel.specs.Systems.{FilledUp};
ghost use Rattle.ix_lanes.specs.{asking.Ruled.{rules_told}, histories.{Serial.{header_of}, History.{IsHistory}}};
ghost use Rattle.ix_model.specs.history.Events.{Event};
ghost use Rattle.ix_script.specs.{lines.Before.{lanes_of}, scripts.Scripts.{config_of}, declared.line.Line.{Line}};
ghost use Rattle.ix_parallel.specs.{Joining.{AllFilled, AllSee, Joined, StandsForAll}, Seats.{AreNew, AtPhase}};

use crate::phases::run_phases;
use crate::watch::{Watch, Watched};
use ix_core::Core;
use ix_kernel::{KSeat, Kernel};
use ix_lanes::{Bindings, Lane, LaneRun, header_of};
use ix_model::{Answer, NoMemory};
use ix_policy::Policy;
use ix_script::Script;
use std::alloc::Global;
use std::sync::Wait;
use std::thread::Threads;

/// A run of each lane by the script's header and its policy, with the seat of the lane's number.
fn seated<'a, W, R>(
    rt: &'a R,
    alloc: Global,
    script: &'a Script<'a>,
    header: &'a Bindings<u32>,
    policy: Option<&'a Policy>,
    kernel: &'a Kernel,
    seats: Vec<KSeat>,
    watch: &'a W,
) -> Result<Vec<Lane<'a, Watched<'a, R, W>>>, NoMemory>
    requires header { header.now ≡ header_of script.now }
    requires policy { option_map (λ p. p.now) policy ≡ rules_told script.now }
    requires some { 0 < length (lanes_of script.now) }
    requires few { length (lanes_of script.now) ≤ 64 }
    requires seats { AreNew kernel.now (config_of script.now) (length (lanes_of script.now)) seats.items }
    ensures { IfOk result (λ lanes. AtPhase script.now kernel.now 0 lanes.items) }
{
    let mut lanes = Vec::new(alloc);
    let mut number = 0;
    for seat in seats {
        let run = LaneRun::new(alloc, script, number, header, policy)?;
        let sys = Watched::new(kernel, seat, number, rt, watch);
        if lanes.push(Lane { run, sys }).is_err() {
            return Err(NoMemory);
        }
        number += 1;
    }
    Ok(lanes)
}

/// The seat of a lane.
fn seat_of<R, W>(lane: Lane<'_, Watched<'_, R, W>>) -> KSeat
    ensures seat { result ≡ lane.entry.sys.seat }
    ensures last { 0 < lane.entry.sys.stops → FilledUp lane.entry.sys.used lane.entry.sys.cap lane.entry.sys.seat }
{
    let Lane { sys, .. } = lane;
    sys.into_seat()
}

/// The seat of the first lane, into which those of all others were joined. `None` where there are no lanes.
fn join_all<R, W>(kernel: &Kernel, lanes: Vec<Lane<'_, Watched<'_, R, W>>>) -> Option<KSeat>
    requires { (s : List Line) × (history : List Event) × AllSee s kernel.now history lanes.items }
    ensures joined { (s : List Line) (history : List Event) → AllSee s kernel.now history lanes.entry.items
        → IfSome result (λ seat. Joined s kernel.now history (length lanes.entry.items) seat) }
    ensures last { IfSome result (λ seat. AllFilled lanes.entry.items) }
    ensures none { IfNone result (length lanes.entry.items ≡ 0) }
{
    let mut rest = lanes.into_iter();
    let mut first = seat_of(rest.next()?);
    for lane in rest {
        first.join(kernel, seat_of(lane));
    }
    Some(first)
}

/// Runs the lanes, each with a seat of the kernel. The seat that is left has seen the history to which they came, unless a call was
/// stopped.
fn run_seats<W: Watch, R: Threads + Wait + Sync>(
    rt: &R,
    alloc: Global,
    script: &Script<'_>,
    policy: Option<&Policy>,
    kernel: &Kernel,
    seats: Vec<KSeat>,
    watch: &W,
) -> Result<(KSeat, Option<Answer>), NoMemory>
    requires policy { option_map (λ p. p.now) policy ≡ rules_told script.now }
    requires some { 0 < length (lanes_of script.now) }
    requires few { length (lanes_of script.now) ≤ 64 }
    requires kernel { kernel.now.seats ≡ length (lanes_of script.now) }
    requires seats { AreNew kernel.now (config_of script.now) (length (lanes_of script.now)) seats.items }
    ensures { IfOk result (λ r. StandsForAll script.now kernel.now r.0 r.1) }
{
    let header = header_of(alloc, script)?;
    let mut lanes = seated(rt, alloc, script, &header, policy, kernel, seats, watch)?;
    let stop = run_phases(rt, script, lanes.as_mut_slice());
    match join_all(kernel, lanes) {
        Some(seat) => Ok((seat, stop)),
        None => unreachable!(),
    }
}

/// The core of a kernel, once all lanes have run and their seats were joined into this one. Its journal had room for all their calls.
fn close(script: &Script<'_>, kernel: Kernel, seat: KSeat, stop: Option<Answer>) -> Core
    requires { StandsForAll script.now kernel seat stop }
    ensures config { result.config ≡ config_of script.now }
    ensures history { IsHistory script.now result.events }
{
    let core = kernel.close(seat);
    if stop.is_some() {
        unreachable!();
    }
    core
}

/// Runs the lanes of a script by its policy, if it has one, each with a seat of its own at one kernel: those of a phase side by side
/// where threads can be started, and the next phase once all of them have ended. The core that is left has the history that came about.
///
/// Each lane tells the watch of each of its calls before it makes it, and holds no turn then. `NoMemory`: there is no memory for the core,
/// the kernel or the runs of the lanes, and no core is handed back.
pub fn run_history<W: Watch, R: Threads + Wait + Sync>(
    rt: &R,
    alloc: Global,
    script: &Script<'_>,
    policy: Option<&Policy>,
    watch: &W,
) -> Result<Core, NoMemory>
    requires policy { option_map (λ p. p.now) policy ≡ rules_told script.now }
    ensures config { IfOk result (λ core. core.config ≡ config_of script.now) }
    ensures history { IfOk result (λ core. IsHistory script.now core.events) }
{
    let core = Core::boot(alloc, script.config(alloc)?)?;
    let count = script.lanes();
    if count == 0 {
        return Ok(core);
    }
    let (kernel, seats) = Kernel::new(alloc, core, count)?;
    let (seat, stop) = run_seats(rt, alloc, script, policy, &kernel, seats, watch)?;
    Ok(close(script, kernel, seat, stop))
}
