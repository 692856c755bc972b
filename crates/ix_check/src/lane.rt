ghost use Rattle.std.{specs.{Prelude.{◌≡◌, true, is_none, is_some, IfOk, OnOk}, List.{list_all}}, proofs.Common.{option_map}};
ghost use Rattle.ix_model.specs.history.Seats.{made_by};
ghost use Rattle.ix_core.specs.Seen.{GoesSeen};
ghost use Rattle.ix_lanes.specs.{asking.Ruled.{rules_told}, histories.Serial.{header_of}};
ghost use Rattle.ix_check.specs.{Judging.{AreFirst}, Stepping.{lane_now, HasRoom, MakesCall, PrintsCall, is_from, next_call, next_phase}};

use crate::printer::Printer;
use ix_asking::make_next;
use ix_core::{Core, SeenSys, Witness};
use ix_lanes::{Bindings, LaneCalls};
use ix_model::{Answer, Buf, NoMemory, Sys};
use ix_policy::Policy;
use ix_script::Script;
use std::alloc::Global;

/// A lane of a script that makes one call at a time, on whatever makes its calls.
pub trait LaneSteps {
    ghost use Rattle.std.specs.Prelude.{IfNone, IfSome};
    ghost use Rattle.ix_model.specs.history.Systems.{one_more};
    ghost use Rattle.ix_check.specs.Stepping.{LaneAt, StopsCall};

    /// Its script and seat, and what it has still to ask for.
    ghost at: { Self → LaneAt };

    /// The phase of its next call, where it makes one more.
    fn phase(&self) -> Option<u32>
        ensures { result ≡ next_phase (at self.now) };

    /// Makes its next call, with a buffer for what is read. `Some` is a stop: nothing was made.
    fn step<S: Sys>(&mut self, sys: &mut S, buf: &mut Buf) -> Option<Answer>
        requires call { is_some (next_call (at self.old)) ≡ true }
        requires seat { S.seat sys.old ≡ (at self.old).seat }
        ensures made { IfNone result (MakesCall (at self.old) (at self.new) (S.made sys.old) (S.made sys.new)) }
        ensures stop { IfSome result (λ stop. StopsCall (at self.old) (at self.new) (S.made sys.old) (S.made sys.new) stop) }
        ensures stops { IfSome result (λ stop. (S.stops sys.new ≡ one_more (S.stops sys.old)) × (stop ≡ S.stopped sys.new)) }
        ensures seat { S.seat sys.new ≡ S.seat sys.old }
        ensures follows { S.follows sys.old sys.new };
}

impl LaneSteps for LaneCalls<'_> {
    ghost use Rattle.ix_check.specs.Stepping.{lane_now};

    ghost at = { lane_now };

    fn phase(&self) -> Option<u32> {
        self.next_phase()
    }

    fn step<S: Sys>(&mut self, sys: &mut S, buf: &mut Buf) -> Option<Answer> {
        match make_next(sys, self, buf) {
            Ok(_) => None,
            Err(stop) => Some(stop.answer()),
        }
    }
}

/// The lanes of a script by seats, none of which has made a call, by the script's header and its policy, if it has one. `NoMemory` where
/// there was none for them.
pub fn first_lanes<'a>(
    alloc: Global,
    script: &'a Script<'a>,
    header: &'a Bindings<u32>,
    policy: Option<&'a Policy>,
) -> Result<Vec<LaneCalls<'a>>, NoMemory>
    requires header { header.now ≡ header_of script.now }
    requires policy { option_map (λ p. p.now) policy ≡ rules_told script.now }
    ensures { IfOk result (λ lanes. AreFirst lane_now script.now lanes.items) }
{
    let mut lanes = Vec::new(alloc);
    for seat in 0..script.len() {
        let Some(_name) = script.lane(seat) else {
            return Ok(lanes);
        };
        let lane = LaneCalls::whole(alloc, script, seat, header, policy)?;
        if lanes.push(lane).is_err() {
            return Err(NoMemory);
        }
    }
    Ok(lanes)
}

/// Makes the next call of a lane on a core, before a witness.
fn make_call<L: LaneSteps, W: Witness>(
    lane: &mut L,
    core: &mut Core,
    seat: u32,
    witness: &mut W,
    buf: &mut Buf,
)
    requires call { is_some (next_call (L.at lane.old)) ≡ true }
    requires seat { seat ≡ (L.at lane.old).seat }
    requires room { HasRoom (L.at lane.old) core.old }
    ensures made { MakesCall (L.at lane.old) (L.at lane.new) (made_by seat core.old) (made_by seat core.new) }
    ensures on { GoesSeen W.knows seat core.old witness.old core.new witness.new }
{
    let mut sys = SeenSys::new(core, seat, witness);
    match lane.step(&mut sys, buf) {
        None => {}
        Some(_) => unreachable!(),
    }
}

/// Makes the next call of a lane on a core, and has its line printed. `NoMemory` where there was none for the line: neither the core
/// nor the lane is used again then.
pub fn print_call<L: LaneSteps>(
    lane: &mut L,
    core: &mut Core,
    seat: u32,
    printer: &mut Printer<'_>,
    buf: &mut Buf,
) -> Result<(), NoMemory>
    requires call { is_some (next_call (L.at lane.old)) ≡ true }
    requires seat { seat ≡ (L.at lane.old).seat }
    requires room { HasRoom (L.at lane.old) core.old }
    ensures script { printer.new.script.now ≡ printer.old.script.now }
    ensures made { OnOk result (PrintsCall printer.old.script.now (L.at lane.old) (L.at lane.new) core.old core.new printer.new.line.items) }
{
    printer.wait(core);
    make_call(lane, core, seat, printer, buf);
    if printer.failed {
        return Err(NoMemory);
    }
    Ok(())
}

/// Whether a lane has no call left.
fn is_over<L: LaneSteps>(lane: &L) -> bool
    ensures { result ≡ is_none (next_call (L.at lane.now)) }
{
    lane.phase().is_none()
}

/// Whether no lane has a call left.
pub fn all_over<L: LaneSteps>(lanes: &[L]) -> bool
    ensures { result ≡ list_all (λ l. is_none (next_call (L.at l))) lanes.now }
{
    for lane in lanes {
        if !is_over(lane) {
            return false;
        }
    }
    true
}

/// Whether a lane has no call left in an earlier phase.
fn is_from<L: LaneSteps>(lane: &L, phase: u32) -> bool
    ensures { result ≡ is_from phase (next_phase (L.at lane.now)) }
{
    match lane.phase() {
        Some(other) => phase <= other,
        None => true,
    }
}

/// Whether no lane has a call left in an earlier phase.
pub fn all_from<L: LaneSteps>(lanes: &[L], phase: u32) -> bool
    ensures { result ≡ list_all (λ l. is_from phase (next_phase (L.at l))) lanes.now }
{
    for lane in lanes {
        if !is_from(lane, phase) {
            return false;
        }
    }
    true
}
