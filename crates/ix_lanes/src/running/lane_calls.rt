ghost use Rattle.std.{specs.Prelude.{◌≡◌, ◌≤◌, ◌<◌, true, length, take, IfOk, OnOk}, proofs.Common.{option_map}};
ghost use Rattle.ix_script.specs.{lines.Before.{lanes_of}, scripts.Schedule.{stretch_lines}};
ghost use Rattle.ix_lanes.specs.asking.{Asked.{no_names}, Places.{KeepsPlaces, standing}, Ruled.{rules_told}};
ghost use Rattle.ix_lanes.specs.running.{Fields.{all_placed}, Phases.{lane_among, seat_at}};

use crate::asking::bindings::Bindings;
use crate::asking::calls::{bind, call_of};
use crate::asking::places::Places;
use crate::lines::{line_at, role_at};
use crate::running::hearing::heard;
use crate::running::here::Here;
use crate::running::part::Part;
use crate::running::phases::has_part;
use ix_asking::{Asks, Copying, Step};
use ix_model::{Buf, Call, NoMemory, Reply};
use ix_policy::Policy;
use ix_script::laws::lanes_are_stretches;
use ix_script::{Line, Role, Script, Stretch};
use std::alloc::Global;
use std::marker::Model;

/// Finds the names that the lines of a stretch give their places. Of the lines only those that may give names are made.
fn add_stretch(places: &mut Places, script: &Script<'_>, stretch: Stretch) -> Result<(), NoMemory>
    ensures same { OnOk result (standing places.new ≡ standing places.old) }
    ensures keeps { OnOk result (KeepsPlaces places.old places.new) }
    ensures all { OnOk result (all_placed places.new (stretch_lines script.now stretch) ≡ true) }
{
    for index in stretch.first..stretch.end.min(script.len()) {
        if matches!(role_at(script, index), Role::Naming | Role::Server) {
            places.add(&line_at(script, index))?;
        }
    }
    Ok(())
}

/// The places of all names that the lines of a lane give. No line of another lane is looked at.
pub(crate) fn places_of(alloc: Global, script: &Script<'_>, lane: u32) -> Result<Places, NoMemory>
    ensures none { IfOk result (λ places. standing places ≡ no_names) }
    ensures all { IfOk result (λ places. all_placed places (lane_among script.now lane script.now) ≡ true) }
{
    lanes_are_stretches();
    let mut places = Places::new(alloc);
    for n in 0..script.len() {
        let Some(stretch) = script.stretch(lane, n) else {
            return Ok(places);
        };
        add_stretch(&mut places, script, stretch)?;
    }
    Ok(places)
}

/// A lane of a script: what its lines ask for up to an end, one call at a time. Contracts see the script and the lane's seat, what its names
/// stand for, and what is left.
#[derive(Drop)]
pub struct LaneCalls<'a> {
    script: &'a Script<'a>,
    policy: Option<&'a Policy>,
    lane: u32,
    /// That of the script, which all its lanes share.
    header: &'a Bindings<u32>,
    places: Places,
    here: Here<'a>,
    /// What the line in which it stands has still to ask for.
    part: Part<'a>,
    /// The index of the first line that it doesn't ask for.
    end: u32,
    /// What a command writes.
    written: Buf,
    /// What a `copy` asks for.
    copying: Copying,
}

impl<'a> Model for LaneCalls<'a> {
    ghost use Rattle.std.{specs.Coded.{codes}, proofs.Common.{option_map}};
    ghost use Rattle.ix_label.specs.contracts.label.Label as label_type;
    ghost use Rattle.ix_lanes.specs.{asking.{Asked.{names_code}, Places.{KeepsPlaces, standing}}, running.{Fields.{AreFields}, Left.{IsHere, LaneLeft}}};

    ghost Value = { LaneLeft };

    ghost coded = { Prim.hlevel (codes, label_type.the_row.coded, names_code) };

    ghost view = { λ c. record { script = c.script.now; seat = c.lane; names = standing c.places; at = c.here.at; end = c.end; copying = c.copying; part = c.part } };

    ghost invariant = { λ c. AreFields c.script.now c.lane c.header.now c.places (option_map (λ p. p.now) c.policy)
        × IsHere c.script.now c.lane c.end c.here.at c.here.stretch c.here.come (standing c.places) c.here.line c.written c.copying c.part };
}

impl<'a> LaneCalls<'a> {
    ghost use Rattle.ix_lanes.specs.{histories.{Lanes.{lane_asks}, Serial.{header_of}}, asking.{Asked.{no_names}, LineAsks.{lines_ask}, Ruled.{rules_told}}};
    ghost use Rattle.ix_lanes.specs.{running.Left.{asks_left, is_done, names_done, next_phase, place_of}, running.Phases.{lane_between, lines_before}};
    ghost use Rattle.ix_lanes.specs.running.Stretches.{TellsPart};
    ghost use Rattle.std.{specs.Prelude.{◌≡◌, ◌≤◌, ◌<◌, true, length, IfOk}, proofs.Common.{option_map}};
    ghost use Rattle.ix_script.specs.lines.Before.{lanes_of};
    ghost use Rattle.ix_asking.specs.{Asking.{Done, came_as, first}, Steps.{next_of}};
    ghost use Rattle.ix_lanes.specs.declared.running.part.Part.TheVariants as part;

    /// The lane of a number before its first line, by the script's header and its policy, if it has one. It asks for nothing yet. It takes
    /// all the memory that its calls need.
    pub fn new(
        alloc: Global,
        script: &'a Script<'a>,
        lane: u32,
        header: &'a Bindings<u32>,
        policy: Option<&'a Policy>,
    ) -> Result<LaneCalls<'a>, NoMemory>
        requires lane { lane < length (lanes_of script.now) }
        requires header { header.now ≡ header_of script.now }
        requires policy { option_map (λ p. p.now) policy ≡ rules_told script.now }
        ensures place { IfOk result (λ calls. place_of calls ≡ record { script = script.now; seat = lane; end = 0 }) }
        ensures asks { IfOk result (λ calls. asks_left calls ≡ Done no_names) }
    {
        let places = places_of(alloc, script, lane)?;
        let stretch = Stretch {
            phase: 0,
            first: 0,
            end: 0,
        };
        let here = Here {
            at: 0,
            stretch,
            come: 0,
            line: Line::Skipped,
        };
        Ok(LaneCalls {
            script,
            policy,
            lane,
            header,
            places,
            here,
            part: Part::Over,
            end: 0,
            written: [0; 4096],
            copying: Copying::new(),
        })
    }

    /// The lane of a number, which asks for all its lines. It takes all the memory that its calls need.
    pub fn whole(
        alloc: Global,
        script: &'a Script<'a>,
        lane: u32,
        header: &'a Bindings<u32>,
        policy: Option<&'a Policy>,
    ) -> Result<LaneCalls<'a>, NoMemory>
        requires lane { lane < length (lanes_of script.now) }
        requires header { header.now ≡ header_of script.now }
        requires policy { option_map (λ p. p.now) policy ≡ rules_told script.now }
        ensures place { IfOk result (λ calls. place_of calls ≡ record { script = script.now; seat = lane; end = length script.now }) }
        ensures asks { IfOk result (λ calls. asks_left calls ≡ lane_asks script.now lane) }
    {
        let mut calls = LaneCalls::new(alloc, script, lane, header, policy)?;
        calls.ask_to(script.len());
        Ok(calls)
    }

    /// Where it asks for nothing more, it asks for its lines up to a later end. It takes no memory.
    pub fn ask_to(&mut self, end: u32)
        requires done { is_done (asks_left self.old) ≡ true }
        requires within { (self.old.end ≤ end) × (end ≤ length self.old.script) }
        ensures place { place_of self.new ≡ record { script = self.old.script; seat = self.old.seat; end = end } }
        ensures asks { asks_left self.new ≡ lines_ask (rules_told self.old.script) (header_of self.old.script) (names_done (asks_left self.old)) (lane_between self.old.script self.old.seat self.old.end end) }
    {
        self.end = end;
        self.here.find(
            self.script,
            self.lane,
            self.policy,
            self.header,
            &mut self.places,
            &mut self.written,
            &mut self.copying,
            &mut self.part,
            end,
        );
    }

    /// The call of the command in which it stands, which writes so many bytes.
    fn command(&self, count: usize) -> Step<'_, ()>
        requires stands { self.now.part ≡ part.Command count }
        ensures { next_of result ≡ came_as (λ names. tt) (first (asks_left self.now)) }
    {
        let _count = self.script.len();
        let (line, written) = (&self.here.line, &self.written[..count]);
        let (number, mut call) = (self.here.at + 1, Call::MakePipe);
        let (header, places) = (self.header, &self.places);
        match call_of(header, places, self.lane, number, line, written, &mut call) {
            Some(caller) => Step::Call {
                line: caller.line,
                pid: caller.pid,
                call,
            },
            None => unreachable!(),
        }
    }

    /// Whether the lane has a line in a phase, where it stands before that.
    pub(crate) fn has_lines_in(&self, phase: u32) -> bool
        ensures { is_done (asks_left self.now) ≡ true → self.now.end ≡ length (lines_before phase self.now.script) → TellsPart self.now.script self.now.seat phase result }
    {
        has_part(self.script, self.lane, self.here.come, phase)
    }

    /// The index of the first line that it doesn't ask for.
    pub fn end(&self) -> u32
        ensures { result ≡ self.now.end }
    {
        self.end
    }

    /// The phase in which it makes its next call, counted from 0. `None` exactly where it asks for nothing more.
    pub fn next_phase(&self) -> Option<u32>
        ensures { result ≡ next_phase self.now.script (first (asks_left self.now)) }
    {
        match self.part {
            Part::Over => None,
            _ => Some(self.here.stretch.phase),
        }
    }
}

impl Asks for LaneCalls<'_> {
    ghost use Rattle.ix_lanes.specs.{asking.Asked.{Names}, running.Left.{LanePlace, asks_left, most_left, place_of}};

    type Came = ();

    ghost End = { Names };

    ghost came = { λ names. tt };

    ghost Kept = { LanePlace };

    ghost kept = { place_of };

    ghost asking = { asks_left };

    ghost most = { most_left };

    fn next(&self) -> Step<'_, ()> {
        let step = match &self.part {
            Part::Over => return Step::Came(()),
            Part::Command(count) => return self.command(*count),
            Part::Copy => return self.copying.next(),
            Part::Priv(server) => server.next(),
            Part::Login(server) => server.next(),
        };
        match step {
            Step::Call { line, pid, call } => Step::Call { line, pid, call },
            Step::Came(_) => unreachable!(),
        }
    }

    fn hear(&mut self, reply: &Reply, bytes: &[u8]) {
        let Some(handed) = heard(&mut self.part, &mut self.copying, reply, bytes) else {
            return;
        };
        bind(&mut self.places, &self.here.line, &handed);
        self.here.pass();
        self.here.find(
            self.script,
            self.lane,
            self.policy,
            self.header,
            &mut self.places,
            &mut self.written,
            &mut self.copying,
            &mut self.part,
            self.end,
        );
    }
}
