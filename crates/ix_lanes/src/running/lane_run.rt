ghost use Rattle.std.specs.Prelude.{◌≡◌};

use crate::asking::bindings::Bindings;
use crate::running::lane_calls::LaneCalls;
use ix_asking::run;
use ix_model::{Answer, Buf, NoMemory, Sys};
use ix_policy::Policy;
use ix_script::Script;
use std::alloc::Global;
use std::marker::Model;

/// A run of one lane of a script, phase by phase, on whatever makes its calls. Contracts see the script and the lane, how many
/// phases it has done, whether it stands between two of them, and what each name after `as` stands for.
#[derive(Drop)]
pub struct LaneRun<'a> {
    script: &'a Script<'a>,
    calls: LaneCalls<'a>,
    done: u32,
    /// What its calls read.
    read: Buf,
}

impl<'a> Model for LaneRun<'a> {
    ghost use Rattle.std.specs.Coded.{codes};
    ghost use Rattle.ix_label.specs.contracts.label.Label as label_type;
    ghost use Rattle.ix_lanes.specs.{asking.Asked.{names_code}, running.{Fields.{IsRun}, Left.{asks_left, is_done, names_done}, Runs.{Ran}}};

    ghost Value = { Ran };

    ghost coded = { Prim.hlevel (codes, label_type.the_row.coded, names_code) };

    ghost view = { λ r. record { script = r.script.now; lane = r.calls.seat; done = r.done; between = is_done (asks_left r.calls); names = names_done (asks_left r.calls) } };

    ghost invariant = { λ r. IsRun r.script.now r.done r.calls };
}

impl<'a> LaneRun<'a> {
    ghost use Rattle.std.{specs.Prelude.{◌≡◌, ◌+◌, ◌<◌, suc, true, [], length, IfOk, IfSome, IfNone}, proofs.Common.{option_map}};
    ghost use mathlib.Core.List.{IsPrefix};
    ghost use Rattle.ix_model.specs.history.Systems.{one_more};
    ghost use Rattle.ix_script.specs.{lines.Before.{lanes_of}, scripts.Schedule.{phases}};
    ghost use Rattle.ix_lanes.specs.{asking.{Asked.{no_names}, Ruled.{rules_told}}, histories.Serial.{header_of}};
    ghost use Rattle.ix_lanes.specs.running.{Phases.{lines_before}, Runs.{CutOff, StandsFor}, Stretches.{HasNone, TellsPart}};

    /// A run of the lane of a number, which has done no phase, by the script's header and its policy, if it has one. It takes all the memory
    /// that the run needs.
    pub fn new(
        alloc: Global,
        script: &'a Script<'a>,
        lane: u32,
        header: &'a Bindings<u32>,
        policy: Option<&'a Policy>,
    ) -> Result<LaneRun<'a>, NoMemory>
        requires lane { lane < length (lanes_of script.now) }
        requires header { header.now ≡ header_of script.now }
        requires policy { option_map (λ p. p.now) policy ≡ rules_told script.now }
        ensures new { IfOk result (λ run. run ≡ record { script = script.now; lane = lane; done = 0; between = true; names = no_names }) }
        ensures stands { IfOk result (λ run. StandsFor run []) }
    {
        let calls = LaneCalls::new(alloc, script, lane, header, policy)?;
        Ok(LaneRun {
            script,
            calls,
            done: 0,
            read: [0; 4096],
        })
    }

    /// Whether the lane has a line in its next phase, which is that of a number. It takes few steps, however many lines there are.
    pub fn takes_part(&self, phase: u32) -> bool
        ensures { self.now.between ≡ true → phase ≡ self.now.done → TellsPart self.now.script self.now.lane phase result }
    {
        self.calls.has_lines_in(phase)
    }

    /// Runs the lines of the lane in its next phase. `None`: they are all done. `Some` is the stop of one of their calls: of the
    /// lines' calls those before it were made, and no more are. After it the run isn't gone on with. It takes no memory.
    ///
    /// It asks that `phase`, from 0, is the one behind those that are done, and one of the script's, and `end` the index of the first line
    /// behind it; and that the system is that of the lane's seat, and has made the calls of the phases that are done, and no others. Where
    /// the lane has no line in the phase, the system stays as it is.
    pub fn phase<S: Sys>(&mut self, sys: &mut S, phase: u32, end: u32) -> Option<Answer>
        requires next { phase ≡ self.old.done }
        requires phase { phase < phases self.old.script }
        requires end { end ≡ length (lines_before (suc phase) self.old.script) }
        requires seat { S.seat sys.old ≡ self.old.lane }
        requires stands { StandsFor self.old (S.made sys.old) }
        ensures same { (self.new.script ≡ self.old.script) × (self.new.lane ≡ self.old.lane) }
        ensures done { IfNone result ((self.new.done ≡ suc self.old.done) × StandsFor self.new (S.made sys.new)) }
        ensures cut { IfSome result (λ stop. CutOff self.old (S.made sys.new) stop) }
        ensures no_stop { IfNone result (S.stops sys.new ≡ S.stops sys.old) }
        ensures stop { IfSome result (λ stop. (S.stops sys.new ≡ one_more (S.stops sys.old)) × (stop ≡ S.stopped sys.new)) }
        ensures made { IsPrefix (S.made sys.old) (S.made sys.new) }
        ensures seat { S.seat sys.new ≡ S.seat sys.old }
        ensures follows { S.follows sys.old sys.new }
        ensures idle { HasNone self.old.script self.old.lane self.old.done → sys.new ≡ sys.old }
    {
        let _count = self.script.len();
        self.calls.ask_to(end);
        if self.calls.next_phase().is_none() {
            self.done = phase + 1;
            return None;
        }
        match run(sys, &mut self.calls, &mut self.read) {
            Ok(()) => {
                self.done = phase + 1;
                None
            }
            Err(stop) => Some(stop.answer()),
        }
    }
}
