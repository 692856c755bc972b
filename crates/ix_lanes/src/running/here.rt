ghost use Rattle.std.{specs.Prelude.{◌≡◌, ℕ, ◌+◌, ◌≤◌, ◌<◌, true, false, length}, proofs.Common.{option_map}};
ghost use Rattle.ix_lanes.specs.{asking.{LineAsks.{lines_ask}, Places.{KeepsPlaces, standing}, Ruled.{rules_told}}, histories.Serial.{header_of}};
ghost use Rattle.ix_lanes.specs.{running.Fields.{all_placed}, running.Left.{IsHere, left_from, part_most}, running.Phases.{lane_among, lane_between}};
ghost use Rattle.ix_lanes.specs.running.Stretches.{IsAmong, stands_in, steps_to};

use crate::asking::bindings::Bindings;
use crate::asking::calls::bind;
use crate::asking::handed::Handed;
use crate::asking::places::Places;
use crate::lines::{line_at, role_at};
use crate::running::beginning::begin;
use crate::running::part::Part;
use ix_asking::Copying;
use ix_model::Buf;
use ix_policy::Policy;
use ix_script::laws::lanes_are_stretches;
use ix_script::{Line, Script, Stretch};

/// Where a lane stands in its script.
#[derive(Drop)]
pub struct Here<'a> {
    /// The index of the line in which it stands, or of its end.
    pub at: u32,
    /// The last of its stretches to which it has come.
    pub stretch: Stretch,
    /// To how many of its stretches it has come.
    pub come: u32,
    /// The line itself.
    pub line: Line<'a>,
}

impl<'a> Here<'a> {
    /// Goes past the line.
    pub fn pass(&mut self)
        requires within { self.old.at < self.old.stretch.end }
        ensures at { self.new.at ≡ self.old.at + 1 }
        ensures same { (self.new.stretch ≡ self.old.stretch) × (self.new.come ≡ self.old.come) }
        ensures line { self.new.line ≡ self.old.line }
    {
        let _end = self.stretch.end;
        self.at += 1;
    }

    /// Goes on to the lane's next stretch, or to an end where none begins before it.
    fn go_on(&mut self, script: &Script<'_>, lane: u32, end: u32)
        requires behind { self.old.stretch.end ≤ self.old.at }
        requires within { (self.old.at < end) × (end ≤ length script.now) }
        requires among { IsAmong script.now lane self.old.at self.old.stretch self.old.come }
        ensures within { (self.old.at ≤ self.new.at) × (self.new.at ≤ end) }
        ensures idle { (i : ℕ) → self.old.at ≤ i → i < self.new.at → stands_in script.now lane i ≡ false }
        ensures among { IsAmong script.now lane self.new.at self.new.stretch self.new.come }
        ensures fewer { steps_to script.now lane end self.new.at self.new.come < steps_to script.now lane end self.old.at self.old.come }
    {
        lanes_are_stretches();
        let _count = script.len();
        let Some(stretch) = script.stretch(lane, self.come) else {
            self.at = end;
            return;
        };
        if end <= stretch.first {
            self.at = end;
            return;
        }
        self.at = stretch.first;
        self.stretch = stretch;
        self.come += 1;
    }

    /// Goes on to the next line of a lane that asks for a call, up to an end, and begins it. Lines that ask for none are done on the way,
    /// and none of another lane is looked at.
    pub fn find(
        &mut self,
        script: &'a Script<'a>,
        lane: u32,
        policy: Option<&'a Policy>,
        header: &Bindings<u32>,
        places: &mut Places,
        written: &mut Buf,
        copying: &mut Copying,
        begun: &mut Part<'a>,
        end: u32,
    )
        requires header { header.now ≡ header_of script.now }
        requires policy { option_map (λ p. p.now) policy ≡ rules_told script.now }
        requires within { (self.old.at ≤ end) × (end ≤ length script.now) }
        requires among { IsAmong script.now lane self.old.at self.old.stretch self.old.come }
        requires places { all_placed places.old (lane_among script.now lane script.now) ≡ true }
        ensures left { left_from script.now lane end self.new.at (standing places.new) self.new.line copying.new begun.new
            ≡ lines_ask (rules_told script.now) (header_of script.now) (standing places.old) (lane_between script.now lane self.old.at end) }
        ensures here { IsHere script.now lane end self.new.at self.new.stretch self.new.come (standing places.new) self.new.line written.new copying.new begun.new }
        ensures later { self.old.at ≤ self.new.at }
        ensures most { part_most copying.new begun.new ≤ 9 }
        ensures keeps { KeepsPlaces places.old places.new }
    {
        'lines: while self.at < end {
            if self.stretch.end <= self.at {
                self.go_on(script, lane, end);
            } else {
                let role = role_at(script, self.at);
                self.line = line_at(script, self.at);
                let (number, line) = (self.at + 1, &self.line);
                begin(
                    policy, header, places, number, role, line, written, copying, begun,
                );
                if !matches!(begun, Part::Over) {
                    return;
                }
                bind(places, line, &Handed::Nothing);
                self.pass();
            }
        }
        *begun = Part::Over;
    }
}
