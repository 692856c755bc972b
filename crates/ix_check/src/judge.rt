ghost use Rattle.std.{specs.Prelude.{◌≡◌, ◌≢◌, ℕ, List, [], IfOk, OnOk, length, true, false, ◌⊎◌}, proofs.Common.{option_map}};
ghost use Rattle.ix_model.specs.{world.{Naming.{same_bytes}, World.{World}}, history.History.{world_of}};
ghost use Rattle.ix_script.specs.scripts.Scripts.{config_of};
ghost use Rattle.ix_replay.specs.report.Fixed.{LanesNamed};
ghost use Rattle.ix_asking.specs.Asking.{Answered};
ghost use Rattle.ix_judging.specs.{Lanes.{State}, Walk.{closed, closes, ended, makes, told_call, walked}};
ghost use Rattle.ix_judging.specs.Walk as walk;
ghost use Rattle.ix_check.specs.{Plans.{begun, judged_plan}, Stepping.{lane_now}, Judging.{AreLeft, CameTo, IsAmong, IsAt, IsCalled, Walked, verdict_of}};
ghost use Rattle.ix_check.specs.Verdicts.{IsVerdict};
ghost use Rattle.ix_lanes.specs.{asking.Ruled.{rules_told}, histories.Serial.{header_of}};
ghost use Rattle.ix_check.specs.declared.stage.Stage.TheVariants as stage;

use crate::lane::{LaneSteps, all_from, all_over, first_lanes, print_call};
use crate::lines::first_line;
use crate::printer::Printer;
use crate::stage::Stage;
use crate::told::told_seat;
use crate::verdict::Verdict;
use ix_core::Core;
use ix_lanes::{Bindings, LaneCalls};
use ix_model::{Buf, NoMemory};
use ix_policy::Policy;
use ix_replay::{Closing, Next};
use ix_report::head;
use ix_script::Script;
use std::alloc::Global;

/// What judges a text that claims to be a report of a script, line by line. It makes the calls of the script's lanes in the order that the
/// text tells.
#[derive(Drop)]
pub struct Judge<'a, L> {
    core: Core,
    lanes: Vec<L>,
    /// It has the script, and the line that should stand where one is looked at.
    printer: Printer<'a>,
    /// What the calls read.
    buf: Buf,
    stage: Stage,
}

impl<'a> Judge<'a, LaneCalls<'a>> {
    /// One of a script, with its header and its policy, if it has one, and a core that has no entries, which has looked at nothing. It takes
    /// all the memory that a text's judging needs, but for lines longer than 32,768 bytes.
    pub fn new(
        alloc: Global,
        script: &'a Script<'a>,
        header: &'a Bindings<u32>,
        policy: Option<&'a Policy>,
        core: Core,
    ) -> Result<Judge<'a, LaneCalls<'a>>, NoMemory>
        requires named { LanesNamed script.now }
        requires header { header.now ≡ header_of script.now }
        requires policy { option_map (λ p. p.now) policy ≡ rules_told script.now }
        requires core { core ≡ record { config = config_of script.now; events = [] } }
        ensures script { IfOk result (λ judge. judge.printer.script.now ≡ script.now) }
        ensures begins { IfOk result (λ judge. IsAt lane_now script.now judge walk.Begins) }
    {
        let lanes = first_lanes(alloc, script, header, policy)?;
        Ok(Judge {
            core,
            lanes,
            printer: Printer::new(alloc, script)?,
            buf: [0; 4096],
            stage: Stage::Begins,
        })
    }
}

/// The seat of the lane that a line names, where it has the turn.
fn called<L: LaneSteps>(script: &Script<'_>, core: &Core, lanes: &[L], line: &[u8]) -> Option<u32>
    ensures { (state : State World (List Answered)) → IsAmong L.at script.now core.now lanes.now state
        → IsCalled L.at lanes.now (told_call (judged_plan script.now) state line.now) result }
{
    let Some(seat) = told_seat(script, core.len() + 1, line) else {
        return None;
    };
    let Some(lane) = lanes.get(seat as usize) else {
        return None;
    };
    let Some(phase) = lane.phase() else {
        return None;
    };
    if all_from(lanes, phase) {
        Some(seat)
    } else {
        None
    }
}

/// How many processes there were.
fn processes(core: &Core) -> u32
    ensures { result ≡ length (world_of core.now).frame.processes }
{
    core.next_pid().0
}

/// Whether a line is the one that was printed, where one was.
fn is_said(printed: &[u8], line: &[u8]) -> bool
    ensures there { result ≡ true → printed.now ≢ [] }
    ensures same { result ≡ true → same_bytes printed.now line.now ≡ true }
    ensures other { result ≡ false → (printed.now ≡ []) ⊎ (same_bytes printed.now line.now ≡ false) }
{
    if printed.is_empty() {
        return false;
    }
    printed == line
}

impl<L: LaneSteps> Judge<'_, L> {
    /// Looks at a line behind the head or an entry, where a lane has a call left.
    fn look_at_entry(&mut self, line: &[u8]) -> Result<(), NoMemory>
        requires stage { self.old.stage ≡ stage.Entries }
        requires came { (state : State World (List Answered)) × CameTo L.at self.old.printer.script.now self.old state }
        ensures script { self.new.printer.script.now ≡ self.old.printer.script.now }
        ensures walks { let s = self.old.printer.script.now in (state : State World (List Answered)) → CameTo L.at s self.old state
            → OnOk result (IsAt L.at s self.new (makes (judged_plan s) (length self.old.core.events) state line.now (told_call (judged_plan s) state line.now))) }
    {
        let number = u64::from(self.core.len()) + 2;
        let lanes = self.lanes.as_slice();
        let Some(seat) = called(self.printer.script, &self.core, lanes, line) else {
            self.stage = Stage::Fails(number);
            return Ok(());
        };
        let lane = &mut self.lanes[seat as usize];
        let (core, printer) = (&mut self.core, &mut self.printer);
        print_call(lane, core, seat, printer, &mut self.buf)?;
        if self.printer.line.as_slice() != line {
            self.stage = Stage::Fails(number);
        }
        Ok(())
    }

    /// Looks at a line of this number behind all entries, where this closes next.
    fn look_at_closing(&mut self, next: Next, number: u64, line: &[u8]) -> Result<(), NoMemory>
        requires left { (left : List (List ℕ)) × AreLeft self.old.printer.script.now self.old.core next number left }
        ensures script { self.new.printer.script.now ≡ self.old.printer.script.now }
        ensures walks { let s = self.old.printer.script.now in (left : List (List ℕ)) → AreLeft s self.old.core next number left
            → OnOk result (IsAt L.at s self.new (closes (judged_plan s) number (length self.old.core.events) left line.now)) }
    {
        self.printer.line.clear();
        let mut closing = Closing::at(self.printer.script.form(), &self.core, next);
        closing.tell_line(&mut self.printer.line)?;
        let after = closing.next();
        if !is_said(self.printer.line.as_slice(), line) {
            self.stage = Stage::Fails(number);
            return Ok(());
        }
        self.stage = Stage::Closing(after, number + 1);
        Ok(())
    }

    /// Looks at the first line.
    fn look_at_head(&mut self, line: &[u8]) -> Result<(), NoMemory>
        requires fresh { self.old.core.events ≡ [] }
        requires came { CameTo L.at self.old.printer.script.now self.old (begun self.old.printer.script.now) }
        ensures script { self.new.printer.script.now ≡ self.old.printer.script.now }
        ensures walks { let s = self.old.printer.script.now in OnOk result (IsAt L.at s self.new (walked (judged_plan s) (begun s) walk.Begins line.now)) }
    {
        let form = self.printer.script.form();
        self.printer.line.clear();
        head(&mut self.printer.line, form)?;
        if self.printer.line.as_slice() != line {
            self.stage = Stage::Fails(1);
            return Ok(());
        }
        self.stage = Stage::Entries;
        Ok(())
    }

    /// Looks at a line behind the head or an entry.
    fn look_behind(&mut self, line: &[u8]) -> Result<(), NoMemory>
        requires stage { self.old.stage ≡ stage.Entries }
        requires came { (state : State World (List Answered)) × CameTo L.at self.old.printer.script.now self.old state }
        ensures script { self.new.printer.script.now ≡ self.old.printer.script.now }
        ensures walks { let s = self.old.printer.script.now in (state : State World (List Answered)) → CameTo L.at s self.old state
            → OnOk result (IsAt L.at s self.new (walked (judged_plan s) (begun s) (walk.Entries (length self.old.core.events) state) line.now)) }
    {
        if !all_over(self.lanes.as_slice()) {
            return self.look_at_entry(line);
        }
        let number = u64::from(self.core.len()) + 2;
        // These are numbers of 32 bits, so those of the closing lines are far below the end of their type.
        let _counts = (
            self.core.objects(),
            processes(&self.core),
            self.core.log_len(),
        );
        self.look_at_closing(Next::Head, number, line)
    }

    /// Looks at the next line of the text, with its line feed. `NoMemory` where there was none to print what should stand there:
    /// the judge isn't gone on with then.
    pub fn line(&mut self, line: &[u8]) -> Result<(), NoMemory>
        requires { (before : Walked) × IsAt L.at self.old.printer.script.now self.old before }
        ensures script { self.new.printer.script.now ≡ self.old.printer.script.now }
        ensures walks { let s = self.old.printer.script.now in (before : Walked) → IsAt L.at s self.old before
            → OnOk result (IsAt L.at s self.new (walked (judged_plan s) (begun s) before line.now)) }
    {
        match self.stage {
            Stage::Begins => self.look_at_head(line),
            Stage::Entries => self.look_behind(line),
            Stage::Closing(next, number) => self.look_at_closing(next, number, line),
            Stage::Fails(_) => Ok(()),
        }
    }

    /// What is answered where the text ends, by whether nothing stands behind its last line feed.
    pub fn end(&self, whole: bool) -> Verdict
        requires { (before : Walked) × IsAt L.at self.now.printer.script.now self.now before }
        ensures { let s = self.now.printer.script.now in (before : Walked) → IsAt L.at s self.now before
            → verdict_of result ≡ ended (judged_plan s) before whole }
    {
        match self.stage {
            Stage::Begins => Verdict::No(1),
            Stage::Entries => Verdict::No(u64::from(self.core.len()) + 2),
            Stage::Closing(next, number) => self.end_of_closing(next, number, whole),
            Stage::Fails(number) => Verdict::No(number),
        }
    }

    /// The same behind all entries, where this closes next on a line of this number.
    fn end_of_closing(&self, next: Next, number: u64, whole: bool) -> Verdict
        requires { (left : List (List ℕ)) × AreLeft self.now.printer.script.now self.now.core next number left }
        ensures { (left : List (List ℕ)) → AreLeft self.now.printer.script.now self.now.core next number left
            → verdict_of result ≡ closed number (length self.now.core.events) left whole }
    {
        let closing = Closing::at(self.printer.script.form(), &self.core, next);
        if whole && closing.is_told() {
            return Verdict::Yes(self.core.len());
        }
        Verdict::No(number)
    }

    /// What is answered of a text, to whose end it is looked at. It asks that nothing was looked at before, and answers `NoMemory`
    /// as [`line`](Judge::line) does.
    pub fn text(&mut self, text: &[u8]) -> Result<Verdict, NoMemory>
        requires { IsAt L.at self.old.printer.script.now self.old walk.Begins }
        ensures { IfOk result (λ verdict. IsVerdict self.old.printer.script.now text.now (verdict_of verdict)) }
    {
        let mut rest = text;
        'lines: loop {
            let Some((line, more)) = first_line(rest) else {
                return Ok(self.end(rest.is_empty()));
            };
            self.line(line)?;
            rest = more;
        }
    }
}
