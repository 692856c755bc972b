ghost use Rattle.std.{specs.Prelude.{◌≡◌, ◌≤◌, ◌-◌, ◌==◌, length, slice_get, true, None, if◌then◌else◌, IfOk, IsTrue}, proofs.Common.{option_map}};
ghost use Rattle.ix_script.specs.{lines.Before.{form_told, lanes_of, commands}, lines.Roles.{IsHeaderEnd, role_of}, scripts.Need.{need}};
ghost use Rattle.{ix_script.specs.{scripts.Schedule.{LanesOnce, phases, seat_begun, stretches_of}, scripts.Scripts.{config_of, policy_of}}, ix_model.specs.opening.Valid.{is_valid}};

use crate::line::Line;
use crate::packed::Lines;
use crate::plan::config;
use crate::role::Role;
use crate::schedule::{NO_SEAT, Schedule, Stretch};
use ix_label::Form;
use ix_model::{Config, List, Name, NoMemory};
use std::alloc::Global;
use std::marker::Model;

/// A session script: a list of lines, numbered from 1. It borrows its text, and a line is made when it is asked for.
#[derive(Drop)]
pub struct Script<'a> {
    lines: Lines<'a>,
    /// The names of the lanes, in the order in which they first appear.
    lanes: List<Name>,
    schedule: Schedule,
}

impl<'a> Model for Script<'a> {
    ghost use Rattle.std.specs.{Prelude.{List}, Coded.{codes}};
    ghost use Rattle.ix_script.specs.{scripts.Held.{IsSchedule, IsScript}, declared.line.Line.{Line}};
    ghost use Rattle.ix_label.specs.contracts.label.Label as label_type;

    ghost Value = { List Line };

    ghost coded = { Prim.hlevel (codes, label_type.the_row.coded) };

    ghost view = { λ s. s.lines.said };

    ghost invariant = { λ s. IsScript s.lines.said s.lanes × IsSchedule s.schedule s.lines.said s.lanes };
}

impl<'a> Script<'a> {
    /// The script of these lines, whose lanes have these names, and which has about so many phases.
    pub(crate) fn of(
        alloc: Global,
        lines: Lines<'a>,
        lanes: List<Name>,
        phases: usize,
    ) -> Result<Script<'a>, NoMemory>
        requires named { lanes ≡ lanes_of lines.said }
        requires valid { is_valid (config_of lines.said) ≡ true }
        requires few { length lines.said ≤ 16777216 }
        requires few_commands { commands lines.said ≤ 200000 }
        requires few_lanes { length (lanes_of lines.said) ≤ 64 }
        requires once { LanesOnce lines.said }
        ensures { IfOk result (λ s. s ≡ lines.entry.said) }
    {
        let schedule = Schedule::of(alloc, &lines, lanes.as_slice(), phases)?;
        Ok(Script {
            lines,
            lanes,
            schedule,
        })
    }

    /// All lines, in order.
    pub(crate) fn lines(&self) -> &Lines<'a>
        ensures { result.now.said ≡ self.now }
    {
        &self.lines
    }

    /// The line of a number from 1; `None` exactly where there is none. It takes no memory.
    pub fn line(&self, number: u32) -> Option<Line<'a>>
        ensures { result ≡ (if number == 0 then None else slice_get self.now (number - 1)) }
    {
        self.lines.get((number as usize).checked_sub(1)?)
    }

    /// What the line of a number from 1 is for; `None` exactly where there is none. The line isn't made for it.
    pub fn role(&self, number: u32) -> Option<Role>
        ensures { result ≡ option_map role_of (if number == 0 then None else slice_get self.now (number - 1)) }
    {
        self.lines.role((number as usize).checked_sub(1)?)
    }

    /// The seat of the lane that the line of a number from 1 begins; `None` exactly where it begins none.
    #[inline(always)]
    pub fn seat(&self, number: u32) -> Option<u32>
        ensures { result ≡ seat_begun (lanes_of self.now) (if number == 0 then None else slice_get self.now (number - 1)) }
    {
        match self.schedule.seats.get((number as usize).checked_sub(1)?) {
            Some(seat) if *seat != NO_SEAT => Some(u32::from(*seat)),
            _ => None,
        }
    }

    /// How many lanes it has: each stands at most once in a phase.
    pub fn lanes(&self) -> u32
        ensures lanes { result ≡ length (lanes_of self.now) }
        ensures few { result ≤ 64 }
        ensures once { LanesOnce self.now }
    {
        self.lanes.len() as u32
    }

    /// How many phases it has: one at least.
    pub fn phases(&self) -> u32
        ensures { result ≡ phases self.now }
    {
        self.schedule.phases
    }

    /// The stretch of a lane at a place from 0, in the order of the lines; `None` exactly past the last.
    pub fn stretch(&self, seat: u32, n: u32) -> Option<Stretch>
        ensures { result ≡ slice_get (stretches_of self.now seat) n }
    {
        let stretches = self.schedule.stretches.get(seat as usize)?;
        stretches.get(n as usize).copied()
    }

    /// The name of a lane; `None` exactly past the last.
    pub fn lane(&self, seat: u32) -> Option<&[u8]>
        ensures { option_map (λ name. name.now) result ≡ slice_get (lanes_of self.now) seat }
    {
        Some(self.lanes.get(seat as usize)?.as_bytes())
    }

    /// The form in which its labels are spelled: line 1 tells it.
    pub fn form(&self) -> Form
        ensures { result ≡ form_told self.now }
    {
        self.lines.form()
    }

    /// How many lines it has: at most 200,000 of them are commands.
    pub fn len(&self) -> u32
        ensures len { result ≡ length self.now }
        ensures few { commands self.now ≤ 200000 }
    {
        self.lines.len() as u32
    }

    /// The index behind the last line of the header.
    pub fn header_end(&self) -> u32
        ensures { IsHeaderEnd result self.now }
    {
        self.lines.header_end() as u32
    }

    /// What a machine starts from, as the header says it: it is valid, and its journal has room for what [`need`] says. `NoMemory` without room for it.
    pub fn config(&self, alloc: Global) -> Result<Config, NoMemory>
        ensures config { IfOk result (λ c. c ≡ config_of self.now) }
        ensures valid { IfOk result (λ c. IsTrue (is_valid c)) }
    {
        config(alloc, &self.lines)
    }

    /// The number of the policy's line and its text; `None` exactly where there is no policy.
    pub fn policy(&self) -> Option<(u32, &'a [u8])>
        ensures { option_map (λ p. (p.0, p.1.now)) result ≡ policy_of self.now }
    {
        'lines: for index in 0..self.lines.header_end() {
            let Some(line) = self.lines.get(index) else {
                continue;
            };
            match line {
                Line::Policy { text } => return Some((index as u32 + 1, text.as_bytes())),
                _ => continue,
            }
        }
        None
    }
}

/// What the entries of a script's commands cost a journal, at the most: of a command that is one call the call's cost, of
/// `copy` two entries and the bytes that it carries, of `priv` 656 and of `login` 1,168. It is at most 870,400,000.
pub fn need(script: &Script<'_>) -> u64
    ensures { result ≡ need script.now }
{
    script.lines.need()
}
