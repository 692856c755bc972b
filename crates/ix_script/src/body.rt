ghost use Rattle.std.specs.{Prelude.{◌≡◌, ◌++◌, ◌∷◌, ◌+◌, ◌<◌, ◌≤◌, ◌^◌, [], true, List, length, IsTrue, OnOk, if◌then◌else◌}, List.{list_all}};
ghost use Rattle.{ix_text.specs.Names.{is_script_name}, ix_script.specs.{declared.line.Line.{Line}, lines.Before.{is_known, is_command}, reader.Told.{BodyTold, is_next, phase_lanes_in}}};

use crate::index::Given;
use crate::line::Line;
use crate::role::is_command;
use crate::values::NameWord;
use ix_model::{List, Name, NoMemory};
use ix_text::is;
use std::alloc::Global;

pub(crate) fn is_known(word: &[u8], names: &[Name]) -> bool
    ensures { result ≡ is_known word.now names.now }
{
    names.iter().any(|known| is(word, known.as_bytes()))
}

/// What the lines so far tell of phases and lanes.
#[derive(Drop)]
pub(crate) struct Body<'a> {
    pub started: bool,
    /// The lane in which the next line stands.
    pub lane: Option<&'a [u8]>,
    /// With so many of the script's lanes the phase begins, in their order.
    pub in_order: usize,
    /// The other lanes of the phase so far.
    pub others: List<Name>,
    /// The lanes of the script, in the order in which they first appear.
    pub lanes: List<Name>,
    /// The names of descriptors that stand after `as`.
    pub fds: Given<'a>,
    /// The names of processes that stand after `as`.
    pub procs: Given<'a>,
    pub commands: u32,
    pub phases: usize,
}

fn add_name(lanes: &mut List<Name>, name: &NameWord<'_>) -> Result<(), NoMemory>
    ensures lanes { OnOk result (lanes.new ≡ (if is_known name.now lanes.old then lanes.old else lanes.old ++ name.now ∷ [])) }
    ensures named { OnOk result (list_all is_script_name lanes.old ≡ true → list_all is_script_name lanes.new ≡ true) }
{
    if is_known(name.as_bytes(), lanes.as_slice()) {
        Ok(())
    } else {
        lanes.push(name.name())
    }
}

impl<'a> Body<'a> {
    /// The lanes and commands of a script of which no line was read yet.
    #[tactic(auto, unfolding(crate::specs::lines::Before::in_body, crate::specs::lines::Before::lane_now, crate::specs::lines::Before::phase_lanes, crate::specs::lines::Before::lanes_of, crate::specs::lines::Before::fds_given, crate::specs::lines::Before::procs_given, crate::specs::lines::Before::commands))]
    pub fn new(alloc: Global) -> Body<'a>
        ensures { BodyTold result [] }
    {
        Body {
            started: false,
            lane: None,
            in_order: 0,
            others: List::new(alloc),
            lanes: List::new(alloc),
            fds: Given::new(alloc),
            procs: Given::new(alloc),
            commands: 0,
            phases: 0,
        }
    }

    /// Whether the phase has the first of the script's lanes in their order, and the name is that of the next.
    pub fn is_next(&self, name: &[u8]) -> bool
        ensures next { result ≡ is_next self.now name.now }
        ensures few { IsTrue result → self.now.in_order + 1 < 2 ^ 64 }
    {
        self.others.len() == 0
            && self.in_order < self.lanes.len()
            && is(name, self.lanes.as_slice()[self.in_order].as_bytes())
    }

    /// Whether a lane of that name stands in the phase so far.
    pub fn has_lane(&self, name: &[u8]) -> bool
        requires { self.now.in_order ≤ length self.now.lanes }
        ensures { result ≡ is_known name.now (phase_lanes_in self.now) }
    {
        is_known(name, &self.lanes.as_slice()[..self.in_order])
            || is_known(name, self.others.as_slice())
    }

    /// One line more. After an error the body isn't used.
    pub fn add(&mut self, alloc: Global, line: &Line<'a>) -> Result<(), NoMemory>
        requires { self.old.commands + 1 < 2 ^ 32 }
        ensures { OnOk result ((lines : List Line) → BodyTold self.old lines → BodyTold self.new (lines ++ line.now ∷ [])) }
    {
        self.commands += u32::from(is_command(line));
        match line {
            Line::Phase => {
                self.phases = self.phases.saturating_add(1);
                self.started = true;
                self.lane = None;
                self.in_order = 0;
                self.others = List::new(alloc);
                Ok(())
            }
            Line::Lane { name } => {
                self.lane = Some(name.as_bytes());
                add_name(&mut self.lanes, name)?;
                if self.is_next(name.as_bytes()) {
                    self.in_order += 1;
                    return Ok(());
                }
                self.others.push(name.name())
            }
            Line::Open { named, .. } => self.fds.add(self.lane, named.as_ref()),
            Line::Dup { named, .. } => self.fds.add(self.lane, named.as_ref()),
            Line::Pipe { named, .. } => match named {
                Some((first, second)) => {
                    self.fds.add(self.lane, Some(first))?;
                    self.fds.add(self.lane, Some(second))
                }
                None => Ok(()),
            },
            Line::Fork { named, .. } => self.procs.add(self.lane, named.as_ref()),
            Line::Login { named, .. } => self.procs.add(self.lane, named.as_ref()),
            _ => Ok(()),
        }
    }
}
