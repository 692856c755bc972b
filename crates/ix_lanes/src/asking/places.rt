ghost use Rattle.std.specs.Prelude.{◌≡◌, OnOk, true};
ghost use Rattle.std.specs.FinMap as map;
ghost use Rattle.ix_script.specs.lines.Before.{listed};
ghost use Rattle.ix_lanes.specs.asking.{Asked.{fd_of, keep_of, no_names, pid_of}, Places.{given, has_all, has_places, KeepsNames, KeepsPlaces, standing}};

use crate::asking::bindings::Bindings;
use ix_model::{Fd, Keep, NoMemory, Pid};
use ix_script::{FdWord, KeepWord, Line, NameWord};
use std::alloc::Global;

/// What the names of a lane stand for. Each name has a place, which is found beforehand, and in which a number stands once a line
/// has given it one.
#[derive(Drop)]
pub struct Places {
    pub procs: Bindings<Option<u32>>,
    pub fds: Bindings<Option<u8>>,
}

/// Finds a name its place, if it has none yet.
fn add_name<N: Copy>(names: &mut Bindings<Option<N>>, name: &NameWord<'_>) -> Result<(), NoMemory>
    ensures same { given names.new ≡ given names.old }
    ensures place { OnOk result (map.contains_key names.new name.now ≡ true) }
    ensures keeps { KeepsNames names.old names.new }
{
    if names.get(name).is_some() {
        return Ok(());
    }
    names.set(name, None)
}

/// Finds a name, if there is one, its place.
fn add_one<N: Copy>(
    names: &mut Bindings<Option<N>>,
    name: &Option<NameWord<'_>>,
) -> Result<(), NoMemory>
    ensures same { given names.new ≡ given names.old }
    ensures place { OnOk result (has_all names.new (listed name.now) ≡ true) }
    ensures keeps { KeepsNames names.old names.new }
{
    match name {
        Some(name) => add_name(names, name),
        None => Ok(()),
    }
}

impl Places {
    /// No names.
    pub fn new(alloc: Global) -> Places
        ensures { standing result ≡ no_names }
    {
        Places {
            procs: Bindings::new(alloc),
            fds: Bindings::new(alloc),
        }
    }

    /// Finds the names that a line gives their places. Each name stands for what it stood for, also after `NoMemory`, where there was
    /// none for a place.
    #[tactic(auto, unfolding(crate::specs::asking::Places::has_places))]
    pub fn add(&mut self, line: &Line<'_>) -> Result<(), NoMemory>
        ensures same { standing self.new ≡ standing self.old }
        ensures places { OnOk result (has_places self.new line.now ≡ true) }
        ensures keeps { KeepsPlaces self.old self.new }
    {
        match line {
            Line::Open { named, .. } => add_one(&mut self.fds, named),
            Line::Dup { named, .. } => add_one(&mut self.fds, named),
            Line::Pipe {
                named: Some((first, second)),
                ..
            } => {
                add_name(&mut self.fds, first)?;
                add_name(&mut self.fds, second)
            }
            Line::Fork { named, .. } => add_one(&mut self.procs, named),
            Line::Login { named, .. } => add_one(&mut self.procs, named),
            _ => Ok(()),
        }
    }

    /// The process of a name: one of the header, or one that the lane gave.
    #[inline(always)]
    pub fn pid(&self, header: &Bindings<u32>, name: &NameWord<'_>) -> Pid
        ensures { result.0 ≡ pid_of header.now (standing self.now) name.now }
    {
        match self.procs.get(name).flatten() {
            Some(pid) => Pid(pid),
            None => Pid(header.get(name).unwrap_or(0)),
        }
    }

    /// The descriptor that a word says.
    pub fn fd(&self, word: &FdWord<'_>) -> Fd
        ensures { result.0 ≡ fd_of (standing self.now) word.now }
    {
        match word {
            FdWord::Number(n) => Fd(*n),
            FdWord::Named(name) => Fd(self.fds.get(name).flatten().unwrap_or(255)),
        }
    }

    /// Which descriptors a child gets.
    pub fn keep(&self, word: &KeepWord<'_>) -> Keep
        ensures { result ≡ keep_of (standing self.now) word.now }
    {
        match word {
            KeepWord::All => Keep::All,
            KeepWord::Nothing => Keep::Nothing,
            KeepWord::One(fd) => Keep::One(self.fd(fd)),
        }
    }
}
