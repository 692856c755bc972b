ghost use Rattle.std.specs.Prelude.{◌≡◌, ◌-◌, ◌<◌, ◌≤◌, [], ◌++◌, length, take, drop, min, false, IsTrue, is_some, IfOk, if◌then◌else◌};
ghost use Rattle.std.{specs.Option.{option_map_or}, proofs.Common.{option_map}};
ghost use Rattle.ix_pipe.specs.Pipe.{Pipe, most, new_pipe, waiting, fits, with_fewer, with_more, with_label, with_claim, IsBounded};
ghost use Rattle.ix_pipe.specs.Claims.{claimant_of, claim_answer, claimed, claimed_with, emptied};

use crate::claim::Claim;
use crate::queue::{PipeFull, Queue};
use ix_label::Label;
use ix_model::{NoMemory, Pid};
use std::alloc::Global;
use std::marker::Model;

/// The place of one pipe, with the memory for its bytes, whether a pipe stands there or not.
#[derive(Drop)]
pub struct Slot {
    lives: bool,
    label: Label,
    claims: [Option<Pid>; 2],
    /// What end 0 can read.
    first: Queue,
    /// What end 1 can read.
    second: Queue,
}

impl Model for Slot {
    ghost use Rattle.std.specs.{Prelude.{◌≡◌, length, Option}, Coded.{codes}};
    ghost use Rattle.ix_pipe.specs.{Pipe.{Pipe}, Slots.{shown}};
    ghost use Rattle.ix_label.specs.contracts.label.Label as label_type;

    ghost Value = { Option Pipe };

    ghost coded = { Prim.hlevel (codes, label_type.the_row.coded) };

    ghost view = { λ s. shown s.lives s.label s.claims s.first s.second };

    ghost invariant = { λ s. length s.claims ≡ 2 };
}

impl Slot {
    /// A place without a pipe. `NoMemory` where there is none for the bytes of both directions.
    pub fn new(alloc: Global) -> Result<Slot, NoMemory>
        ensures { IfOk result (λ s. s ≡ None) }
    {
        Ok(Slot {
            lives: false,
            label: Label::bottom(),
            claims: [None; 2],
            first: Queue::new(alloc)?,
            second: Queue::new(alloc)?,
        })
    }

    /// Makes a new pipe here.
    pub fn begin(&mut self)
        ensures { self.new ≡ Some new_pipe }
    {
        self.lives = true;
        self.label = Label::bottom();
        self.claims = [None; 2];
        self.empty();
    }

    /// Lets the pipe go.
    pub fn end(&mut self)
        ensures { self.new ≡ None }
    {
        self.lives = false;
    }

    /// Whether a pipe stands here.
    pub fn lives(&self) -> bool
        ensures { result ≡ is_some self.now }
    {
        self.lives
    }

    /// The label, where a pipe stands here.
    pub fn label(&self) -> Label
        requires { IsTrue (is_some self.now) }
        ensures { option_map (λ p. p.label) self.now ≡ Some result }
    {
        self.label
    }

    /// Sets the label.
    pub fn set_label(&mut self, label: Label)
        ensures { self.new ≡ option_map (with_label label) self.old }
    {
        self.label = label;
    }

    /// How many bytes an end can read.
    pub fn left(&self, end: u8) -> usize
        requires { IsTrue (is_some self.now) }
        ensures left { result ≡ option_map_or (λ p. length (waiting end p)) self.now 0 }
        ensures few { result ≤ most }
    {
        if end == 0 {
            self.first.len()
        } else {
            self.second.len()
        }
    }

    /// Takes the first bytes that an end can read into the front of `out`.
    pub fn read(&mut self, end: u8, out: &mut [u8]) -> usize
        requires { IsTrue (is_some self.old) }
        ensures count { result ≡ min (length out.old) (length (option_map_or (waiting end) self.old [])) }
        ensures out { out.new ≡ take result (option_map_or (waiting end) self.old []) ++ drop result out.old }
        ensures rest { self.new ≡ option_map (with_fewer end result) self.old }
    {
        if end == 0 {
            self.first.take_into(out)
        } else {
            self.second.take_into(out)
        }
    }

    /// Puts bytes at the end of what an end can read. `PipeFull`, with no change, exactly where they don't fit there.
    pub fn append(&mut self, end: u8, bytes: &[u8]) -> Result<(), PipeFull>
        requires { IsTrue (is_some self.old) }
        ensures room { result ≡ (if option_map_or (fits end bytes.now) self.old false then Ok tt else Err (record {})) }
        ensures bytes { self.new ≡ (if option_map_or (fits end bytes.now) self.old false then option_map (with_more end bytes.now) self.old else self.old) }
    {
        if end == 0 {
            self.first.append(bytes)
        } else {
            self.second.append(bytes)
        }
    }

    /// Who has an end.
    pub fn claimant(&self, end: u8) -> Option<Pid>
        requires lives { IsTrue (is_some self.now) }
        requires end { end < 2 }
        ensures { option_map (λ p. p.0) result ≡ claimant_of end self.now }
    {
        self.claims[end as usize]
    }

    /// Claims an end for a process.
    pub fn claim(&mut self, end: u8, pid: Pid) -> Claim
        requires lives { IsTrue (is_some self.old) }
        requires end { end < 2 }
        ensures answer { result ≡ claim_answer pid.0 (claimant_of end self.old) (claimant_of (1 - end) self.old) }
        ensures claimed { self.new ≡ option_map (claimed end pid.0 (claimant_of end self.old) (claimant_of (1 - end) self.old)) self.old }
    {
        let holder = self.claims[end as usize];
        let other = self.claims[1 - end as usize];
        if let Some(holder) = holder {
            if holder != pid {
                return Claim::Held(holder);
            }
        } else {
            self.begin_claim(end, pid, other);
        }
        match other {
            Some(other) => Claim::Whole(other),
            None => Claim::Half,
        }
    }

    /// Gives an end that nobody has to a process; a path that becomes whole by it is emptied.
    fn begin_claim(&mut self, end: u8, pid: Pid, other: Option<Pid>)
        requires { end < 2 }
        ensures { self.new ≡ option_map (λ p. claimed_with (option_map (λ q. q.0) other) (with_claim end (Some pid.0) p)) self.old }
    {
        self.claims[end as usize] = Some(pid);
        if other.is_some() {
            self.empty();
        }
    }

    /// Lets all bytes of both directions go.
    fn empty(&mut self)
        ensures { self.new ≡ option_map emptied self.old }
    {
        self.first.clear();
        self.second.clear();
    }

    /// Ends the claim on an end, if there is one.
    pub fn unclaim(&mut self, end: u8)
        requires { end < 2 }
        ensures { self.new ≡ option_map (with_claim end None) self.old }
    {
        self.claims[end as usize] = None;
    }

    /// Does nothing: its contract is the law that a pipe has two claims, and directions of bounded length.
    pub fn lemma_is_bounded(&self)
        ensures { (p : Pipe) → self.now ≡ Some p → IsBounded p }
    {
        let _first = self.first.len();
        let _second = self.second.len();
    }
}
