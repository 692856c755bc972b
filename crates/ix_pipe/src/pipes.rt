ghost use Rattle.std.specs.Prelude.{◌≡◌, ◌-◌, ◌<◌, ◌≤◌, ◌++◌, length, take, drop, min, IsTrue, is_some, IfOk, replicate, if◌then◌else◌};
ghost use Rattle.std.proofs.Common.{option_map};
ghost use Rattle.ix_model.specs.world.World.{at, put, change, lowest_free};
ghost use Rattle.ix_pipe.specs.Pipe.{Pipe, most, waiting_at, fits_at, with_fewer, with_more, with_label, with_claim, made, IsBounded};
ghost use Rattle.ix_pipe.specs.Claims.{claimant_of, claim_answer, claimed};

use crate::claim::Claim;
use crate::queue::PipeFull;
use crate::slot::Slot;
use ix_label::Label;
use ix_model::{NoMemory, Pid};
use ix_numbers::Numbers;
use std::alloc::Global;
use std::marker::Model;

/// Pipes by number. A new one takes the lowest free number.
///
/// All memory is taken by [`new`](Pipes::new): 8 KiB and a little more for each number. Each call but [`lives`](Pipes::lives)
/// that names a pipe asks that it is there, and that an end is 0 or 1. A call changes the pipe that it names and nothing else.
#[derive(Drop)]
pub struct Pipes {
    slots: Vec<Slot>,
    /// Which numbers are free.
    numbers: Numbers,
}

impl Model for Pipes {
    ghost use Rattle.std.specs.{Prelude.{◌≡◌, List, Option}, Coded.{codes}};
    ghost use Rattle.ix_numbers.specs.Marks.{vacancies};
    ghost use Rattle.ix_pipe.specs.Pipe.{Pipe};
    ghost use Rattle.ix_label.specs.contracts.label.Label as label_type;

    ghost Value = { List (Option Pipe) };

    ghost coded = { Prim.hlevel (codes, label_type.the_row.coded) };

    ghost view = { λ m. m.slots.items };

    ghost invariant = { λ m. m.numbers ≡ vacancies m.slots.items };
}

impl Pipes {
    /// So many numbers, 0 and up, all free.
    ///
    /// It takes all memory that there will be, and answers `NoMemory` where there is not so much. It costs a step for
    /// each number.
    pub fn new(alloc: Global, pipes: u32) -> Result<Pipes, NoMemory>
        ensures { IfOk result (λ m. m ≡ replicate pipes None) }
    {
        let mut slots = Vec::with_capacity(alloc, pipes as usize)?;
        let numbers = Numbers::new(alloc, pipes)?;
        for _n in 0..pipes {
            slots.push(Slot::new(alloc)?)?;
        }
        Ok(Pipes { slots, numbers })
    }

    /// The lowest free number; `None` exactly where none is free. Constant time.
    pub fn vacant(&self) -> Option<u32>
        ensures { result ≡ lowest_free self.now }
    {
        self.numbers.first()
    }

    /// A new pipe under the lowest free number; `None`, with no change, exactly where none is free. It is empty and
    /// unclaimed, and its label is bottom. It costs the logarithm of the number of free ones.
    pub fn make(&mut self) -> Option<u32>
        ensures number { result ≡ lowest_free self.old }
        ensures made { self.new ≡ made result self.old }
    {
        let pipe = self.numbers.take()?;
        self.slots[pipe as usize].begin();
        Some(pipe)
    }

    /// Lets a pipe go, with its bytes and its claims: its number is free from then on. It costs the logarithm of the number
    /// of free ones.
    pub fn free(&mut self, pipe: u32)
        requires { IsTrue (is_some (at self.old pipe)) }
        ensures { self.new ≡ put self.old pipe None }
    {
        self.slots[pipe as usize].end();
        self.numbers.give(pipe);
    }

    /// Whether a pipe stands at the number.
    pub fn lives(&self, pipe: u32) -> bool
        ensures { result ≡ is_some (at self.now pipe) }
    {
        match self.slots.get(pipe as usize) {
            Some(slot) => slot.lives(),
            None => false,
        }
    }

    /// The label of a pipe.
    pub fn label(&self, pipe: u32) -> Label
        requires { IsTrue (is_some (at self.now pipe)) }
        ensures { option_map (λ p. p.label) (at self.now pipe) ≡ Some result }
    {
        self.slots[pipe as usize].label()
    }

    /// Sets the label of a pipe.
    pub fn set_label(&mut self, pipe: u32, label: Label)
        requires { IsTrue (is_some (at self.old pipe)) }
        ensures { self.new ≡ change self.old pipe (with_label label) }
    {
        self.slots[pipe as usize].set_label(label);
    }

    /// Takes the first bytes that an end can read into the front of `out`, as many as there are and it holds, and
    /// answers their number; the rest of `out` stays. The cost is that of the bytes taken.
    pub fn read(&mut self, pipe: u32, end: u8, out: &mut [u8]) -> usize
        requires lives { IsTrue (is_some (at self.old pipe)) }
        requires end { end < 2 }
        ensures count { result ≡ min (length out.old) (length (waiting_at self.old pipe end)) }
        ensures out { out.new ≡ take result (waiting_at self.old pipe end) ++ drop result out.old }
        ensures rest { self.new ≡ change self.old pipe (with_fewer end result) }
    {
        self.slots[pipe as usize].read(end, out)
    }

    /// Writes bytes through an end: the other end reads them, after all that waits there. `PipeFull`, with no change,
    /// exactly where what waits there and the bytes are more than 4,096 together. The cost is that of the bytes.
    pub fn write(&mut self, pipe: u32, end: u8, bytes: &[u8]) -> Result<(), PipeFull>
        requires lives { IsTrue (is_some (at self.old pipe)) }
        requires end { end < 2 }
        ensures room { result ≡ (if fits_at self.old pipe (1 - end) bytes.now then Ok tt else Err (record {})) }
        ensures bytes { self.new ≡ (if fits_at self.old pipe (1 - end) bytes.now then change self.old pipe (with_more (1 - end) bytes.now) else self.old) }
    {
        self.slots[pipe as usize].append(1 - end, bytes)
    }

    /// How many bytes an end can read: 0 to 4,096.
    pub fn left(&self, pipe: u32, end: u8) -> u32
        requires lives { IsTrue (is_some (at self.now pipe)) }
        requires end { end < 2 }
        ensures left { result ≡ length (waiting_at self.now pipe end) }
        ensures few { result ≤ most }
    {
        self.slots[pipe as usize].left(end) as u32
    }

    /// Claims an end for a process. Where another process has it, that one is told, and nothing changes. Else the
    /// end is the process's, and the answer tells who has the other end, if anybody has: the path is whole then. The
    /// claim that makes it whole lets all bytes of both directions go; one that finds it whole already changes nothing.
    pub fn claim(&mut self, pipe: u32, end: u8, pid: Pid) -> Claim
        requires lives { IsTrue (is_some (at self.old pipe)) }
        requires end { end < 2 }
        ensures answer { result ≡ claim_answer pid.0 (claimant_of end (at self.old pipe)) (claimant_of (1 - end) (at self.old pipe)) }
        ensures claimed { self.new ≡ change self.old pipe (claimed end pid.0 (claimant_of end (at self.old pipe)) (claimant_of (1 - end) (at self.old pipe))) }
    {
        self.slots[pipe as usize].claim(end, pid)
    }

    /// Ends the claim on an end, whoever has it. Where there is none nothing changes.
    pub fn unclaim(&mut self, pipe: u32, end: u8)
        requires lives { IsTrue (is_some (at self.old pipe)) }
        requires end { end < 2 }
        ensures { self.new ≡ change self.old pipe (with_claim end None) }
    {
        self.slots[pipe as usize].unclaim(end);
    }

    /// Who has claimed an end; `None` where nobody has.
    pub fn claimant(&self, pipe: u32, end: u8) -> Option<Pid>
        requires lives { IsTrue (is_some (at self.now pipe)) }
        requires end { end < 2 }
        ensures { option_map (λ p. p.0) result ≡ claimant_of end (at self.now pipe) }
    {
        self.slots[pipe as usize].claimant(end)
    }

    /// Does nothing: its contract is the law that a pipe has two claims, and at most 4,096 bytes in each direction.
    pub fn lemma_is_bounded(&self, pipe: u32)
        requires { IsTrue (is_some (at self.now pipe)) }
        ensures { (p : Pipe) → at self.now pipe ≡ Some p → IsBounded p }
    {
        self.slots[pipe as usize].lemma_is_bounded();
    }
}
