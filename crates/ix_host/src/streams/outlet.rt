//! Lines on their way out.
ghost use Rattle.std.{specs.Prelude.{◌≡◌, ℕ, ◌++◌, [], List, Option, None, IfOk, OnOk, true}, proofs.Common.{is_ok}};
ghost use Rattle.ix_host.specs.run.Outcome as outcome;
ghost use Rattle.ix_host.specs.run.{Run.{Ends}, Outlet.{StandsAt, failed_as}};

use crate::status::Status;
use crate::streams::stream::{write_all, write_piece};
use ix_io::{Failed, Sink};
use ix_model::NoMemory;
use std::alloc::Global;

/// How many bytes are gathered before they are written.
const PIECE: usize = 65_536;

/// How much room there is for the line that comes last in a piece; a longer one takes more memory.
const LAST_LINE: usize = 16_384;

/// What keeps a text from being told further.
#[derive(Clone, Copy, Debug, PartialEq, Eq)]
pub enum Failure {
    /// A write failed.
    Write,
    /// There was no memory for a line.
    Memory,
}

impl Failure {
    /// How a run ends after it.
    fn status(self) -> Status
        ensures { result ≡ failed_as self }
    {
        match self {
            Failure::Write => Status::WriteFault,
            Failure::Memory => Status::NoMemory,
        }
    }
}

/// Memory for what is gathered; `NoMemory` where there is none.
pub fn room(alloc: Global) -> Result<Vec<u8>, NoMemory>
    ensures { IfOk result (λ waiting. waiting.items ≡ []) }
{
    match Vec::with_capacity(alloc, PIECE + LAST_LINE) {
        Ok(waiting) => Ok(waiting),
        Err(_) => Err(NoMemory),
    }
}

/// Writes what waits, where that is enough. What kept it from that, if anything did.
pub fn write_full<K: Sink>(sink: &mut K, waiting: &mut Vec<u8>) -> Option<Failure>
    ensures { (first : Option (List ℕ)) (rest text : List ℕ) (before : ℕ)
        → StandsAt None first (K.taken sink.old) (waiting.old.items ++ rest) text before (K.faults sink.old)
        → StandsAt result first (K.taken sink.new) (waiting.new.items ++ rest) text before (K.faults sink.new) }
{
    if waiting.len() < PIECE {
        return None;
    }
    match write_piece(sink, waiting.as_slice()) {
        Ok(()) => {
            waiting.clear();
            None
        }
        Err(Failed) => Some(Failure::Write),
    }
}

/// Goes on once a line was put behind what waits, or there was no memory for it. What keeps it from going on further, if anything does.
pub fn told<K: Sink>(
    sink: &mut K,
    waiting: &mut Vec<u8>,
    line: Result<(), NoMemory>,
) -> Option<Failure>
    ensures ok { result ≡ None → is_ok line ≡ true }
    ensures stands { (first : Option (List ℕ)) (left rest text : List ℕ) (before : ℕ)
        → StandsAt None first (K.taken sink.old) left text before (K.faults sink.old)
        → OnOk line (waiting.old.items ++ rest ≡ left)
        → StandsAt result first (K.taken sink.new) (waiting.new.items ++ rest) text before (K.faults sink.new) }
{
    match line {
        Ok(()) => write_full(sink, waiting),
        Err(NoMemory) => Some(Failure::Memory),
    }
}

/// Writes what waits, unless there was a failure, and finishes.
pub fn finish<K: Sink>(sink: &mut K, waiting: &[u8], failure: Option<Failure>) -> Status
    ensures { (first : Option (List ℕ)) (text : List ℕ) (before : ℕ)
        → StandsAt failure first (K.taken sink.old) waiting.now text before (K.faults sink.old)
        → Ends (outcome.Whole text) result first (K.taken sink.new) (K.finished sink.new) before (K.faults sink.new) }
{
    match failure {
        Some(failure) => failure.status(),
        None => match write_all(sink, waiting) {
            Ok(()) => Status::Done,
            Err(Failed) => Status::WriteFault,
        },
    }
}
