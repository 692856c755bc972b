//! The one line of a refusal, or of an image's fault.
ghost use Rattle.ix_host.specs.run.Outcome as outcome;
ghost use Rattle.ix_host.specs.run.{Outcome.{too_long_for}, Run.{Ends}};

use crate::arguments::command::Command;
use crate::refusals::rules::{image_fault, refusal, too_long_line};
use crate::status::Status;
use crate::streams::sending::tell;
use ix_io::Sink;
use ix_model::NoMemory;
use std::alloc::Global;

/// The most bytes that an image has: where there is one more, that stands at this place.
const LONGEST: u64 = 671_088_640;

/// The rule of an image that it isn't too long.
const TOO_LONG: u8 = 9;

/// Writes the one line of a refusal.
pub fn refuse<K: Sink>(alloc: Global, sink: &mut K, line: u32, rule: u8) -> Status
    ensures { Ends (outcome.Refused line rule) result (K.taken sink.old) (K.taken sink.new) (K.finished sink.new)
        (K.faults sink.old) (K.faults sink.new) }
{
    match refusal(alloc, line, rule) {
        Ok(text) => tell(sink, text.as_slice(), Status::Script { line, rule }),
        Err(NoMemory) => Status::NoMemory,
    }
}

/// Writes the one line of an image that breaks a rule at a place.
pub fn refuse_image<K: Sink>(alloc: Global, sink: &mut K, at: u64, rule: u8) -> Status
    ensures { Ends (outcome.Faulty at rule) result (K.taken sink.old) (K.taken sink.new) (K.finished sink.new)
        (K.faults sink.old) (K.faults sink.new) }
{
    match image_fault(alloc, at, rule) {
        Ok(text) => tell(sink, text.as_slice(), Status::Image { at, rule }),
        Err(NoMemory) => Status::NoMemory,
    }
}

/// Writes the one line of an input that is too long for what a command asks.
pub fn refuse_long<K: Sink>(alloc: Global, sink: &mut K, command: &Command) -> Status
    ensures { Ends (too_long_for command.now) result (K.taken sink.old) (K.taken sink.new) (K.finished sink.new)
        (K.faults sink.old) (K.faults sink.new) }
{
    if command.reads_image() {
        return refuse_image(alloc, sink, LONGEST, TOO_LONG);
    }
    let status = Status::Script { line: 1, rule: 1 };
    tell(sink, too_long_line(), status)
}
