//! What a command reads.
ghost use Rattle.std.specs.Prelude.{◌≡◌, Some, IfSome, true, false};
ghost use Rattle.ix_gen.specs.Generated.{generated};
ghost use Rattle.ix_io.specs.Streams.{Rose};
ghost use Rattle.ix_host.specs.{command.Command.{IsCounted}, run.{Inputs.{input_max, input_of, reads_source}, Whole.{Gathers, IsInput, IsReadFor, TakesFew}}};

use crate::arguments::command::Command;
use crate::laws::readable;
use crate::streams::stream::{Input, read_all};
use ix_gen::text;
use ix_io::Source;
use ix_model::NoMemory;
use std::alloc::Global;

/// The most bytes that a script may have.
const SCRIPT_MAX: usize = 16_777_216;

/// The most bytes that a script and the text that claims to be its report may have.
const CHECK_MAX: usize = 134_217_728;

/// The most bytes that two scripts may have, with the line between them.
const TWIN_MAX: usize = 33_554_437;

/// The most bytes that an image may have.
const IMAGE_MAX: usize = 671_088_640;

/// The text of the generator.
fn made(alloc: Global, count: u32) -> Input
    requires { IsCounted (Command.Gen count) }
    ensures told { IsInput (input_max (Some (Command.Gen count))) (generated count) result }
    ensures readable { IsReadFor (Command.Gen count) result }
{
    // The proof of `readable` rests on this law.
    readable();
    match text(alloc, count) {
        Ok(text) => Input::Whole(text),
        Err(NoMemory) => Input::NoMemory,
    }
}

/// What a command reads: for `gen` the text of the generator, and else what the source gives.
pub fn input_for<S: Source>(alloc: Global, command: &Command, source: &mut S) -> Input
    requires { IsCounted command.now }
    ensures told { IfSome (input_of (Some command.now) (S.left source.old)) (λ bytes. IsInput (input_max (Some command.now)) bytes result) }
    ensures readable { IsReadFor command.now result }
    ensures gathers { reads_source (Some command.now) ≡ true → IfSome (S.left source.old) (λ bytes. Gathers (input_max (Some command.now)) bytes (S.left source.new) result) }
    ensures few { IfSome (S.left source.old) (λ bytes. TakesFew (input_max (Some command.now)) bytes (S.left source.new)) }
    ensures not_read { reads_source (Some command.now) ≡ false → source.new ≡ source.old }
    ensures fault { result ≡ Input.Fault → Rose (S.faults source.old) (S.faults source.new) }
    ensures kept { ¬ (result ≡ Input.Fault) → S.faults source.new ≡ S.faults source.old }
{
    match command {
        Command::Run => read_all(alloc, source, SCRIPT_MAX),
        Command::Print => read_all(alloc, source, SCRIPT_MAX),
        Command::Gen(count) => made(alloc, *count),
        Command::Check => read_all(alloc, source, CHECK_MAX),
        Command::Flow => read_all(alloc, source, SCRIPT_MAX),
        Command::Save => read_all(alloc, source, SCRIPT_MAX),
        Command::Load => read_all(alloc, source, IMAGE_MAX),
        Command::Twin(_) => read_all(alloc, source, TWIN_MAX),
    }
}
