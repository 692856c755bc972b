//! What comes before the lanes of a script are run, and in the place of that.
ghost use Rattle.std.specs.Prelude.{◌≡◌, ℕ, List, IfSome, Some, None, true, false};
ghost use Rattle.ix_io.specs.Streams.{Rose};
ghost use Rattle.ix_script.specs.scripts.Canonical.{canonical};
ghost use Rattle.ix_lanes.specs.asking.Ruled.{rules_told};
ghost use Rattle.ix_host.specs.{Policies.{policy_refusal}, command.Command.{IsCounted}, run.Outcome.{outcome_for, outcome_in, text_for}, run.Whole.{TakesFew}};
ghost use Rattle.ix_host.specs.{run.Tasks.{IsLoaded, IsRunnable, LeadsTo, OnRun, Prepares, TaskReadsOut}, run.Run.{Ends}};
ghost use Rattle.ix_host.specs.run.Inputs.{IsReadable, IsShortFor, input_max, reads_image, reads_source, beside_bytes, script_bytes, script_in};
ghost use Rattle.ix_host.specs.run.Outcome as outcome;

use crate::arguments::command::Command;
use crate::checking::check;
use crate::comparing::twin;
use crate::following::flow;
use crate::listing::load;
use crate::policies::{ScriptPolicy, policy_of};
use crate::refusing::{refuse, refuse_long};
use crate::saving::save;
use crate::status::Status;
use crate::streams::input::input_for;
use crate::streams::outlet::{finish, room, write_full};
use crate::streams::sending::tell;
use crate::streams::stream::Input;
use crate::task::{Task, Telling};
use ix_check::laws::texts_are_judged;
use ix_check::parts;
use ix_io::{Sink, Source};
use ix_model::NoMemory;
use ix_policy::Policy;
use ix_script::{ReadFail, Script, read, write_part};
use ix_twin::divide;
use std::alloc::Global;

/// Writes the canonical text of a script, part by part.
fn print<K: Sink>(alloc: Global, sink: &mut K, script: &Script<'_>) -> Status
    ensures { Ends (outcome.Whole (canonical script.now)) result (K.taken sink.old) (K.taken sink.new) (K.finished sink.new)
        (K.faults sink.old) (K.faults sink.new) }
{
    let Ok(mut waiting) = room(alloc) else {
        return Status::NoMemory;
    };
    let mut first = 0;
    'parts: while first < script.len() as usize {
        let Ok(next) = write_part(alloc, &mut waiting, script, first) else {
            return Status::NoMemory;
        };
        first = next;
        let failure = write_full(sink, &mut waiting);
        if failure.is_some() {
            return finish(sink, waiting.as_slice(), failure);
        }
    }
    finish(sink, waiting.as_slice(), None)
}

/// What a command asks with a script that it doesn't refuse, and what else is asked for.
fn accepted_task<'a, K: Sink>(
    alloc: Global,
    sink: &mut K,
    command: Command,
    script: Script<'a>,
    policy: Option<Policy>,
    beside: &[u8],
) -> Task<'a>
    requires scripted { reads_image command ≡ false }
    requires runnable { IsRunnable script }
    requires accepted { policy_refusal script ≡ None }
    requires short { IsShortFor command beside.now }
    requires policy { policy ≡ rules_told script }
    ensures leads { LeadsTo (λ history. outcome_for command script.entry beside.now history) script.entry result (K.taken sink.old) (K.taken sink.new)
        (K.finished sink.new) (K.faults sink.old) (K.faults sink.new) }
    ensures untouched { OnRun result (sink.new ≡ sink.old) }
{
    match command {
        Command::Run => Task::Run(Telling::Report, script, policy),
        Command::Print => Task::Ended(print(alloc, sink, &script)),
        Command::Gen(count) => Task::Run(Telling::Summary(count), script, policy),
        Command::Check => Task::Ended(check(alloc, sink, &script, policy.as_ref(), beside)),
        Command::Flow => Task::Ended(flow(alloc, sink, &script, policy.as_ref())),
        Command::Save => Task::Ended(save(alloc, sink, &script, policy.as_ref())),
        Command::Load => unreachable!(),
        Command::Twin(at) => {
            let one = (&script, policy.as_ref());
            Task::Ended(twin(alloc, sink, &at, one, beside))
        }
    }
}

/// What a command asks with a script whose policy, on that line, is refused. A made script has none.
fn refused_task<'a, K: Sink>(
    alloc: Global,
    sink: &mut K,
    command: Command,
    script: Script<'a>,
    line: u32,
) -> Task<'a>
    requires scripted { reads_image command ≡ false }
    requires runnable { IsRunnable script }
    requires policy { rules_told script ≡ None }
    requires refusal { policy_refusal script ≡ Some (line, 27) }
    ensures leads { (beside : List ℕ) → LeadsTo (λ history. outcome_for command script.entry beside history) script.entry result (K.taken sink.old) (K.taken sink.new)
        (K.finished sink.new) (K.faults sink.old) (K.faults sink.new) }
    ensures untouched { OnRun result (sink.new ≡ sink.old) }
{
    match command {
        Command::Run => Task::Ended(refuse(alloc, sink, line, 27)),
        Command::Print => Task::Ended(refuse(alloc, sink, line, 27)),
        Command::Gen(count) => Task::Run(Telling::Summary(count), script, None),
        Command::Check => Task::Ended(refuse(alloc, sink, line, 27)),
        Command::Flow => Task::Ended(refuse(alloc, sink, line, 27)),
        Command::Save => Task::Ended(refuse(alloc, sink, line, 27)),
        Command::Load => unreachable!(),
        Command::Twin(_) => Task::Ended(refuse(alloc, sink, line, 27)),
    }
}

/// What a command asks with a script, and what else is asked for.
fn script_task<'a, K: Sink>(
    alloc: Global,
    sink: &mut K,
    command: Command,
    script: Script<'a>,
    beside: &[u8],
) -> Task<'a>
    requires scripted { reads_image command ≡ false }
    requires runnable { IsRunnable script }
    requires short { IsShortFor command beside.now }
    ensures leads { LeadsTo (λ history. outcome_for command script.entry beside.now history) script.entry result (K.taken sink.old) (K.taken sink.new)
        (K.finished sink.new) (K.faults sink.old) (K.faults sink.new) }
    ensures untouched { OnRun result (sink.new ≡ sink.old) }
{
    match policy_of(alloc, &script) {
        Ok(ScriptPolicy::Rules(policy)) => accepted_task(
            alloc, sink, command, script, policy, beside,
        ),
        Ok(ScriptPolicy::Refused(line)) => refused_task(alloc, sink, command, script, line),
        Err(NoMemory) => Task::Ended(Status::NoMemory),
    }
}

/// The bytes of the script in an input, and what stands beside them.
fn parts_for<'a>(command: &Command, bytes: &'a [u8]) -> (&'a [u8], &'a [u8])
    ensures script { result.0.now ≡ script_bytes command.now bytes.now }
    ensures beside { result.1.now ≡ beside_bytes command.now bytes.now }
{
    match command {
        Command::Run => (bytes, b""),
        Command::Print => (bytes, b""),
        Command::Gen(_) => (bytes, b""),
        Command::Check => parts(bytes),
        Command::Flow => (bytes, b""),
        Command::Save => (bytes, b""),
        Command::Load => (b"", bytes),
        Command::Twin(_) => (divide(bytes).first, bytes),
    }
}

/// What a command asks with an input in which a script stands.
fn parts_task<'a, K: Sink>(
    alloc: Global,
    sink: &mut K,
    command: Command,
    bytes: &'a [u8],
) -> Task<'a>
    requires scripted { reads_image command ≡ false }
    requires readable { IsReadable command bytes.now }
    ensures leads { LeadsTo (λ history. outcome_in command bytes.now history) (script_in (script_bytes command bytes.now)) result (K.taken sink.old) (K.taken sink.new)
        (K.finished sink.new) (K.faults sink.old) (K.faults sink.new) }
    ensures untouched { OnRun result (sink.new ≡ sink.old) }
{
    // That the lanes have names rests on this law.
    texts_are_judged();
    let (part, beside) = parts_for(&command, bytes);
    match read(alloc, part) {
        Ok(script) => script_task(alloc, sink, command, script, beside),
        Err(ReadFail::Fault(fault)) => Task::Ended(refuse(alloc, sink, fault.line, fault.rule)),
        Err(ReadFail::NoMemory) => Task::Ended(Status::NoMemory),
    }
}

/// What a command asks with an input.
fn input_task<'a, K: Sink>(
    alloc: Global,
    sink: &mut K,
    command: Command,
    bytes: &'a [u8],
) -> Task<'a>
    requires { IsReadable command bytes.now }
    ensures leads { LeadsTo (λ history. outcome_in command bytes.now history) (script_in (script_bytes command bytes.now)) result (K.taken sink.old) (K.taken sink.new)
        (K.finished sink.new) (K.faults sink.old) (K.faults sink.new) }
    ensures image { reads_image command ≡ true → IsLoaded bytes.now result }
    ensures untouched { OnRun result (sink.new ≡ sink.old) }
{
    if command.reads_image() {
        return Task::Ended(load(alloc, sink, bytes));
    }
    parts_task(alloc, sink, command, bytes)
}

/// Does what is asked for up to the run of lanes, where there is to be one, and writes the usage line where nothing is asked for.
/// What is read is put into `input`, which the script of a run borrows.
pub fn prepare<'a, S: Source, K: Sink>(
    alloc: Global,
    usage: &[u8],
    asked: Option<Command>,
    source: &mut S,
    sink: &mut K,
    input: &'a mut Vec<u8>,
) -> Task<'a>
    requires { IfSome asked IsCounted }
    // What is read.
    ensures bounded { IfSome (S.left source.old) (λ bytes. TakesFew (input_max asked) bytes (S.left source.new)) }
    ensures read_out { reads_source asked ≡ true → IfSome (S.left source.old) (λ bytes. TaskReadsOut (input_max asked) result bytes (S.left source.new)) }
    ensures not_read { reads_source asked ≡ false → source.new ≡ source.old }
    ensures kept { ¬ (result ≡ Task.Ended Status.ReadFault) → S.faults source.new ≡ S.faults source.old }

    // Where a read failed.
    ensures fault { result ≡ Task.Ended Status.ReadFault → Rose (S.faults source.old) (S.faults source.new) × (reads_source asked ≡ true)
        × (sink.new ≡ sink.old) }

    // And where none did.
    ensures prepared { ¬ (result ≡ Task.Ended Status.ReadFault) → Prepares usage.now asked (S.left source.old) result (K.taken sink.old) (K.taken sink.new)
        (K.finished sink.new) (K.faults sink.old) (K.faults sink.new) }
    ensures image { asked ≡ Some Command.Load → IfSome (S.left source.old) (λ bytes. IsLoaded bytes result) }
    ensures untouched { OnRun result (sink.new ≡ sink.old) }
{
    let Some(command) = asked else {
        return Task::Ended(tell(sink, usage, Status::Usage));
    };
    match input_for(alloc, &command, source) {
        Input::Whole(bytes) => {
            *input = bytes;
            input_task(alloc, sink, command, input.as_slice())
        }
        Input::TooLong => Task::Ended(refuse_long(alloc, sink, &command)),
        Input::Fault => Task::Ended(Status::ReadFault),
        Input::NoMemory => Task::Ended(Status::NoMemory),
    }
}
