//! The top call of the program that runs the lanes of a phase side by side.
ghost use Rattle.std.{specs.Prelude.{◌≡◌, ◌<◌, ◌⊎◌, true, is_none, length, IfOk, IfSome}, proofs.Common.{option_map}};
ghost use Rattle.ix_io.specs.Streams.{Rose};
ghost use Rattle.ix_lanes.specs.{asking.Ruled.{rules_told}, histories.History.{IsHistory}};
ghost use Rattle.ix_host.specs.{Noninterference.{TakesNoninterferentReport}, command.Command.{lanes_command_of, lanes_usage_line, only_run}};
ghost use Rattle.ix_host.specs.run.{Inputs.{script_in, script_max}, Tasks.{text_told}, Whole.{TakesFew}};
ghost use Rattle.ix_host.specs.run.Outcome as outcome;
ghost use Rattle.ix_host.specs.run.Run.{Ends, FitsCommand, ExistsHistory, IsAnswer, ReadsOut, WritesFor, WritesLine, called_for, wanted_with};

use crate::arguments::command::Command;
use crate::arguments::words::Words;
use crate::concluding::{conclude, tell_serial};
use crate::preparing::prepare;
use crate::status::Status;
use crate::task::{Task, Telling};
use ix_io::{Sink, Source};
use ix_model::NoMemory;
use ix_parallel::{Watch, run_history};
use ix_policy::Policy;
use ix_script::Script;
use std::alloc::Global;
use std::sync::Wait;
use std::thread::Threads;

/// The one command that there is, where it is asked for.
fn only_run(asked: Option<Command>) -> Option<Command>
    ensures { result ≡ only_run asked }
{
    match asked {
        Some(Command::Run) => Some(Command::Run),
        _ => None,
    }
}

/// The command that the words are.
#[tactic(auto, unfolding(crate::specs::command::Command::lanes_command_of))]
fn lanes_command(alloc: Global, words: &Words) -> Result<Option<Command>, NoMemory>
    ensures { IfOk result (λ asked. asked ≡ lanes_command_of words.now) }
{
    Ok(only_run(words.command(alloc)?))
}

/// Runs the lanes of a script, and reports the history that they make. One lane alone has nothing to run beside: its history is the serial
/// one, which is reported while it is made. The watch is told of each call either way.
fn tell_lanes<K: Sink, W: Watch, R: Threads + Wait + Sync>(
    rt: &R,
    alloc: Global,
    sink: &mut K,
    telling: Telling,
    script: &Script<'_>,
    policy: Option<&Policy>,
    watch: &W,
) -> Status
    requires policy { option_map (λ p. p.now) policy ≡ rules_told script.now }
    ensures { ExistsHistory (IsHistory script.now) (λ history. Ends (outcome.Whole (text_told telling script.now history)) result
        (K.taken sink.old) (K.taken sink.new) (K.finished sink.new) (K.faults sink.old) (K.faults sink.new)) }
{
    if script.lanes() <= 1 {
        return tell_serial(alloc, sink, telling, script, policy, watch);
    }
    match run_history(rt, alloc, script, policy, watch) {
        Ok(history) => conclude(alloc, sink, telling, script, &history),
        Err(NoMemory) => Status::NoMemory,
    }
}

/// Does what the words ask: `run` reads a script from the source, runs it, and writes the report of the history that came about to
/// the sink. Each lane that has a line in a phase runs on a thread of its own, where threads can be started, and the next phase begins when
/// all of them have ended. The watch is told of each call of each lane before it is made. All else is answered by the usage line. It waits
/// for the lanes, and may so never return.
pub fn run_lanes<S: Source, K: Sink, W: Watch, R: Threads + Wait + Sync>(
    rt: &R,
    alloc: Global,
    words: &Words,
    source: &mut S,
    sink: &mut K,
    watch: &W,
) -> Status
    // What is taken from the source, where that tells its bytes.
    ensures bounded { IfSome (S.left source.old) (λ bytes. TakesFew script_max bytes (S.left source.new)) }
    ensures read_out { IfSome (S.left source.old) (λ bytes. ReadsOut script_max result bytes (S.left source.new)) }
    ensures not_read { is_none (lanes_command_of words.now) ≡ true → source.new ≡ source.old }

    // What is written, where the sink tells its bytes.
    ensures written { IfSome (S.left source.old) (λ bytes. IfSome (K.taken sink.old) (λ taken.
        ExistsHistory (IsHistory (script_in bytes)) (λ history. WritesFor result (wanted_with words.now bytes history) taken (K.taken sink.new)))) }
    ensures line { IfSome (K.taken sink.old) (λ taken. WritesLine lanes_usage_line result taken (K.taken sink.new)) }
    ensures finished { IsAnswer result → K.finished sink.new ≡ true }
    ensures noninterference { result ≡ Status.Done → IfSome (S.left source.old) (λ bytes. IfSome (K.taken sink.old) (λ taken.
        ExistsHistory (IsHistory (script_in bytes)) (λ history. TakesNoninterferentReport (script_in bytes) history taken (K.taken sink.new)))) }
    ensures not_written { result ≡ Status.ReadFault → sink.new ≡ sink.old }

    // When each status comes.
    ensures command { FitsCommand result (lanes_command_of words.now) }
    ensures answer { IsAnswer result → IfSome (S.left source.old) (λ bytes. result ≡ called_for (lanes_command_of words.now) bytes) }
    ensures quiet { IsAnswer result → (S.faults source.new ≡ S.faults source.old) × (K.faults sink.new ≡ K.faults sink.old) }
    ensures too_long { result ≡ Status.Script 1 1 → IfSome (S.left source.old) (λ bytes. script_max < length bytes) }
    ensures read_fault { result ≡ Status.ReadFault → Rose (S.faults source.old) (S.faults source.new) }
    ensures write_fault { result ≡ Status.WriteFault → Rose (K.faults sink.old) (K.faults sink.new) }

    // Where nothing failed, the status is the one that is called for, unless memory ran out.
    ensures usage { is_none (lanes_command_of words.now) ≡ true → ¬ Rose (K.faults sink.old) (K.faults sink.new)
        → (result ≡ Status.Usage) ⊎ (result ≡ Status.NoMemory) }
    ensures complete { ¬ Rose (S.faults source.old) (S.faults source.new) → ¬ Rose (K.faults sink.old) (K.faults sink.new)
        → IfSome (S.left source.old) (λ bytes. (result ≡ called_for (lanes_command_of words.now) bytes) ⊎ (result ≡ Status.NoMemory)) }
{
    let Ok(asked) = lanes_command(alloc, words) else {
        return Status::NoMemory;
    };
    let mut input = Vec::new(alloc);
    match prepare(
        alloc,
        b"usage: ixrun run\n",
        asked,
        source,
        sink,
        &mut input,
    ) {
        Task::Ended(status) => status,
        Task::Run(telling, script, policy) => {
            tell_lanes(rt, alloc, sink, telling, &script, policy.as_ref(), watch)
        }
    }
}
