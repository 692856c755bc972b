//! The top call of the program that runs the lanes one after the other.
ghost use Rattle.std.specs.Prelude.{◌≡◌, ℕ, ◌⊎◌, Some, true, false, is_none, IfSome};
ghost use Rattle.ix_io.specs.Streams.{Rose};
ghost use Rattle.ix_lanes.specs.histories.Serial.{serial};
ghost use Rattle.ix_host.specs.{Noninterference.{TakesNoninterferentReport}, command.Command.{command_of, usage_line}, Judged.{TakesVerdict}};
ghost use Rattle.ix_host.specs.{Traced.{TakesTraces}, Saved.{TakesImage}, Loaded.{TakesList}, Compared.{TakesTwins}, Seconds.{second_in}, run.Whole.{TakesFew}};
ghost use Rattle.ix_host.specs.run.Inputs.{IsTooLong, input_max, input_of, reads_source, script_in};
ghost use Rattle.ix_host.specs.run.Run.{FitsCommand, IsAnswer, ReadsOut, WritesFor, WritesLine, called_for, wanted};
ghost use Rattle.ix_check.specs.Parts.{report_part, script_part};
ghost use Rattle.ix_image.specs.Reading.{image_fault};
ghost use Rattle.ix_label.specs.Category.{Categories};
ghost use Rattle.ix_twin.specs.Parts.{first_part};

use crate::arguments::command::Command;
use crate::arguments::words::Words;
use crate::concluding::tell_serial;
use crate::preparing::prepare;
use crate::status::Status;
use crate::task::Task;
use ix_check::laws::texts_are_judged;
use ix_flow::laws::lines_are_accounted_for;
use ix_image::laws::written_is_read;
use ix_io::{Sink, Source};
use ix_parallel::NoWatch;
use ix_twin::laws::{twin_lines, twins_are_compared};
use std::alloc::Global;

/// Does what the words ask: `run` reads a script from the source, runs it, and writes its report to the sink; `print` writes
/// the canonical text of the script; `gen` reads nothing, and runs the generator's script with the count's commands and
/// writes the summary of that run; `check` reads a script and behind it a text, and writes whether that is the report of one of
/// the script's histories, and where not, the first line at which no such report goes on; `flow` reads a script, runs it, and
/// writes of each byte that was read where it came from; `save` reads a script, runs it, and writes the image of the tree of files
/// that is left; `load` reads an image, and writes the list of the tree that it is of, or the first rule that it breaks; `twin` reads two scripts, runs both, and writes whether the runs agree at a label,
/// with the lines of both that low processes get there. All else is answered by the usage line. It waits for nobody.
pub fn run_serial<S: Source, K: Sink>(
    alloc: Global,
    words: &Words,
    source: &mut S,
    sink: &mut K,
) -> Status
    // What is taken from the source, where that tells its bytes.
    ensures bounded { IfSome (S.left source.old) (λ bytes. TakesFew (input_max (command_of words.now)) bytes (S.left source.new)) }
    ensures read_out { reads_source (command_of words.now) ≡ true → IfSome (S.left source.old) (λ bytes. ReadsOut (input_max (command_of words.now)) result bytes (S.left source.new)) }
    ensures not_read { reads_source (command_of words.now) ≡ false → source.new ≡ source.old }

    // What is written, where the sink tells its bytes, and the source those that are read.
    ensures written { IfSome (input_of (command_of words.now) (S.left source.old)) (λ bytes. IfSome (K.taken sink.old) (λ taken.
        WritesFor result (wanted words.now bytes) taken (K.taken sink.new))) }
    ensures line { IfSome (K.taken sink.old) (λ taken. WritesLine usage_line result taken (K.taken sink.new)) }
    ensures finished { IsAnswer result → K.finished sink.new ≡ true }
    ensures noninterference { result ≡ Status.Done → command_of words.now ≡ Some Command.Run → IfSome (S.left source.old) (λ bytes.
        IfSome (K.taken sink.old) (λ taken. TakesNoninterferentReport (script_in bytes) (serial (script_in bytes)) taken (K.taken sink.new))) }
    ensures judged { result ≡ Status.Done → command_of words.now ≡ Some Command.Check → IfSome (S.left source.old) (λ bytes.
        IfSome (K.taken sink.old) (λ taken. TakesVerdict (script_in (script_part bytes)) (report_part bytes) taken (K.taken sink.new))) }
    ensures traced { result ≡ Status.Done → command_of words.now ≡ Some Command.Flow → IfSome (S.left source.old) (λ bytes.
        IfSome (K.taken sink.old) (λ taken. TakesTraces (script_in bytes) taken (K.taken sink.new))) }
    ensures saved { result ≡ Status.Done → command_of words.now ≡ Some Command.Save → IfSome (S.left source.old) (λ bytes.
        IfSome (K.taken sink.old) (λ taken. TakesImage (script_in bytes) taken (K.taken sink.new))) }
    ensures loaded { result ≡ Status.Done → command_of words.now ≡ Some Command.Load → IfSome (S.left source.old) (λ bytes.
        IfSome (K.taken sink.old) (λ taken. TakesList bytes taken (K.taken sink.new))) }
    ensures compared { (l : Categories) → result ≡ Status.Done → command_of words.now ≡ Some (Command.Twin l) → IfSome (S.left source.old) (λ bytes.
        IfSome (K.taken sink.old) (λ taken. TakesTwins l (script_in (first_part bytes)) (second_in bytes) taken (K.taken sink.new))) }
    ensures not_written { result ≡ Status.ReadFault → sink.new ≡ sink.old }

    // When each status comes.
    ensures command { FitsCommand result (command_of words.now) }
    ensures answer { IsAnswer result → IfSome (input_of (command_of words.now) (S.left source.old)) (λ bytes.
        result ≡ called_for (command_of words.now) bytes) }
    ensures quiet { IsAnswer result → (S.faults source.new ≡ S.faults source.old) × (K.faults sink.new ≡ K.faults sink.old) }
    ensures too_long { result ≡ Status.Script 1 1 → IfSome (S.left source.old) (λ bytes. IsTooLong (command_of words.now) bytes) }
    ensures image { (at : ℕ) (rule : ℕ) → result ≡ Status.Image at rule → IfSome (S.left source.old) (λ bytes. image_fault bytes ≡ Some (at, rule)) }
    ensures read_fault { result ≡ Status.ReadFault → Rose (S.faults source.old) (S.faults source.new) }
    ensures write_fault { result ≡ Status.WriteFault → Rose (K.faults sink.old) (K.faults sink.new) }

    // Where nothing failed, the status is the one that is called for, unless memory ran out.
    ensures usage { is_none (command_of words.now) ≡ true → ¬ Rose (K.faults sink.old) (K.faults sink.new)
        → (result ≡ Status.Usage) ⊎ (result ≡ Status.NoMemory) }
    ensures made { (count : ℕ) → command_of words.now ≡ Some (Command.Gen count) → ¬ Rose (K.faults sink.old) (K.faults sink.new)
        → (result ≡ Status.Done) ⊎ (result ≡ Status.NoMemory) }
    ensures complete { ¬ Rose (S.faults source.old) (S.faults source.new) → ¬ Rose (K.faults sink.old) (K.faults sink.new)
        → IfSome (input_of (command_of words.now) (S.left source.old)) (λ bytes.
        (result ≡ called_for (command_of words.now) bytes) ⊎ (result ≡ Status.NoMemory)) }
{
    // The proofs of `judged`, of `traced`, of `loaded` and of `compared` rest on these laws.
    texts_are_judged();
    lines_are_accounted_for();
    written_is_read();
    twins_are_compared();
    twin_lines();
    let Ok(asked) = words.command(alloc) else {
        return Status::NoMemory;
    };
    let usage = b"usage: ixone run | print | gen COUNT | check | flow | save | load | twin LABEL\n";
    let mut input = Vec::new(alloc);
    match prepare(alloc, usage, asked, source, sink, &mut input) {
        Task::Ended(status) => status,
        Task::Run(telling, script, policy) => {
            tell_serial(alloc, sink, telling, &script, policy.as_ref(), &NoWatch)
        }
    }
}
