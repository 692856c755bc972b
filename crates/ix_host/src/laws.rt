//! What holds of the reports of scripts, and of made sessions. These functions do nothing: each states a law, which is proved.
ghost use Rattle.ix_host.specs.Laws.{LabelsInForm, LowLinesAreEqual, PrintedIsYes, Readable};

use ix_check::laws::printed_is_judged_good;
use ix_iso::laws::form_one;
use ix_label::Form;
use ix_label::laws::spelled_or_faulty;
use ix_lanes::laws::histories_fit;
pub use ix_replay::laws::one_history;
use ix_script::laws::scripts_fit;

/// Where the runs of two histories of scripts of the same lanes agree at a label, each line of the report whose process ends at or
/// below that label is the same in both reports, as long as no entry before it lets something down across the label.
pub fn low_lines_are_equal()
    ensures equal { LowLinesAreEqual }
{}

/// In each history that holds the lanes' calls of a script that was read, each label that the report tells fits the script's form:
/// in form One none has a category above 255, of a process after its call, of an object or a process at the end, in a reply or in a
/// line of the log.
pub fn labels_in_form()
    ensures fit { LabelsInForm }
{
    scripts_fit();
    histories_fit();
    form_one();
}

/// A script that is read, and behind it the report of one of its histories, is told as a report by `check`, with as many entries as the
/// history has. So whatever a run of the lanes side by side prints, where it is done, is told so.
pub fn printed_is_yes()
    ensures yes { PrintedIsYes }
{
    printed_is_judged_good();
    one_history();
}

/// Each text of the generator, of 1 to 100,000 commands, has no fault, so it is a script.
pub fn readable()
    ensures { Readable }
{
    spelled_or_faulty(Form::One, b"0-7");
    spelled_or_faulty(Form::One, b"3");
    spelled_or_faulty(Form::One, b"5");
}
