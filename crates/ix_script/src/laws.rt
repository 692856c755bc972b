//! Laws of scripts and of their canonical text, each the contract of a function that does nothing.

ghost use Rattle.ix_script.specs.{scripts.Laws.{ReadsBack, OneByteMore, LineStays, ScriptsFit, NoShorterPayload}, scripts.Schedule.{LanesAreStretches, StretchesStand}};

/// The canonical text of a script that was read is read as the same script, where it has at most 16,777,216 bytes.
pub fn reads_back()
    ensures { ReadsBack }
{}

/// The canonical text of a script that was read has at most one byte more than what was read.
pub fn one_byte_more()
    ensures { OneByteMore }
{}

/// The text of a line that was read says the same line, has no fault where the line had none, and is no longer.
pub fn line_stays()
    ensures { LineStays }
{}

/// No spelling of a payload is shorter than the shortest one.
pub fn no_shorter_payload()
    ensures { NoShorterPayload }
{}

/// The labels of a script that was read fit its form, as do the labels and ceilings of its config.
pub fn scripts_fit()
    ensures { ScriptsFit }
{}

/// The lines of a lane are those of its stretches, in order; the phase of a stretch is the last that has begun where it begins.
pub fn lanes_are_stretches()
    ensures lines { LanesAreStretches }
    ensures phases { StretchesStand }
{}
