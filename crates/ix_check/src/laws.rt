//! What holds of the texts that claim to be reports of a script. These functions do nothing: each states a law, which is proved.

ghost use Rattle.ix_check.specs.Laws.{LanesAreLanes, PrintedIsGood, TextsAreJudged};
ghost use Rattle.ix_replay.specs.report.Fixed.{ScriptsNamed};

use ix_replay::laws::one_history;

/// What the lane of a script asks for is what a lane of the theory asks for.
pub fn lanes_are_lanes()
    ensures lanes { LanesAreLanes }
{}

/// What is found by a walk over a text, line by line, is what is answered of it, and nothing else is. The lanes of each script that is
/// read have the names that this asks for.
pub fn texts_are_judged()
    ensures names { ScriptsNamed }
    ensures judged { TextsAreJudged }
{
    // The proof of `names` rests on this law.
    one_history();
}

/// The report of each history of a script is found good, with as many entries as the history has.
pub fn printed_is_judged_good()
    ensures good { PrintedIsGood }
{}
