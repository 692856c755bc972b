//! What holds of the reports of scripts. These functions do nothing: each states a law, which is proved.
ghost use Rattle.ix_replay.specs.report.Fixed.{OneHistory, ScriptsNamed};

use ix_script::laws::line_stays;

/// A report fixes its history: of two histories of a script that each hold the calls of its lanes, in whatever order the
/// lanes take turns, the reports are the same text only where the histories are the same. The lanes of each script that is
/// read have the names that this asks for.
pub fn one_history()
    ensures names { ScriptsNamed }
    ensures one { OneHistory }
{
    // The proof of `names` rests on this law.
    line_stays();
}
