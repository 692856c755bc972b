//! What holds of two scripts that are compared at a label. These functions do nothing: each states a law, which is proved.
ghost use Rattle.ix_twin.specs.{PartingLaws.{RunsAreParted}, Laws.{BeginningsAreAlike, TwinLines, TwinsAreCompared}};
ghost use Rattle.ix_twin.specs.TestLaws.{TestsAreExact, TheLogTellsCrossings};

use ix_iso::laws::configs_alike;

/// What is tested at each place of two runs: who is low and who is high, what crosses a label, whether two entries agree, and whether two configs
/// differ no further than in what high files hold. Each test is true exactly where that holds.
#[tactic(auto, using(crate::proofs::Tested::tests_are_exact))]
pub fn tests_are_exact()
    ensures exact { TestsAreExact }
{}

/// The lines that an entry adds to the audit log tell whether it lets something down across a label.
#[tactic(auto, using(crate::proofs::Logged::the_log_tells))]
pub fn the_log_tells_crossings()
    ensures tells { TheLogTellsCrossings }
{}

/// What is found of two runs is the least place at which they part, and the places before it of which lines are shown: those of low entries, before
/// which nothing crosses the label.
#[tactic(auto, using(crate::proofs::Parted::runs_are_parted))]
pub fn runs_are_parted()
    ensures parted { RunsAreParted }
{}

/// Scripts that begin alike at a label open worlds that are alike at it.
pub fn beginnings_are_alike()
    ensures alike { BeginningsAreAlike }
{
    configs_alike();
}

/// Where two scripts are found to part is the least place at which they part, and the places that are found are all those of which lines are shown.
#[tactic(auto, using(crate::proofs::Compared::twins_are_compared))]
pub fn twins_are_compared()
    ensures compared { TwinsAreCompared }
{}

/// At each place that is shown, before two scripts part at a label, the lines of both reports are equal: the same call by the same process, the same
/// answer, bytes and statuses too, and the same label. So what low processes are told doesn't tell the two scripts apart.
pub fn twin_lines()
    ensures lines { TwinLines }
{
    configs_alike();
}
