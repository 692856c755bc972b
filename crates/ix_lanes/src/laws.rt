//! What holds of the histories of scripts. These functions do nothing: each states a law, which is proved.
ghost use Rattle.ix_lanes.specs.{histories.Laws.{SerialOne, SerialIsSerial, HistoriesFit, NeedFits, NeedFitsSoFar}, running.Laws.{PhasesAreAll}};

/// No script has two serial histories. A history is serial where each entry is of a lane, each lane's entries are those
/// that its lines make when they are answered as in the run of the history, no lane asks for a further call, and along the
/// entries the numbers of lines never fall.
pub fn serial_one()
    ensures one { SerialOne }
{}

/// The serial history that is defined, the calls of the lines in order, each answered before the next, is a serial history
/// of its script, whatever the lines are. So each script has exactly one.
pub fn serial_is_serial()
    ensures serial { SerialIsSerial }
{}

/// A history that holds each lane's calls, in whatever order the lanes take turns, costs no more than its script needs, and so
/// does the part of one that a run has made so far, with the next call of any lane. So a journal of the script's config is
/// never full.
pub fn need_fits()
    ensures whole { NeedFits }
    ensures so_far { NeedFitsSoFar }
{}

/// Where the labels of a script's lines fit the form that it tells, so do those of the calls of each history that holds its lanes'
/// calls, with those of its servers, which grant what a policy read in that form says.
pub fn histories_fit()
    ensures fit { HistoriesFit }
{}

/// In all phases of a script together a lane asks for what all its lines ask for.
pub fn phases_are_all()
    ensures phases { PhasesAreAll }
{}
