//! The laws of judging a report. These functions do nothing: the contract of each is a law. The laws speak of plans whose states,
//! entries and answers are numbers; the lemmas in `proofs/` that prove them are of all types.

ghost use Rattle.ix_judging.specs.{Example.{IsExample}, Names.{NamesTell}};
ghost use Rattle.ix_judging.specs.Laws.{BytesAreJudged, JudgeIsRight, LinesAreLanes, LinesTell, PhasesGo, RunsAreGood, RunsEnd, RunsHold, ScriptsArePlans};

/// The histories that hold each lane's calls in order, and in which phases never fall, are those that runs come to.
pub fn runs_are_good()
    ensures good { RunsAreGood }
{}

/// They are also those that runs come to which go phase by phase: the next phase begins once no lane has a call left in this one.
pub fn phases_go()
    ensures good { PhasesGo }
{}

/// What was run so far holds the calls of the lanes so far, and what a lane asks for then is its next call.
pub fn runs_hold()
    ensures hold { RunsHold }
{}

/// Each run can be brought to an end, so what has run is the front of a good history, and its lines begin a good report.
pub fn runs_end()
    ensures ends { RunsEnd }
{}

/// Good histories whose reports have the same first lines have the same first entries.
pub fn lines_tell()
    ensures tell { LinesTell }
{}

/// What is found by a walk over a text, line by line, judges it, and nothing else does.
pub fn judge_is_right()
    ensures right { JudgeIsRight }
{}

/// The same of a text of bytes, whose lines end by a line feed.
pub fn bytes_are_judged()
    ensures right { BytesAreJudged }
{}

/// Lanes that are told by all that they ask for, as they are answered in order, make a plan, and its good histories are theirs.
pub fn scripts_are_plans()
    ensures plans { ScriptsArePlans }
{}

/// Lines that make at most so many calls each are such a lane.
pub fn lines_are_lanes()
    ensures lanes { LinesAreLanes }
{}

/// A small script, of which the laws speak, and how texts are judged there.
pub fn an_example()
    ensures example { IsExample }
{}

/// Where the names of lanes have no space and differ, a line in which a name stands behind the mark of its place tells of that lane.
pub fn names_tell()
    ensures tell { NamesTell }
{}
