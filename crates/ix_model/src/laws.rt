//! What holds of the machine's worlds. These functions do nothing: each states a law, which is proved.
ghost use Rattle.ix_model.specs.{laws.ClaimedPaths.{OnlyClaimantsGetThrough, ClaimantsReadWhatClaimantsWrote}, laws.Replies.{RepliesFitTheirCalls}};
ghost use Rattle.ix_model.specs.{laws.CallLaws.{LimitsNeverChange, RowsAskForWhatStands}, laws.Privileged.{TheEntitledExercise, PrivilegesChangeAsSaid}};
ghost use Rattle.ix_model.specs.laws.Laws.{
  OpeningWorldsAreSound,
  OpeningWorldsAreClean,
  StepsKeepWorldsSound,
  StepsKeepWorldsClean,
  ReachedWorldsAreSound,
  ReachedWorldsAreClean,
  RefusalsLeaveWorlds,
  ObjectsAreThere,
  CallsTouchFewLabels,
  TheLogIsTheLicensedActs,
  PidsAreNeverUsedAgain,
  WholePathsBeginEmpty,
  PipesHoldWhatWasWritten,
};

/// The opening world of every valid config is sound, with whatever file systems, directories and files it has.
pub fn opening_worlds_are_sound()
    ensures sound { OpeningWorldsAreSound }
{}

/// The opening world of every config is clean: nothing is held at a number at which nothing stands.
pub fn opening_worlds_are_clean()
    ensures clean { OpeningWorldsAreClean }
{}

/// A call, answered or refused, leaves a sound world sound.
pub fn steps_keep_worlds_sound()
    ensures sound { StepsKeepWorldsSound }
{}

/// Every call leaves a clean world clean.
pub fn steps_keep_worlds_clean()
    ensures clean { StepsKeepWorldsClean }
{}

/// Every world that is reached from a valid config's opening world is sound.
pub fn reached_worlds_are_sound()
    ensures sound { ReachedWorldsAreSound }
{}

/// Every world that is reached from the opening world of any config is clean, whatever is called.
pub fn reached_worlds_are_clean()
    ensures clean { ReachedWorldsAreClean }
{}

/// A refused call leaves the frame as it was but for the caller's label, and that too unless the refusal is one of those
/// that keep a label that a look has raised: then it is joined with what the call had looked at, and is no other. It
/// leaves what a clean world holds.
pub fn what_a_refusal_leaves()
    ensures refused { RefusalsLeaveWorlds }
{}

/// In a sound world an object stands behind each descriptor of a living process, and wherever a path is found to lead.
/// These are the objects that the rows ask for.
pub fn objects_are_there()
    ensures there { ObjectsAreThere }
{}

/// A call changes the label of the caller and of one object that was there at most.
pub fn calls_touch_few_labels()
    ensures few { CallsTouchFewLabels }
{}

/// The log after a history is the log before it, and then the lines of the history's licensed entries, in order.
pub fn the_log_is_the_licensed_acts()
    ensures log { TheLogIsTheLicensedActs }
{}

/// A pid that is free or whose process has ended never lives again, as long as the next pid is above it.
pub fn pids_are_never_used_again()
    ensures spent { PidsAreNeverUsedAgain }
{}

/// A call that makes a path whole leaves it empty.
pub fn whole_paths_begin_empty()
    ensures empty { WholePathsBeginEmpty }
{}

/// Whatever a pipe holds was written in it since it was last empty: the last bytes that were written to that end.
pub fn pipes_hold_what_was_written()
    ensures written { PipesHoldWhatWasWritten }
{}

/// No history changes the limits, the file systems, or how many numbers of objects and open entries there are.
pub fn limits_never_change()
    ensures limits { LimitsNeverChange }
{}

/// In a sound world no row asks for an object, an open entry or a process at a number at which nothing stands: NoProcess
/// comes exactly where the caller or the process that the call names doesn't live, and BadFd to a living caller exactly where
/// the call names a descriptor that is none of its own.
pub fn rows_ask_for_what_stands()
    ensures stands { RowsAskForWhatStands }
{}

/// Who exercises a privilege has it among its capabilities in the frame before, and a licence for it, its own or its
/// program's.
pub fn the_entitled_exercise()
    ensures entitled { TheEntitledExercise }
{}

/// The privileges of a process change only where it makes an exec, which takes the file's, or drops some, or is granted
/// licences, and as these say; a new process has its parent's. What an object carries changes only where SetPriv sets it,
/// and a new object carries none.
pub fn privileges_change_as_said()
    ensures privileges { PrivilegesChangeAsSaid }
{}

/// Nobody but the claimant gets through a claimed end: a read, a write or a claim by another process is refused, gives no
/// bytes and changes nothing.
pub fn only_claimants_get_through()
    ensures stopped { OnlyClaimantsGetThrough }
{}

/// Where a call made a path whole, and it has been whole since, all that is read from it was written by a claimant since,
/// whichever pipe had its number before.
pub fn claimants_read_what_claimants_wrote()
    ensures inside { ClaimantsReadWhatClaimantsWrote }
{}

/// In a sound world every reply to a call is a refusal, or what the call's row in the table passes, with its bounds: a
/// descriptor is at most 31, and a read gives at most 4,096 bytes and at most as many as were asked for. A fork's number is
/// the next pid; the law speaks of worlds in which that is below 2^32.
pub fn replies_fit_their_calls()
    ensures fits { RepliesFitTheirCalls }
{}
