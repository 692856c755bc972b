//! The promise about origins. These functions do nothing: each states a law, which is proved.
ghost use Rattle.ix_flow.specs.Laws.{FlowsAreLinesAndAnEnd, LinesAreAccountedFor, LinesGoOn, OriginsAreBelow, ReadersAreAbove, TheMarkedRunIsTheRun};

/// What the marked run of a history holds and reads, looked at as bytes, is what its run holds and reads.
pub fn the_marked_run_is_the_run()
    ensures law { TheMarkedRunIsTheRun }
{}

/// After each history what stands in an object came from a gap, or was written under a label that is at or below the
/// object's; or an entry has let the object down since, and its line is in the log.
pub fn origins_are_below()
    ensures law { OriginsAreBelow }
{}

/// What a read gives came from a gap, or was written under a label at or below that of the reader after it; or an entry has let
/// the object that is read down since, and its line is in the log.
pub fn readers_are_above()
    ensures law { ReadersAreAbove }
{}

/// So is each line that is said of a read: one that names no lowering has a label at or below the reader's, and of one that
/// names a place the log has that entry's line, with the object that was read.
pub fn lines_are_accounted_for()
    ensures law { LinesAreAccountedFor }
{}

/// What is said of a history is the lines of its entries, and behind them the last line with their counts.
#[tactic(auto, using(crate::proofs::FlowTexts::lines_and_end))]
pub fn flows_are_lines_and_an_end()
    ensures law { FlowsAreLinesAndAnEnd }
{}

/// An entry more has its lines behind those of the entries before it.
#[tactic(auto, using(crate::proofs::FlowTexts::lines_more))]
pub fn lines_go_on()
    ensures law { LinesGoOn }
{}
