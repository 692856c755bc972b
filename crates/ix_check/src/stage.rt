use ix_replay::Next;

/// How far a text was judged.
#[derive(Clone, Copy, Debug, PartialEq, Eq)]
pub enum Stage {
    /// Nothing was looked at yet.
    Begins,
    /// Its lines so far are the head and lines of entries.
    Entries,
    /// Its lines so far end among the closing lines: what closes next, and the number of the line that has to say it.
    Closing(Next, u64),
    /// The line of this number can stand in no report.
    Fails(u64),
}
