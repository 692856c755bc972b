use crate::status::Status;
use ix_policy::Policy;
use ix_script::Script;

/// What is told of a history.
#[derive(Clone, Copy)]
pub enum Telling {
    /// The report of the script.
    Report,
    /// The summary of a made session with so many commands.
    Summary(u32),
}

/// What is left to do of what was asked for.
#[derive(Drop)]
pub enum Task<'a> {
    /// Nothing: it came to an end with this status.
    Ended(Status),
    /// The lanes of a script are to be run by its policy, if it has one, and this is to be told of the history to which they come.
    Run(Telling, Script<'a>, Option<Policy>),
}
