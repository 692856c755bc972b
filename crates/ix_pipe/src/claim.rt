use ix_model::Pid;

/// What a claim on an end of a pipe comes to.
#[derive(Clone, Copy, Debug, PartialEq, Eq)]
pub enum Claim {
    /// Another process has the end: this one.
    Held(Pid),
    /// The end is the caller's, and nobody has the other end.
    Half,
    /// The end is the caller's, and this process has the other end.
    Whole(Pid),
}
