use ix_model::Pid;

/// Who makes a call, and the line that it comes from.
#[derive(Clone, Copy)]
pub struct Caller {
    /// The seat that makes it.
    pub seat: u32,
    /// The line of the script that it comes from.
    pub line: u32,
    pub pid: Pid,
}
