/// How a run ended.
#[derive(Debug, Clone, Copy, PartialEq, Eq)]
pub enum Status {
    /// The whole text was written and finished, and the input was read to its end.
    Done,
    /// The words are no command; the usage line was written and finished.
    Usage,
    /// The script breaks this rule at this line, from 1; that was written and finished.
    Script { line: u32, rule: u8 },
    /// A read failed; nothing was run, and nothing was written.
    ReadFault,
    /// A write failed; some front of the text was written.
    WriteFault,
    /// There was no memory; some front of the text was written.
    NoMemory,
    /// The bytes that were to be listed are no image: at this place, from 0, they break this rule first; that was written and finished.
    Image { at: u64, rule: u8 },
}

impl Status {
    ghost use Rattle.std.specs.Prelude.{◌≡◌};
    ghost use Rattle.ix_host.specs.run.Run.{code_of};

    /// The number that a program ends with.
    pub fn code(&self) -> u8
        ensures { result ≡ code_of self.now }
    {
        match self {
            Status::Done => 0,
            Status::Usage => 2,
            Status::Script { .. } => 3,
            Status::ReadFault => 4,
            Status::WriteFault => 5,
            Status::NoMemory => 6,
            Status::Image { .. } => 7,
        }
    }
}
