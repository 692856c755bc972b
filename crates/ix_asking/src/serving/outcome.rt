use ix_model::{Pid, Refusal};

/// What comes of serving, where no call stops. `told` says whether the client got the answer: the write of it wasn't refused.
#[derive(Clone, Copy)]
pub enum Outcome {
    /// That rule allowed it, and the process `who` has what it allows.
    Granted { rule: u32, who: Pid, told: bool },
    /// That rule denied it; rule 0 where none matched.
    Denied { rule: u32, told: bool },
    /// The message is no request. Its longest front that some request begins with has `at` bytes.
    BadRequest { at: u32, told: bool },
    /// Nobody has claimed the other end.
    NotPrivate,
    /// A call was refused: the number of its step.
    Refused { why: Refusal, step: u8 },
}
