use ix_model::{Pid, Refusal};

/// How a server served one request. `told` says whether the client got the answer: the write of it wasn't refused.
#[derive(Clone, Copy, Debug, PartialEq, Eq)]
pub enum Served {
    /// That rule allowed it, and the process `who` has what it allows: the client itself, or the session's child.
    Granted { rule: u32, who: Pid, told: bool },
    /// That rule denied it; rule 0 where none matched.
    Denied { rule: u32, told: bool },
    /// The message is no request. Its longest front that some request begins with has `at` bytes.
    BadRequest { at: u32, told: bool },
    /// Nobody has claimed the other end. The server's claim stays.
    NotPrivate,
    /// A call was refused: the number of its step.
    Refused { why: Refusal, step: u8 },
    /// The journal has no room for the next call, which wasn't made: `used` and `need` together are above `cap`, all in bytes of cost.
    Full { used: u64, need: u64, cap: u64 },
    /// There is no memory for the next call, which wasn't made.
    NoMemory,
}
