ghost use Rattle.std.specs.Prelude.{◌≡◌};
ghost use Rattle.ix_fcalls.specs.Moving.{reply_of};

use ix_model::{Refusal, Reply};

/// What a read or a write came to of which it is known that a look at the labels would change none. A reply has room for a line
/// of the log, which neither of them tells; this has not.
#[derive(Clone, Copy)]
pub enum Moved {
    /// So many bytes were read, to the front of the buffer.
    Read(u32),
    /// So many bytes were written.
    Written(u64),
    /// The call is refused.
    No(Refusal),
}

impl Moved {
    /// The reply that tells it.
    pub fn reply(&self) -> Reply
        ensures { result ≡ reply_of self.now }
    {
        match self {
            Moved::Read(count) => Reply::Bytes(*count),
            Moved::Written(count) => Reply::Number(*count),
            Moved::No(why) => Reply::No(*why),
        }
    }
}
