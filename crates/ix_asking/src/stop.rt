ghost use Rattle.std.specs.Prelude.{◌≡◌, IfOk, IfErr};
ghost use Rattle.ix_model.specs.declared.reply.Answer.TheVariants as AnswerOf;
ghost use Rattle.ix_asking.specs.Runs.{answer_at};

use ix_model::{Answer, Reply};

/// Why a call wasn't made. Nothing has changed.
#[derive(Clone, Copy)]
pub enum Stop {
    /// The journal has no room for the call: `used` and `need` together are above `cap`, all in bytes of cost.
    Full { used: u64, need: u64, cap: u64 },
    /// There is no memory for the call.
    NoMemory,
}

impl Stop {
    /// The answer to the call.
    pub fn answer(&self) -> Answer
        ensures { result ≡ answer_at self.now }
    {
        match *self {
            Stop::Full { used, need, cap } => Answer::JournalFull { used, need, cap },
            Stop::NoMemory => Answer::NoMemory,
        }
    }
}

/// The reply that an answer gives; `Err`, with the stop, where the call wasn't made.
pub fn given(answer: &Answer) -> Result<&Reply, Stop>
    ensures given { IfOk result (λ reply. answer.now ≡ AnswerOf.Given reply.now) }
    ensures stop { IfErr result (λ stop. answer.now ≡ answer_at stop) }
{
    match answer {
        Answer::Given(reply) => Ok(reply),
        Answer::JournalFull { used, need, cap } => Err(Stop::Full {
            used: *used,
            need: *need,
            cap: *cap,
        }),
        Answer::NoMemory => Err(Stop::NoMemory),
    }
}
