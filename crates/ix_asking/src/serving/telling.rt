ghost use Rattle.std.specs.Prelude.{◌≡◌, ◌<◌, ℕ, List};
ghost use Rattle.ix_asking.specs.{Asking.{first, heard, IsDue}, Steps.{next_of}};
ghost use Rattle.ix_asking.specs.serving.{Serving.{Server, tell, told_text, when_told}, Telling.{telling_asks, telling_most}, Texts.{said}};

use crate::asks::Step;
use crate::serving::outcome::Outcome;
use crate::serving::spelling::spelled;
use crate::serving::text::Text;
use ix_model::{Call, Fd, Pid, Reply};

/// What the client is told of an outcome.
fn told_text(outcome: &Outcome) -> Text
    ensures { said result ≡ told_text outcome.now }
{
    match outcome {
        Outcome::Granted { rule, .. } => spelled(b"granted ", *rule),
        Outcome::Denied { rule, .. } => spelled(b"denied ", *rule),
        Outcome::BadRequest { at, .. } => spelled(b"bad ", *at),
        Outcome::Refused { why, .. } => spelled(b"refused ", why.number() as u32),
        Outcome::NotPrivate => Text::empty(),
    }
}

/// The outcome with whether the client was told.
fn when_told(outcome: &Outcome, told: bool) -> Outcome
    ensures { result ≡ when_told outcome.now told }
{
    match *outcome {
        Outcome::Granted { rule, who, .. } => Outcome::Granted { rule, who, told },
        Outcome::Denied { rule, .. } => Outcome::Denied { rule, told },
        Outcome::BadRequest { at, .. } => Outcome::BadRequest { at, told },
        other => other,
    }
}

/// The end of serving: the server writes what has come, and gives its claim up, whether the write was refused or not.
#[derive(Clone, Copy)]
pub enum Telling {
    Write { text: Text, outcome: Outcome },
    Unclaim { outcome: Outcome },
    Done { outcome: Outcome },
}

/// Begins to tell an outcome.
pub fn tell(outcome: Outcome) -> Telling
    ensures asks { (s : Server) → telling_asks s result ≡ tell s outcome }
    ensures most { telling_most result ≡ 2 }
{
    Telling::Write {
        text: told_text(&outcome),
        outcome,
    }
}

/// Comes out so, and the client isn't told.
pub fn untold(outcome: Outcome) -> Telling
    ensures { result ≡ Telling.Done outcome }
{
    Telling::Done { outcome }
}

impl Telling {
    /// What stands next, where the server with this end of a pipe serves in that line.
    pub fn next(&self, line: u32, server: Pid, fd: Fd) -> Step<'_, Outcome>
        ensures { next_of result ≡ first (telling_asks (record { line = line; pid = server.0; fd = fd.0 }) self.now) }
    {
        match self {
            Telling::Write { text, .. } => Step::Call {
                line,
                pid: server,
                call: Call::WriteFd {
                    fd,
                    bytes: text.as_bytes(),
                },
            },
            Telling::Unclaim { .. } => Step::Call {
                line,
                pid: server,
                call: Call::Unpex { fd },
            },
            Telling::Done { outcome } => Step::Came(*outcome),
        }
    }

    /// What it is once the call that stands next is answered.
    pub fn heard(&self, reply: &Reply) -> Telling
        ensures asks { (s : Server) (bytes : List ℕ) → telling_asks s result ≡ heard (telling_asks s self.now) (record { reply = reply.now; bytes = bytes }) }
        ensures fewer { (s : Server) → IsDue (first (telling_asks s self.now)) → telling_most result < telling_most self.now }
    {
        match self {
            Telling::Write { outcome, .. } => Telling::Unclaim {
                outcome: when_told(outcome, !matches!(reply, Reply::No(_))),
            },
            Telling::Unclaim { outcome } => Telling::Done { outcome: *outcome },
            Telling::Done { outcome } => Telling::Done { outcome: *outcome },
        }
    }
}
