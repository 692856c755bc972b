ghost use Rattle.std.specs.Prelude.{◌≡◌};
ghost use Rattle.ix_lanes.specs.asking.Handing.{handed_in, who_in};

use ix_asking::Outcome;
use ix_model::{Fd, Reply};

/// What comes of a line for the names that it gives.
#[derive(Clone, Copy)]
pub enum Handed {
    /// No number.
    Nothing,
    /// A descriptor or a pid.
    Number(u64),
    /// The descriptors of both ends of a pipe.
    Two(Fd, Fd),
}

/// What a reply hands to names.
pub fn handed_in(reply: &Reply) -> Handed
    ensures { result ≡ handed_in reply.now }
{
    match reply {
        Reply::Number(n) => Handed::Number(*n),
        Reply::Two(first, second) => Handed::Two(*first, *second),
        _ => Handed::Nothing,
    }
}

/// What a `login` hands to its name: the child that was granted the session.
pub fn who_in(outcome: &Outcome) -> Handed
    ensures { result ≡ who_in outcome.now }
{
    match outcome {
        Outcome::Granted { who, .. } => Handed::Number(who.0 as u64),
        _ => Handed::Nothing,
    }
}
