ghost use Rattle.std.specs.Prelude.{◌≡◌};
ghost use Rattle.ix_asking.specs.serving.Serveds.{end_of};

use crate::serving::outcome::Outcome;
use crate::stop::Stop;
use ix_policy::Served;

/// How a server served, where its calls ended so: with an outcome, or with the stop of a call that wasn't made.
pub fn served(end: Result<Outcome, Stop>) -> Served
    ensures { end_of result ≡ end }
{
    match end {
        Ok(Outcome::Granted { rule, who, told }) => Served::Granted { rule, who, told },
        Ok(Outcome::Denied { rule, told }) => Served::Denied { rule, told },
        Ok(Outcome::BadRequest { at, told }) => Served::BadRequest { at, told },
        Ok(Outcome::NotPrivate) => Served::NotPrivate,
        Ok(Outcome::Refused { why, step }) => Served::Refused { why, step },
        Err(Stop::Full { used, need, cap }) => Served::Full { used, need, cap },
        Err(Stop::NoMemory) => Served::NoMemory,
    }
}
