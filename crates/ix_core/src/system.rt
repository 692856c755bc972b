ghost use Rattle.std.specs.Prelude.{◌≡◌, ◌<◌};
ghost use Rattle.ix_model.specs.history.Seats.{made_by, GoesOn};
ghost use Rattle.ix_core.specs.Stops.{FilledUp};

use crate::keeper::Core;
use crate::stops::Stops;
use ix_model::{Answer, Buf, Call, Pid, Sys};

/// What makes calls on a core as one seat, on one thread. It borrows the core.
///
/// It means the entries of its seat in the core's history, each with the reply and the bytes that the history's run gives. So
/// one that is made anew on the same core for the same seat means the same list. A full journal alone stops its calls: memory never runs
/// out.
#[derive(Drop)]
pub struct CoreSys<'a> {
    core: &'a mut Core,
    seat: u32,
    stops: Stops,
    ghost last: { 0 < stops.count → FilledUp stops.used stops.cap core.now },
}

impl<'a> CoreSys<'a> {
    ghost use Rattle.ix_core.specs.OneSeat.{core_of, seat_of, made_of, stops_of};

    /// A seat's system over a core. It has the entries that the seat has made there, and no stops.
    pub fn new(core: &'a mut Core, seat: u32) -> CoreSys<'a>
        ensures same { (core_of result).ghost_name ≡ core.entry.ghost_name }
        ensures core { (core_of result).now ≡ core.old }
        ensures seat { seat_of result ≡ seat }
        ensures made { made_of result ≡ made_by seat core.old }
        ensures fresh { stops_of result ≡ 0 }
    {
        CoreSys {
            core,
            seat,
            stops: Stops::none(),
        }
    }
}

impl Sys for CoreSys<'_> {
    ghost use Rattle.std.{specs.Prelude.{refl}, proofs.Common.{◌∙◌, subst}};
    ghost use Rattle.ix_model.proofs.words.Seats.{goes_on_not, goes_on_further};
    ghost use Rattle.ix_core.specs.OneSeat.{core_of, seat_of, made_of, stops_of, stopped_of, Onward};

    ghost seat = { seat_of };

    ghost made = { made_of };

    ghost stops = { stops_of };

    ghost stopped = { stopped_of };

    ghost follows = { Onward };

    ghost reflexive = { λ s. (refl, refl, goes_on_not (seat_of s) (core_of s).now) };

    ghost transitive = { λ s t u p q. (
      q.0 ∙ p.0,
      q.1 ∙ p.1,
      goes_on_further (seat_of s) (core_of s).now (core_of t).now (core_of u).now p.2
          (subst (λ n. GoesOn n (core_of t).now (core_of u).now) p.1 q.2),
    ) };

    fn call(&mut self, line: u32, pid: Pid, call: &Call<'_>, buf: &mut Buf) -> Answer {
        let answer = self.core.call(self.seat, line, pid, call, buf);
        if let Answer::JournalFull { used, need, cap } = answer {
            self.stops.note(used, need, cap);
        }
        answer
    }
}
