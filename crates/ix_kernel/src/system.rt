// A seat of a kernel, as what makes calls.
ghost use Rattle.std.specs.Prelude.{◌≡◌, ◌<◌};
ghost use mathlib.Core.List.{IsPrefix};
ghost use Rattle.ix_gate.specs.Seat.{after_meeting};
ghost use Rattle.ix_kernel.specs.Systems.{FilledUp, made_at};

use crate::kernel::Kernel;
use crate::seat::KSeat;
use ix_core::Stops;
use ix_model::{Answer, Buf, Call, Pid, Sys};
use std::marker::Model;
use std::sync::Wait;

/// What makes calls on a kernel as one seat. It has the seat, and shares the kernel.
///
/// It means the entries of its seat in what the seat has seen, each with the reply and the bytes that the run of that gives. So one that is
/// made anew with the same seat means the same list. A full journal alone stops its calls: memory never runs out.
#[derive(Drop)]
pub struct SeatSys<'a, R> {
    kernel: &'a Kernel,
    seat: KSeat,
    rt: &'a R,
    stops: Stops,
}

impl<'a, R> Model for SeatSys<'a, R> {
    ghost use Rattle.std.specs.Coded.{codes};
    ghost use Rattle.ix_label.specs.contracts.label.Label as label_type;
    ghost use Rattle.ix_kernel.specs.Systems.{SystemState, Sits};

    ghost Value = { SystemState };

    ghost coded = { Prim.hlevel (codes, label_type.the_row.coded) };

    ghost view = { λ s. record {
      kernel = s.kernel.now;
      seat = s.seat;
      stops = s.stops.count;
      used = s.stops.used;
      need = s.stops.need;
      cap = s.stops.cap;
    } };

    ghost invariant = { λ s. Sits (record { kernel = s.kernel.now; seat = s.seat; stops = s.stops.count; used = s.stops.used; need = s.stops.need; cap = s.stops.cap }) };
}

impl<'a, R> SeatSys<'a, R> {
    /// A seat's system. It has the entries that the seat has made, and no stops.
    pub fn new(kernel: &'a Kernel, seat: KSeat, rt: &'a R) -> SeatSys<'a, R>
        requires { seat.gate ≡ kernel.now.id }
        ensures { result ≡ record { kernel = kernel.now; seat = seat; stops = 0; used = 0; need = 0; cap = 0 } }
    {
        SeatSys {
            kernel,
            seat,
            rt,
            stops: Stops::none(),
        }
    }

    /// Learns what the other's seat has seen, as `KSeat::meet` does. What it has made, and its stops, stay. It asks that both
    /// are of one kernel.
    pub fn meet(&mut self, other: &mut SeatSys<'a, R>)
        requires { self.old.kernel ≡ other.old.kernel }
        ensures seen { IsPrefix self.old.seat.seen self.new.seat.seen × IsPrefix other.old.seat.seen self.new.seat.seen }
        ensures made { made_at self.new.seat ≡ made_at self.old.seat }
        ensures system { self.new ≡ record self.old {
          seat = after_meeting self.old.seat other.old.seat.seen self.old.seat.ended self.new.seat.look_found;
        } }
        ensures other { other.new ≡ other.old }
    {
        self.seat.meet(self.kernel, &mut other.seat);
    }

    /// The seat. What the last stop told fits what the seat has seen.
    pub fn into_seat(self) -> KSeat
        ensures seat { result ≡ self.entry.seat }
        ensures last { 0 < self.entry.stops → FilledUp self.entry.used self.entry.cap self.entry.seat }
    {
        let SeatSys { seat, .. } = self;
        seat
    }
}

impl<R: Wait> Sys for SeatSys<'_, R> {
    ghost use Rattle.ix_kernel.specs.Systems.{seat_of, made_of, stopped_of, GoesOn, goes_on_not, goes_on_further};

    ghost seat = { seat_of };

    ghost made = { made_of };

    ghost stops = { λ s. s.stops };

    ghost stopped = { stopped_of };

    ghost follows = { GoesOn };

    ghost reflexive = { goes_on_not };

    ghost transitive = { goes_on_further };

    fn call(&mut self, line: u32, pid: Pid, call: &Call<'_>, buf: &mut Buf) -> Answer {
        let answer = self.seat.call(self.rt, self.kernel, line, pid, call, buf);
        if let Answer::JournalFull { used, need, cap } = answer {
            self.stops.note(used, need, cap);
        }
        answer
    }
}
