//! A seat's system that is watched.
ghost use Rattle.std.specs.Prelude.{◌≡◌, ◌<◌};
ghost use mathlib.Core.List.{IsPrefix};
ghost use Rattle.ix_gate.specs.Seat.{after_meeting};
ghost use Rattle.ix_kernel.specs.Systems.{FilledUp, made_at};

use ix_kernel::{KSeat, Kernel, SeatSys};
use ix_model::{Answer, Buf, Call, Pid, Sys};
use std::marker::Model;
use std::sync::Wait;

/// What is told of each call before it is made. Contracts learn nothing of it: it lets a test hold a lane.
pub trait Watch: Sync {
    /// A lane is about to make a call: the number of its seat, and that of the line from which the call comes.
    fn before(&self, seat: u32, line: u32);
}

/// A watch that does nothing.
pub struct NoWatch;

impl Watch for NoWatch {
    fn before(&self, _seat: u32, _line: u32) {}
}

/// A seat's system, and a watch that is told of each of its calls before it is made. The seat holds no turn then.
#[derive(Drop)]
pub struct Watched<'a, R, W> {
    sys: SeatSys<'a, R>,
    /// The number of the seat.
    number: u32,
    watch: &'a W,
}

impl<'a, R, W> Model for Watched<'a, R, W> {
    ghost use Rattle.std.specs.{Prelude.{◌≡◌}, Coded.{codes}};
    ghost use Rattle.ix_label.specs.contracts.label.Label as label_type;
    ghost use Rattle.ix_kernel.specs.Systems.{SystemState};

    ghost Value = { SystemState };

    ghost coded = { Prim.hlevel (codes, label_type.the_row.coded) };

    ghost view = { λ w. w.sys };

    ghost invariant = { λ w. w.sys.seat.number ≡ w.number };
}

impl<'a, R, W> Watched<'a, R, W> {
    /// The system of a seat of this number. It has the entries that the seat has made, and no stops.
    pub fn new(
        kernel: &'a Kernel,
        seat: KSeat,
        number: u32,
        rt: &'a R,
        watch: &'a W,
    ) -> Watched<'a, R, W>
        requires kernel { seat.gate ≡ kernel.now.id }
        requires number { seat.number ≡ number }
        ensures { result ≡ record { kernel = kernel.now; seat = seat; stops = 0; used = 0; need = 0; cap = 0 } }
    {
        Watched {
            sys: SeatSys::new(kernel, seat, rt),
            number,
            watch,
        }
    }

    /// Learns what the other's seat has seen. What it has made, and its stops, stay.
    pub fn meet(&mut self, other: &mut Watched<'a, R, W>)
        requires { self.old.kernel ≡ other.old.kernel }
        ensures seen { IsPrefix self.old.seat.seen self.new.seat.seen × IsPrefix other.old.seat.seen self.new.seat.seen }
        ensures made { made_at self.new.seat ≡ made_at self.old.seat }
        ensures system { self.new ≡ record self.old {
          seat = after_meeting self.old.seat other.old.seat.seen self.old.seat.ended self.new.seat.look_found;
        } }
        ensures other { other.new ≡ other.old }
    {
        self.sys.meet(&mut other.sys);
    }

    /// The seat. What the last stop told fits what the seat has seen.
    pub fn into_seat(self) -> KSeat
        ensures seat { result ≡ self.entry.seat }
        ensures last { 0 < self.entry.stops → FilledUp self.entry.used self.entry.cap self.entry.seat }
    {
        let Watched { sys, .. } = self;
        sys.into_seat()
    }
}

impl<R: Wait, W: Watch> Sys for Watched<'_, R, W> {
    ghost use Rattle.ix_kernel.specs.Systems.{seat_of, made_of, stopped_of, GoesOn, goes_on_not, goes_on_further};

    ghost seat = { seat_of };

    ghost made = { made_of };

    ghost stops = { λ s. s.stops };

    ghost stopped = { stopped_of };

    ghost follows = { GoesOn };

    ghost reflexive = { goes_on_not };

    ghost transitive = { goes_on_further };

    fn call(&mut self, line: u32, pid: Pid, call: &Call<'_>, buf: &mut Buf) -> Answer {
        self.watch.before(self.number, line);
        self.sys.call(line, pid, call, buf)
    }
}
