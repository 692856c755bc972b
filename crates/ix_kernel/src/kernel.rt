// A kernel: a gate round a core.
ghost use Rattle.std.specs.Prelude.{◌≡◌, ℕ, ◌<◌, ◌≤◌, [], Some, IfOk, All, vec_len, slice_get};
ghost use Rattle.ix_gate.specs.{Rule.{most_seats}, Seat.{new_seat, StandsFor}};

use crate::held::Held;
use crate::seat::KSeat;
use ix_core::Core;
use ix_gate::Gate;
use ix_model::NoMemory;
use std::alloc::Global;
use std::marker::Model;

/// A core that threads share by reference, each with a seat of its own.
///
/// Contracts see which kernel it is, and the number of its seats.
#[derive(Drop)]
pub struct Kernel {
    pub(crate) gate: Gate<Held>,
}

impl Model for Kernel {
    ghost use Rattle.ix_gate.specs.Gate.{GateState};

    ghost Value = { GateState };

    ghost view = { λ k. k.gate };
}

impl Kernel {
    /// A kernel over a core without entries, and its seats: the one at index `i` has the number `i`, and the core's config.
    ///
    /// It takes all memory that there will be. Where there is none, the core is dropped.
    pub fn new(alloc: Global, core: Core, seats: u32) -> Result<(Kernel, Vec<KSeat>), NoMemory>
        requires empty { core.events ≡ [] }
        requires seats { (0 < seats) × (seats ≤ most_seats) }
        ensures kernel { IfOk result (λ r. r.0.seats ≡ seats) }
        ensures count { IfOk result (λ r. vec_len r.1 ≡ seats) }
        ensures seats { IfOk result (λ r. (k : ℕ) → k < seats
            → slice_get r.1.items k ≡ Some (new_seat r.0.id seats (Some core.config) k)) }
    {
        let core = Box::new(alloc, core)?;
        let (gate, seats) = Gate::new(alloc, Held { core }, seats)?;
        let mut all = Vec::with_capacity(alloc, seats.len())?;
        for seat in seats {
            all.push_reserved(KSeat { seat });
        }
        Ok((Kernel { gate }, all))
    }

    /// The core, once each other seat was joined into this one: each number of the kernel is the seat's own, or one that it
    /// ended. The core's config is the seat's, and its history is what the seat has seen; each entry was made by one of these.
    pub fn close(self, seat: KSeat) -> Core
        requires kernel { seat.gate ≡ self.id }
        requires all { (n : ℕ) → n < self.seats → StandsFor seat n }
        ensures base { seat.base ≡ Some result.config }
        ensures history { result.events ≡ seat.seen }
        ensures entries { All (λ e. StandsFor seat e.seat) result.events }
    {
        let Kernel { gate } = self;
        let KSeat { seat } = seat;
        let Held { core } = gate.close(seat);
        Box::into_inner(core)
    }
}
