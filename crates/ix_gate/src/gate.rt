// The gate itself.
ghost use Rattle.std.specs.Prelude.{◌≡◌, ℕ, ◌+◌, ◌<◌, ◌≤◌, [], Some, IfOk, All, vec_len, slice_get};
ghost use Rattle.ix_gate.specs.{declared.view.Role.TheVariants.{Next}, View.{fresh}, Rule.{most_seats}, Seat.{new_seat, StandsFor}};

use crate::machine::Machine;
use crate::rule::{Opening, Turns};
use crate::seat::{Seat, Token};
use crate::steps::{HandOn, Number};
use crate::view::View;
use atomic_table::Table;
use ix_memory::NoMemory;
use std::alloc::Global;
use std::marker::Model;
use std::mem;
use std::snapshot::Snapshot;

type Room<M> = Table<
    Option<M>,
    View<<M as Machine>::Base, <M as Machine>::Entry>,
    Opening<M>,
    Turns<M>,
    Global,
>;

/// A ticket lock round a machine. Threads share it by reference, each with a seat of its own.
///
/// Contracts see which gate it is, and the number of its seats.
#[derive(Drop)]
pub struct Gate<M: Machine> {
    pub(crate) table: Room<M>,
    seats: u32,
}

impl<M: Machine> Model for Gate<M> {
    ghost use Rattle.std.specs.Prelude.{◌≡◌};
    ghost use Rattle.ix_gate.specs.Gate.{GateState};

    ghost Value = { GateState };

    ghost view = { λ g. record { id = g.table.shared.table_id; seats = g.seats } };

    ghost invariant = { λ g.
        (g.table.shared.table_id.words ≡ 3)
        × (g.table.shared.table_id.slots ≡ 1)
        × (g.table.shared.key.seats ≡ g.seats) };
}

impl<M: Machine> Gate<M> {
    /// A gate that keeps the machine, and its seats: the one at index `i` has the number `i`.
    ///
    /// Where there is no memory for them, the machine is dropped.
    pub fn new(alloc: Global, machine: M, seats: u32) -> Result<(Gate<M>, Vec<Seat<M>>), NoMemory>
        requires empty { M.history machine ≡ [] }
        requires seats { (0 < seats) × (seats ≤ most_seats) }
        ensures gate { IfOk result (λ r. r.0.seats ≡ seats) }
        ensures count { IfOk result (λ r. vec_len r.1 ≡ seats) }
        ensures seats { IfOk result (λ r. (k : ℕ) → k < seats
            → slice_get r.1.items k ≡ Some (new_seat r.0.id seats (Some (M.base machine)) k)) }
    {
        let mut slots = Vec::with_capacity(alloc, 1)?;
        let mut all = Vec::with_capacity(alloc, seats as usize)?;
        let opening = Opening {
            machine: Snapshot::of(&machine),
            seats,
        };
        slots.push_reserved(Some(machine));
        let Ok((table, mut maker)) = Table::new(alloc, &[0, 0, 0], slots, &opening) else {
            return Err(NoMemory);
        };
        let gate = Gate { table, seats };
        for number in 0..seats {
            all.push_reserved(make_seat(&gate, &mut maker, number));
        }
        Ok((gate, all))
    }

    /// The machine, once each other seat was joined into this one: each number of the gate is the
    /// seat's own, or one that it ended. Each entry of the history was made by one of these.
    pub fn close(self, seat: Seat<M>) -> M
        requires gate { seat.gate ≡ self.id }
        requires free { seat.taken ≡ None }
        requires all { (n : ℕ) → n < self.seats → StandsFor seat n }
        ensures base { seat.base ≡ Some (M.base result) }
        ensures history { M.history result ≡ seat.seen }
        ensures entries { All (λ e. StandsFor seat (M.seat e)) (M.history result) }
    {
        let Gate { table, seats: _ } = self;
        let Seat {
            token,
            number: _,
            turns: _,
        } = seat;
        let mut closed = table.close_with(token);
        let machine = closed.take(0).unwrap();
        closed.free();
        machine
    }
}

// Makes the seat of the next number. The step that makes the number is the new seat's own: what
// `maker` was becomes the seat, and `maker` is left with what may make the number after it.
fn make_seat<M: Machine>(gate: &Gate<M>, maker: &mut Token<M>, number: u32) -> Seat<M>
    requires gate { maker.old.table_id ≡ gate.now.id }
    requires maker { maker.old.me ≡ (fresh maker.old.me.0.seats maker.old.me.0.base (Next number), []) }
    requires base { (b : M.Base) × (maker.old.me.0.base ≡ Some b) }
    requires number { number < gate.now.seats }
    ensures gate { maker.new.table_id ≡ maker.old.table_id }
    ensures maker { maker.new.me ≡ (fresh maker.old.me.0.seats maker.old.me.0.base (Next (number + 1)), []) }
    ensures seat { result ≡ new_seat gate.now.id maker.old.me.0.seats maker.old.me.0.base number }
{
    let shared = &gate.table.shared;
    shared.fetch_add::<Number<M>>(maker, 2, 1);
    let next = shared.split_seat::<HandOn>(maker);
    Seat {
        token: mem::replace(maker, next),
        number,
        turns: 0,
    }
}
