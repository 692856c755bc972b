// The rule of a gate's table: its words are the next ticket, the number that is served and the
// next seat's number, and its one slot is where the machine lies between turns.
use crate::machine::Machine;
use crate::view::View;
use atomic_table::TableRule;
use std::marker::PhantomData;
use std::snapshot::Snapshot;

/// What the table is told when it is made: the machine as it then is, and the number of seats.
#[derive(Drop)]
pub struct Opening<M> {
    pub machine: Snapshot<M>,
    pub seats: u32,
}

/// The rule: turns go by tickets, and each seat has seen a beginning of one history.
pub struct Turns<M> {
    marker: PhantomData<M>,
}

impl<M: Machine> TableRule<Option<M>, View<M::Base, M::Entry>, Opening<M>> for Turns<M> {
    ghost use Rattle.ix_gate.specs.{View.{first_view}, Rule.{Obeys}};

    ghost holds = { λ k. Obeys M.base M.history M.seat (M.base k.machine.value) k.seats };

    ghost first = { λ k. first_view k.seats (M.base k.machine.value) };
}
