// The kinds of step that a gate makes on its table, by what each tells the seat that makes it.
use crate::machine::Machine;
use crate::view::View;
use atomic_table::{Join, Play, Split};
use std::marker::PhantomData;

/// A fetch-and-add on the next ticket.
pub struct Draw<M> {
    marker: PhantomData<M>,
}

impl<M: Machine> Play<Option<M>, View<M::Base, M::Entry>> for Draw<M> {
    ghost use Rattle.ix_gate.specs.Steps.{Draws};

    ghost then = { Draws };
}

/// A load of the number that is served, by a seat with a ticket.
pub struct Look<M> {
    marker: PhantomData<M>,
}

impl<M: Machine> Play<Option<M>, View<M::Base, M::Entry>> for Look<M> {
    ghost use Rattle.ix_gate.specs.Steps.{Looks};

    ghost then = { Looks M.base M.history M.seat };
}

/// A load of the number that is served, by a seat without a ticket.
pub struct FreeLook<M> {
    marker: PhantomData<M>,
}

impl<M: Machine> Play<Option<M>, View<M::Base, M::Entry>> for FreeLook<M> {
    ghost use Rattle.ix_gate.specs.Steps.{FreeLooks};

    ghost then = { FreeLooks M.seat };
}

/// A fetch-and-add on the number that is served, once the machine lies in the slot again.
pub struct PassOn<M> {
    marker: PhantomData<M>,
}

impl<M: Machine> Play<Option<M>, View<M::Base, M::Entry>> for PassOn<M> {
    ghost use Rattle.ix_gate.specs.Steps.{PassesOn};

    ghost then = { PassesOn M.history M.seat };
}

/// A compare-and-exchange on the next ticket, from the number that was found served.
pub struct TryDraw<M> {
    marker: PhantomData<M>,
}

impl<M: Machine> Play<Option<M>, View<M::Base, M::Entry>> for TryDraw<M> {
    ghost use Rattle.ix_gate.specs.Steps.{TriesDraw};

    ghost then = { TriesDraw M.base M.history M.seat };
}

/// A fetch-and-add on the next seat's number.
pub struct Number<M> {
    marker: PhantomData<M>,
}

impl<M: Machine> Play<Option<M>, View<M::Base, M::Entry>> for Number<M> {
    ghost use Rattle.ix_gate.specs.Steps.{MakesNumber};

    ghost then = { MakesNumber };
}

/// The seat that has just made its number keeps that, and hands on the right to make the next.
pub struct HandOn;

impl<B, E> Split<View<B, E>> for HandOn {
    ghost use Rattle.ix_gate.specs.View.{numbered_view, next_view};

    ghost left = { numbered_view };

    ghost right = { next_view };
}

/// What a seat has seen goes to another: it is cut off as a note, which the other takes in.
pub struct Note;

impl<B, E> Split<View<B, E>> for Note {
    ghost use Rattle.ix_gate.specs.View.{note};

    ghost left = { λ v. v };

    ghost right = { note };
}

impl<B, E> Join<View<B, E>> for Note {
    ghost use Rattle.ix_gate.specs.View.{with_note, spent_view};

    ghost both = { with_note };

    ghost spent = { spent_view };
}

/// A whole seat is joined into another, and ends.
pub struct End;

impl<B, E> Join<View<B, E>> for End {
    ghost use Rattle.ix_gate.specs.View.{with_seat, spent_view};

    ghost both = { with_seat };

    ghost spent = { spent_view };
}
