// A seat at a gate, and what it may call.
ghost use Rattle.std.specs.Prelude.{◌≡◌, ◌+◌, ◌<◌, ◌≤◌, List, [], ◌∷◌, ◌++◌, None, Some, IfOk, IfErr, IsOk};
ghost use mathlib.Core.List.{IsPrefix};
ghost use Rattle.ix_gate.specs.{declared.view.Stage.TheVariants.{Waits}, History.{entries_of, Grows, KeepsEnded, IsInLine}, Rule.{most_turns}};
ghost use Rattle.ix_gate.specs.{Seat.{own_entries, after_take, after_give, after_meeting, after_busy, LearnsServed}, AtRest.{TakesMachine}};

use crate::gate::Gate;
use crate::machine::Machine;
use crate::steps::{Draw, End, FreeLook, Look, Note, PassOn, TryDraw};
use crate::view::View;
use crossbeam_utils::Backoff;
use std::marker::Model;
use std::sync::Wait;

/// The next ticket was not the number that is served: a turn was under way or waited for, or began
/// just then. These are the number that `try_take` found served, and the ticket that its exchange
/// found after that.
#[derive(Debug, Drop)]
pub struct Busy {
    pub serving: u64,
    pub ticket: u64,
}

// The turns that a seat may make. With 64 seats no count of tickets then comes to 2^64.
const MOST_TURNS: u64 = 1 << 57;

pub(crate) type Token<M> = atomic_table::Seat<
    Option<M>,
    View<<M as Machine>::Base, <M as Machine>::Entry>,
>;

/// A seat at a gate: the right to take turns there, and what was seen of the machine's history.
///
/// Contracts see a `SeatState`. No call changes a seat's gate, base or number. It holds the turn
/// from `take`, or an `Ok` of `try_take`, until `give`; the other calls ask that it holds none.
#[derive(Drop)]
pub struct Seat<M: Machine> {
    pub(crate) token: Token<M>,
    pub(crate) number: u32,
    pub(crate) turns: u64,
}

impl<M: Machine> Model for Seat<M> {
    ghost use Rattle.ix_gate.specs.{Seat.{SeatState}, AtRest.{state_of, IsAtRest}};

    ghost Value = { SeatState M.Base M.Entry };

    ghost view = { λ s. state_of s.token.table_id s.number s.turns s.token.me.0 };

    ghost invariant = { λ s. IsAtRest M.seat s.number s.turns s.token.me };
}

impl<M: Machine> Seat<M> {
    /// The seat's number, from 0: its index among the seats that `Gate::new` gave.
    pub fn number(&self) -> u32
        ensures number { result ≡ self.now.number }
        ensures ended { KeepsEnded M.seat self.now.ended self.now.seen }
    {
        self.number
    }

    /// The turns that the seat has made, at most 2^57.
    pub fn turns(&self) -> u64
        ensures turns { result ≡ self.now.turns }
        ensures most { result ≤ most_turns }
    {
        self.turns
    }

    /// Draws a ticket, waits for its turn, and takes the machine. Its history begins with all that
    /// the seat has seen, and has of the seat's own entries, and of each that it ended, just those
    /// that it had. The last look found the ticket, so that each turn before it was passed on.
    ///
    /// A seat that has made 2^57 turns waits forever.
    pub fn take<R: Wait>(&mut self, rt: &R, gate: &Gate<M>) -> M
        requires gate { self.old.gate ≡ gate.now.id }
        requires free { self.old.taken ≡ None }
        ensures base { self.old.base ≡ Some (M.base result) }
        ensures seen { IsPrefix self.old.seen (M.history result) }
        ensures own { entries_of M.seat self.old.number (M.history result) ≡ own_entries M.seat self.old }
        ensures ended { KeepsEnded M.seat self.old.ended (M.history result) }
        ensures looks { self.old.looks < self.new.looks }
        ensures served { LearnsServed self.old (M.history result) self.new.look_found }
        ensures seat { self.new ≡ after_take self.old (M.history result) self.new.looks self.new.look_found }
    {
        if self.turns >= MOST_TURNS {
            for _ in rt.forever() {}
            unreachable!()
        }
        let shared = &gate.table.shared;
        let ticket = shared.fetch_add::<Draw<M>>(&mut self.token, 0, 1);
        self.turns += 1;
        await_turn(rt, gate, &mut self.token, ticket)
    }

    /// Takes the machine where nobody has a ticket, and waits for nobody. What `take` says of the
    /// machine and the seat holds of an `Ok`.
    ///
    /// An `Ok` has looked twice: the number that was found served is the ticket. `Busy` comes just
    /// where the exchange finds another ticket next, a later one. The seat keeps both numbers, and
    /// else stays as it was. At a gate of one seat it never comes.
    pub fn try_take(&mut self, gate: &Gate<M>) -> Result<M, Busy>
        requires gate { self.old.gate ≡ gate.now.id }
        requires free { self.old.taken ≡ None }
        requires room { self.old.turns < most_turns }
        ensures base { IfOk result (λ m. self.old.base ≡ Some (M.base m)) }
        ensures seen { IfOk result (λ m. IsPrefix self.old.seen (M.history m)) }
        ensures own { IfOk result (λ m.
            entries_of M.seat self.old.number (M.history m) ≡ own_entries M.seat self.old) }
        ensures ended { IfOk result (λ m. KeepsEnded M.seat self.old.ended (M.history m)) }
        ensures served { IfOk result (λ m. LearnsServed self.old (M.history m) self.new.look_found) }
        ensures seat { IfOk result (λ m.
            self.new ≡ after_take self.old (M.history m) (self.old.looks + 2) self.new.look_found) }
        ensures busy { IfErr result (λ b. self.new ≡ after_busy self.old b.serving b.ticket) }
        ensures late { IfErr result (λ b. LearnsServed self.old self.old.seen b.serving × (b.serving < b.ticket)) }
        ensures alone { self.old.seats ≡ 1 → IsOk result }
    {
        let shared = &gate.table.shared;
        let serving = shared.load::<FreeLook<M>>(&mut self.token, 1);
        let ticket = shared.compare_exchange::<TryDraw<M>>(
            &mut self.token,
            0,
            serving,
            serving + 1,
        );
        if ticket != serving {
            return Err(Busy { serving, ticket });
        }
        self.turns += 1;
        Ok(shared.exchange(&mut self.token, 0, None).unwrap())
    }

    /// Puts the machine back, and passes the turn on. Its history is the one that the seat took, or
    /// has one entry more, which the seat made: the seat has then seen it.
    pub fn give(&mut self, gate: &Gate<M>, machine: M)
        requires gate { self.old.gate ≡ gate.now.id }
        requires base { self.old.base ≡ Some (M.base machine) }
        requires history { (taken : List M.Entry) × (self.old.taken ≡ Some taken)
            × Grows M.seat self.old.number taken (M.history machine) }
        ensures { self.new ≡ after_give self.old (M.history machine) }
    {
        let shared = &gate.table.shared;
        drop(shared.exchange(&mut self.token, 0, Some(machine)));
        shared.fetch_add::<PassOn<M>>(&mut self.token, 1, 1);
    }

    /// Learns what the other seat has seen: of two histories at one gate one begins the other, and
    /// this seat has then seen the longer. One look finds a number that is served, after the turns
    /// of all that it has seen. The other stays as it was.
    pub fn meet(&mut self, gate: &Gate<M>, other: &mut Seat<M>)
        requires gate { (self.old.gate ≡ gate.now.id) × (other.old.gate ≡ gate.now.id) }
        requires free { (self.old.taken ≡ None) × (other.old.taken ≡ None) }
        ensures line { IsInLine self.old.seen other.old.seen }
        ensures seen { IsPrefix self.old.seen self.new.seen × IsPrefix other.old.seen self.new.seen }
        ensures own { own_entries M.seat self.new ≡ own_entries M.seat self.old }
        ensures served { LearnsServed self.old self.new.seen self.new.look_found }
        ensures seat { self.new ≡ after_meeting self.old other.old.seen self.old.ended self.new.look_found }
        ensures other { other.new ≡ other.old }
    {
        let shared = &gate.table.shared;
        let note = shared.split_seat::<Note>(&mut other.token);
        shared.join_seat::<Note>(&mut self.token, note);
        shared.load::<FreeLook<M>>(&mut self.token, 1);
    }

    /// Learns what the other seat has seen, as `meet` does, and ends it: its number, with the
    /// entries that it made, and what it had ended itself, are then ended by this seat.
    pub fn join(&mut self, gate: &Gate<M>, other: Seat<M>)
        requires gate { (self.old.gate ≡ gate.now.id) × (other.gate ≡ gate.now.id) }
        requires free { (self.old.taken ≡ None) × (other.taken ≡ None) }
        ensures line { IsInLine self.old.seen other.seen }
        ensures seen { IsPrefix self.old.seen self.new.seen × IsPrefix other.seen self.new.seen }
        ensures own { own_entries M.seat self.new ≡ own_entries M.seat self.old }
        ensures served { LearnsServed self.old self.new.seen self.new.look_found }
        ensures seat { self.new ≡ after_meeting self.old other.seen
            (self.old.ended ++ (other.number, own_entries M.seat other) ∷ other.ended)
            self.new.look_found }
    {
        let Seat {
            token,
            number: _,
            turns: _,
        } = other;
        let shared = &gate.table.shared;
        shared.join_seat::<End>(&mut self.token, token);
        shared.load::<FreeLook<M>>(&mut self.token, 1);
    }
}

// Looks until the ticket is served, and takes the machine from the slot.
fn await_turn<M: Machine, R: Wait>(rt: &R, gate: &Gate<M>, token: &mut Token<M>, ticket: u64) -> M
    requires gate { token.old.table_id ≡ gate.now.id }
    requires waits { token.old.me.0.stage ≡ Waits ticket }
    requires drawn { token.old.me.0.ticket ≡ ticket }
    requires free { token.old.me.1 ≡ [] }
    ensures token { (token.new.table_id ≡ token.old.table_id) × (token.new.id ≡ token.old.id) }
    ensures taken { TakesMachine M.base M.history M.seat token.old.me token.new.me result }
{
    let shared = &gate.table.shared;
    let backoff = Backoff::new();
    for _ in rt.forever() {
        let serving = shared.load::<Look<M>>(token, 1);
        if serving == ticket {
            return shared.exchange(token, 0, None).unwrap();
        }
        backoff.snooze();
    }
    unreachable!()
}
