// A seat of a kernel, and what it may call.
ghost use Rattle.std.specs.Prelude.{◌≡◌, ◌+◌, ◌<◌, ◌≤◌, ◌∷◌, ◌++◌, IfOk, IfErr, IsOk};
ghost use mathlib.Core.List.{IsPrefix};
ghost use Rattle.ix_gate.specs.{History.{IsInLine}, Rule.{most_turns}, Seat.{after_meeting, after_busy, LearnsServed}};
ghost use Rattle.ix_model.specs.history.{Calls.{op_of}, Made.{entry}, Systems.{Fits, LeavesRest}};
ghost use Rattle.ix_kernel.specs.{Seen.{own, own_after, after_turn}, Turns.{InTurn, HasRoom, SeenNoninterferent}};

use crate::held::Held;
use crate::kernel::Kernel;
use ix_gate::{Busy, Seat};
use ix_model::{Answer, Buf, Call, Pid};
use std::marker::Model;
use std::sync::Wait;

/// A seat of a kernel: the right to make calls there, and what was seen of the core's history.
///
/// Contracts see what they see of a seat at a gate; its base is the core's config. No call changes its kernel, base or number,
/// and between its calls it holds no turn.
#[derive(Drop)]
pub struct KSeat {
    pub(crate) seat: Seat<Held>,
}

impl Model for KSeat {
    ghost use Rattle.std.specs.{Prelude.{◌≡◌, None}, Coded.{codes}};
    ghost use Rattle.ix_label.specs.contracts.label.Label as label_type;
    ghost use Rattle.ix_kernel.specs.Seen.{KSeatState};

    ghost Value = { KSeatState };

    ghost coded = { Prim.hlevel (codes, label_type.the_row.coded) };

    ghost view = { λ s. s.seat };

    ghost invariant = { λ s. s.seat.taken ≡ None };
}

impl KSeat {
    /// The turns that the seat has made, at most 2^57.
    pub fn turns(&self) -> u64
        ensures turns { result ≡ self.now.turns }
        ensures most { result ≤ most_turns }
    {
        self.seat.turns()
    }

    /// Waits for its turn, and makes the call there: it answers what the core answers in that turn.
    pub fn call<R: Wait>(
        &mut self,
        rt: &R,
        kernel: &Kernel,
        line: u32,
        pid: Pid,
        call: &Call<'_>,
        buf: &mut Buf,
    ) -> Answer
        requires kernel { self.old.gate ≡ kernel.now.id }
        ensures seen { IsPrefix self.old.seen self.new.seen }
        ensures own { own self.new ≡ own_after result (entry self.old.number line pid (op_of call.now)) (own self.old) }
        ensures turn { InTurn result self.old self.new (entry self.old.number line pid (op_of call.now)) buf.old buf.new }
        ensures room { HasRoom result self.new (op_of call.now) }
        ensures fits { Fits (op_of call.now) result }
        ensures rest { LeavesRest result buf.old buf.new }
        ensures noninterference { SeenNoninterferent self.new }
        ensures looks { self.old.looks < self.new.looks }
        ensures seat { self.new ≡ after_turn self.old self.new.seen self.new.looks self.new.look_found }
    {
        let mut held = self.seat.take(rt, &kernel.gate);
        let number = self.seat.number();
        let answer = held.step(number, line, pid, call, buf);
        self.seat.give(&kernel.gate, held);
        answer
    }

    /// Makes the call where nobody has a ticket, and waits for nobody. What `call` says holds of an `Ok`.
    ///
    /// `Busy` comes just where the exchange finds another ticket next than the number that was found served, a later one: no call
    /// was made then, the seat keeps both numbers, and else stays as it was. At a kernel of one seat it never comes.
    pub fn try_call(
        &mut self,
        kernel: &Kernel,
        line: u32,
        pid: Pid,
        call: &Call<'_>,
        buf: &mut Buf,
    ) -> Result<Answer, Busy>
        requires kernel { self.old.gate ≡ kernel.now.id }
        requires room { self.old.turns < most_turns }
        ensures seen { IfOk result (λ a. IsPrefix self.old.seen self.new.seen) }
        ensures own { IfOk result (λ a. own self.new ≡ own_after a (entry self.old.number line pid (op_of call.now)) (own self.old)) }
        ensures turn { IfOk result (λ a. InTurn a self.old self.new (entry self.old.number line pid (op_of call.now)) buf.old buf.new) }
        ensures room { IfOk result (λ a. HasRoom a self.new (op_of call.now)) }
        ensures fits { IfOk result (λ a. Fits (op_of call.now) a) }
        ensures rest { IfOk result (λ a. LeavesRest a buf.old buf.new) }
        ensures noninterference { IfOk result (λ a. SeenNoninterferent self.new) }
        ensures seat { IfOk result (λ a. self.new ≡ after_turn self.old self.new.seen (self.old.looks + 2) self.new.look_found) }
        ensures busy { IfErr result (λ b. self.new ≡ after_busy self.old b.serving b.ticket) }
        ensures late { IfErr result (λ b. LearnsServed self.old self.old.seen b.serving × (b.serving < b.ticket)) }
        ensures buffer { IfErr result (λ b. buf.new ≡ buf.old) }
        ensures alone { self.old.seats ≡ 1 → IsOk result }
    {
        let mut held = self.seat.try_take(&kernel.gate)?;
        let answer = held.step(self.seat.number(), line, pid, call, buf);
        self.seat.give(&kernel.gate, held);
        Ok(answer)
    }

    /// Learns what the other seat has seen: of two histories at one kernel one begins the other, and this seat has then seen the
    /// longer. The other stays as it was. It asks that both are of this kernel, waits for nobody, and takes no memory.
    pub fn meet(&mut self, kernel: &Kernel, other: &mut KSeat)
        requires kernel { (self.old.gate ≡ kernel.now.id) × (other.old.gate ≡ kernel.now.id) }
        ensures line { IsInLine self.old.seen other.old.seen }
        ensures seen { IsPrefix self.old.seen self.new.seen × IsPrefix other.old.seen self.new.seen }
        ensures own { own self.new ≡ own self.old }
        ensures served { LearnsServed self.old self.new.seen self.new.look_found }
        ensures seat { self.new ≡ after_meeting self.old other.old.seen self.old.ended self.new.look_found }
        ensures other { other.new ≡ other.old }
    {
        self.seat.meet(&kernel.gate, &mut other.seat);
    }

    /// Learns what the other seat has seen, as `meet` does, and ends it: its number, with the entries that it made, and what it
    /// had ended itself, are then ended by this seat.
    pub fn join(&mut self, kernel: &Kernel, other: KSeat)
        requires kernel { (self.old.gate ≡ kernel.now.id) × (other.gate ≡ kernel.now.id) }
        ensures line { IsInLine self.old.seen other.seen }
        ensures seen { IsPrefix self.old.seen self.new.seen × IsPrefix other.seen self.new.seen }
        ensures own { own self.new ≡ own self.old }
        ensures served { LearnsServed self.old self.new.seen self.new.look_found }
        ensures seat { self.new ≡ after_meeting self.old other.seen
            (self.old.ended ++ (other.number, own other) ∷ other.ended)
            self.new.look_found }
    {
        let KSeat { seat } = other;
        self.seat.join(&kernel.gate, seat);
    }
}
