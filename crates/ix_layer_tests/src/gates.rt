ghost use Rattle.std.specs.Prelude.{◌≡◌, ℕ, ◌<◌, ◌≤◌, None, All, Contains, IfSome, map};
ghost use Rattle.ix_gate.specs.Seat.{StandsFor};

use ix_gate::{Gate, Machine, Seat};
use std::alloc::Global;
use std::process::Abort;
use std::sync::{Mutex, Wait};
use std::thread;
use std::thread::Threads;

/// How many turns a seat takes on its thread, before the seats meet and once more afterwards.
const TURNS: u64 = 250;

/// A turn: the number of its seat, and how many turns that had made with it.
#[derive(Clone, Copy)]
struct Turn {
    seat: u32,
    count: u64,
}

/// What a gate keeps here: all turns, in order.
#[derive(Drop)]
struct Tally {
    turns: Vec<Turn>,
}

impl Machine for Tally {
    type Base = ();

    type Entry = Turn;

    ghost base = { λ _. tt };

    ghost history = { λ m. m.turns.items };

    ghost seat = { λ e. e.seat };
}

/// What a seat was told of one of its turns: how many turns stood before it.
#[derive(Clone, Copy)]
struct Told {
    turn: Turn,
    before: usize,
}

/// Takes a turn, which is entered. Where memory runs out it isn't.
fn take_turn<R: Wait>(rt: &R, gate: &Gate<Tally>, seat: &mut Seat<Tally>, told: &Mutex<Vec<Told>>)
    requires { (seat.old.gate ≡ gate.now.id) × (seat.old.taken ≡ None) }
    ensures ready { (seat.new.gate ≡ seat.old.gate) × (seat.new.taken ≡ None) }
    ensures number { seat.new.number ≡ seat.old.number }
{
    let mut tally = seat.take(rt, gate);
    let turn = Turn {
        seat: seat.number(),
        count: seat.turns(),
    };
    let before = tally.turns.len();
    drop(tally.turns.push(turn));
    seat.give(gate, tally);
    drop(told.lock(rt).push(Told { turn, before }));
}

/// Takes the turns of a seat, one after the other.
fn take_turns<R: Wait>(rt: &R, gate: &Gate<Tally>, seat: &mut Seat<Tally>, told: &Mutex<Vec<Told>>)
    requires { (seat.old.gate ≡ gate.now.id) × (seat.old.taken ≡ None) }
    ensures ready { (seat.new.gate ≡ seat.old.gate) × (seat.new.taken ≡ None) }
    ensures number { seat.new.number ≡ seat.old.number }
{
    for _ in 0..TURNS {
        take_turn(rt, gate, seat, told);
    }
}

/// All seats take their turns, each on a thread of its own.
fn take_all<R: Threads + Wait + Sync>(
    rt: &R,
    gate: &Gate<Tally>,
    seats: &mut [Seat<Tally>],
    told: &Mutex<Vec<Told>>,
)
    requires { All (λ s. (s.gate ≡ gate.now.id) × (s.taken ≡ None)) seats.old }
    ensures ready { All (λ s. (s.gate ≡ gate.now.id) × (s.taken ≡ None)) seats.new }
    ensures numbers { map (λ s. s.number) seats.new ≡ map (λ s. s.number) seats.old }
{
    thread::for_each_mut(rt, seats, 64, &|_, seat| take_turns(rt, gate, seat, told));
}

/// A seat meets each of these, and each of these meets it.
fn meet_each(gate: &Gate<Tally>, seat: &mut Seat<Tally>, others: &mut [Seat<Tally>])
    requires seat { (seat.old.gate ≡ gate.now.id) × (seat.old.taken ≡ None) }
    requires others { All (λ s. (s.gate ≡ gate.now.id) × (s.taken ≡ None)) others.old }
    ensures seat { (seat.new.gate ≡ seat.old.gate) × (seat.new.taken ≡ None) }
    ensures number { seat.new.number ≡ seat.old.number }
    ensures ready { All (λ s. (s.gate ≡ gate.now.id) × (s.taken ≡ None)) others.new }
    ensures numbers { map (λ s. s.number) others.new ≡ map (λ s. s.number) others.old }
{
    if let Some((other, rest)) = others.split_first_mut() {
        seat.meet(gate, other);
        other.meet(gate, seat);
        meet_each(gate, seat, rest);
    }
}

/// Each of these seats meets each other.
fn meet_all(gate: &Gate<Tally>, seats: &mut [Seat<Tally>])
    requires { All (λ s. (s.gate ≡ gate.now.id) × (s.taken ≡ None)) seats.old }
    ensures ready { All (λ s. (s.gate ≡ gate.now.id) × (s.taken ≡ None)) seats.new }
    ensures numbers { map (λ s. s.number) seats.new ≡ map (λ s. s.number) seats.old }
{
    if let Some((first, rest)) = seats.split_first_mut() {
        meet_each(gate, first, rest);
        meet_all(gate, rest);
    }
}

/// All seats take their turns side by side, meet, and take as many once more.
fn take_twice<R: Threads + Wait + Sync>(
    rt: &R,
    gate: &Gate<Tally>,
    seats: &mut [Seat<Tally>],
    told: &Mutex<Vec<Told>>,
)
    requires { All (λ s. (s.gate ≡ gate.now.id) × (s.taken ≡ None)) seats.old }
    ensures ready { All (λ s. (s.gate ≡ gate.now.id) × (s.taken ≡ None)) seats.new }
    ensures numbers { map (λ s. s.number) seats.new ≡ map (λ s. s.number) seats.old }
{
    take_all(rt, gate, seats, told);
    meet_all(gate, seats);
    take_all(rt, gate, seats, told);
}

/// All seats are joined into the first one.
fn join_all(gate: &Gate<Tally>, seats: Vec<Seat<Tally>>) -> Option<Seat<Tally>>
    requires ready { All (λ s. (s.gate ≡ gate.now.id) × (s.taken ≡ None)) seats.items }
    ensures ready { IfSome result (λ r. (r.gate ≡ gate.now.id) × (r.taken ≡ None)) }
    ensures all { IfSome result (λ r. All (λ s. StandsFor r s.number) seats.items) }
{
    let mut rest = seats.into_iter();
    let mut first = rest.next()?;
    for other in rest {
        first.join(gate, other);
    }
    Some(first)
}

/// All seats take their turns, meeting in between. Then they are joined, and the gate is closed.
fn run_all<R: Threads + Wait + Sync>(
    rt: &R,
    gate: Gate<Tally>,
    mut seats: Vec<Seat<Tally>>,
    told: &Mutex<Vec<Told>>,
) -> Option<Tally>
    requires ready { All (λ s. (s.gate ≡ gate.id) × (s.taken ≡ None)) seats.items }
    requires all { (n : ℕ) → n < gate.seats → Contains (map (λ s. s.number) seats.items) n }
{
    take_twice(rt, &gate, seats.as_mut_slice(), told);
    let first = join_all(&gate, seats)?;
    Some(gate.close(first))
}

/// Whether the turns of a seat are all that it took, once and in order.
fn has_turns_of(turns: &[Turn], seat: u32) -> bool {
    let mut count = 0u64;
    let mut ordered = true;
    for turn in turns {
        if turn.seat == seat {
            count = count.saturating_add(1);
            ordered = ordered && turn.count == count;
        }
    }
    ordered && count == 2 * TURNS
}

/// Whether a turn stands where its seat was told.
fn stands(turns: &[Turn], told: &Told) -> bool {
    match turns.get(told.before) {
        Some(turn) => turn.seat == told.turn.seat && turn.count == told.turn.count,
        None => false,
    }
}

/// Whether these are all turns of so many seats, each where its seat was told.
fn account_for(turns: &[Turn], told: &[Told], seats: u32) -> bool {
    for told in told {
        if !stands(turns, told) {
            return false;
        }
    }
    for seat in 0..seats {
        if !has_turns_of(turns, seat) {
            return false;
        }
    }
    turns.len() == told.len()
}

/// Whether so many seats shared one history.
fn share<R: Threads + Wait + Sync>(rt: &R, alloc: Global, count: u32) -> bool
    requires { (0 < count) × (count ≤ 64) }
{
    let tally = Tally {
        turns: Vec::new(alloc),
    };
    let told = Mutex::new(Vec::new(alloc));
    let Ok((gate, seats)) = Gate::new(alloc, tally, count) else {
        return false;
    };
    match run_all(rt, gate, seats, &told) {
        Some(tally) => account_for(tally.turns.as_slice(), told.into_inner().as_slice(), count),
        None => false,
    }
}

#[test]
fn no_seat_takes_a_turn_at_a_copy(rt: HostRuntime) {
    for count in [1, 2, 8] {
        assert!(rt; share(&rt, rt.alloc(), count), "{count} seats");
    }
}

/// Whether seat 1 finds a turn of seat 0 under way, and takes its own once that is over.
fn is_busy<R: Wait>(
    rt: &R,
    gate: &Gate<Tally>,
    first: &mut Seat<Tally>,
    second: &mut Seat<Tally>,
) -> bool
    requires gate { (first.old.gate ≡ gate.now.id) × (second.old.gate ≡ gate.now.id) }
    requires free { (first.old.taken ≡ None) × (second.old.taken ≡ None) }
    requires first { second.old.turns ≡ 0 }
{
    let tally = first.take(rt, gate);
    let found = second.try_take(gate);
    first.give(gate, tally);
    match found {
        Ok(_) => false,
        Err(busy) => busy.serving == 0 && busy.ticket == 1 && second.try_take(gate).is_ok(),
    }
}

/// Whether a turn that is under way keeps another seat of a new gate from its own.
fn keeps_away<R: Wait>(rt: &R, alloc: Global) -> bool {
    let tally = Tally {
        turns: Vec::new(alloc),
    };
    let Ok((gate, mut seats)) = Gate::new(alloc, tally, 2) else {
        return false;
    };
    let second = seats.pop();
    let first = seats.pop();
    match (first, second) {
        (Some(mut first), Some(mut second)) => is_busy(rt, &gate, &mut first, &mut second),
        _ => false,
    }
}

#[test]
fn a_turn_under_way_is_busy(rt: HostRuntime) {
    assert!(rt; keeps_away(&rt, rt.alloc()));
}
