ghost use Rattle.std.specs.Prelude.{◌≡◌, ℕ, ◌<◌, ◌≤◌, [], All, Contains, IfNone, IfSome, length, map};
ghost use Rattle.ix_gate.specs.Seat.{StandsFor};

use bitflags::Flags;
use ix_core::Core;
use ix_kernel::{KSeat, Kernel};
use ix_label::Label;
use ix_model::{
    Answer, Call, Config, Entry, FsSpec, Limits, List, Name, NoMemory, Path, Pid, PrivSet,
    ProcSpec, Refusal, Reply,
};
use std::alloc::Global;
use std::process::Abort;
use std::sync::{Mutex, Wait};
use std::thread;
use std::thread::Threads;

/// An empty root.
fn root(alloc: Global) -> Option<List<FsSpec>> {
    let mut all = List::new(alloc);
    all.push(FsSpec {
        name: Name::read(b"root")?,
        ceiling: Label::top(),
        blocks: 16,
        inodes: 32,
    })
    .ok()?;
    Some(all)
}

/// One process at the bottom.
fn process(alloc: Global) -> Option<List<ProcSpec>> {
    let mut all = List::new(alloc);
    all.push(ProcSpec {
        label: Label::bottom(),
        ceiling: Label::bottom(),
        cap: PrivSet::empty(),
        lic: PrivSet::empty(),
    })
    .ok()?;
    Some(all)
}

/// One process, an empty root, and a journal of so many bytes.
fn config(alloc: Global, journal: u64) -> Option<Config> {
    Some(Config {
        fss: root(alloc)?,
        limits: Limits {
            procs: 1,
            opens: 1,
            pipes: 0,
            names: 64,
            log: 0,
        },
        procs: process(alloc)?,
        objects: List::new(alloc),
        journal,
    })
}

/// A core with a journal of so many bytes.
fn boot(alloc: Global, journal: u64) -> Option<Core>
    ensures { IfSome result (λ c. c.events ≡ []) }
{
    let config = config(alloc, journal)?;
    if config.valid() {
        Core::boot(alloc, config).ok()
    } else {
        None
    }
}

/// The path of a name in the root, or the root's.
fn path(name: &[u8]) -> Path<'_> {
    Path::read(true, name).unwrap_or(Path::new(true))
}

/// How many calls each seat makes.
const CALLS: u32 = 8;

/// The names of the files that they make, of one letter each.
const NAMES: &[u8] = b"abcdefgh";

/// What a call that makes a file costs.
const COST: u64 = 130;

/// What a seat was told of one of its calls: the number of the file that it made; `None` where it made none.
#[derive(Clone, Copy)]
struct Told {
    seat: usize,
    line: u32,
    made: Option<u64>,
}

/// The number of the file that was made.
fn made(answer: &Answer) -> Option<u64> {
    match answer {
        Answer::Given(Reply::Number(number)) => Some(*number),
        _ => None,
    }
}

/// The call that a seat makes at a line: all seats try to make the same files, in one order.
fn create(line: u32) -> Call<'static> {
    let at = (line % CALLS) as usize;
    Call::CreateAt {
        path: path(&NAMES[at..at + 1]),
    }
}

/// Makes a call of a seat, and notes what it was told.
fn make_call<R: Wait>(
    rt: &R,
    kernel: &Kernel,
    seat: &mut KSeat,
    number: usize,
    line: u32,
    told: &Mutex<Vec<Told>>,
)
    requires { seat.old.gate ≡ kernel.now.id }
    ensures { (seat.new.gate ≡ seat.old.gate) × (seat.new.number ≡ seat.old.number) }
{
    let mut buf = [0; 4096];
    let answer = seat.call(rt, kernel, line, Pid(1), &create(line), &mut buf);
    drop(
        told.lock(rt).push(Told {
            seat: number,
            line,
            made: made(&answer),
        }),
    );
}

/// Makes the calls of a seat, one after the other, whose lines are 0, 1, 2 and so on.
fn make_calls<R: Wait>(
    rt: &R,
    kernel: &Kernel,
    seat: &mut KSeat,
    number: usize,
    told: &Mutex<Vec<Told>>,
)
    requires { seat.old.gate ≡ kernel.now.id }
    ensures { (seat.new.gate ≡ seat.old.gate) × (seat.new.number ≡ seat.old.number) }
{
    for line in 0..CALLS {
        make_call(rt, kernel, seat, number, line, told);
    }
}

/// All seats make their calls, each on a thread of its own.
fn call_all<R: Threads + Wait + Sync>(
    rt: &R,
    kernel: &Kernel,
    seats: &mut [KSeat],
    told: &Mutex<Vec<Told>>,
)
    requires { All (λ s. s.gate ≡ kernel.now.id) seats.old }
    ensures ready { All (λ s. s.gate ≡ kernel.now.id) seats.new }
    ensures numbers { map (λ s. s.number) seats.new ≡ map (λ s. s.number) seats.old }
{
    thread::for_each_mut(
        rt,
        seats,
        64,
        &|i, seat| make_calls(rt, kernel, seat, i, told),
    );
}

/// All seats meet the first one, and are joined into it; `None` where there is none.
fn join_all(kernel: &Kernel, seats: Vec<KSeat>) -> Option<KSeat>
    requires ready { All (λ s. s.gate ≡ kernel.now.id) seats.items }
    ensures ready { IfSome result (λ r. r.gate ≡ kernel.now.id) }
    ensures all { IfSome result (λ r. All (λ s. StandsFor r s.number) seats.items) }
    ensures none { IfNone result (length seats.items ≡ 0) }
{
    let mut rest = seats.into_iter();
    let mut first = rest.next()?;
    for mut other in rest {
        first.meet(kernel, &mut other);
        first.join(kernel, other);
    }
    Some(first)
}

/// All seats make their calls side by side. Then they are joined, and the kernel is closed.
fn run_all<R: Threads + Wait + Sync>(
    rt: &R,
    kernel: Kernel,
    mut seats: Vec<KSeat>,
    told: &Mutex<Vec<Told>>,
) -> Core
    requires ready { All (λ s. s.gate ≡ kernel.id) seats.items }
    requires all { (n : ℕ) → n < kernel.seats → Contains (map (λ s. s.number) seats.items) n }
    requires some { 0 < length seats.items }
{
    call_all(rt, &kernel, seats.as_mut_slice(), told);
    match join_all(&kernel, seats) {
        Some(first) => kernel.close(first),
        None => unreachable!(),
    }
}

/// A core whose journal has room for the calls of so many seats.
fn boot_for(alloc: Global, seats: u32) -> Option<Core>
    ensures { IfSome result (λ c. c.events ≡ []) }
{
    boot(alloc, u64::from(seats) * u64::from(CALLS) * COST)
}

/// The core that is left when so many seats of a new kernel have made their calls.
fn run_seats<R: Threads + Wait + Sync>(
    rt: &R,
    alloc: Global,
    core: Core,
    count: u32,
    told: &Mutex<Vec<Told>>,
) -> Result<Core, NoMemory>
    requires empty { core.events ≡ [] }
    requires count { (0 < count) × (count ≤ 64) }
{
    let (kernel, seats) = Kernel::new(alloc, core, count)?;
    Ok(run_all(rt, kernel, seats, told))
}

/// Whether the entries of a seat are its calls, once and in order.
fn has_calls_of(core: &Core, seat: u32) -> bool {
    let mut line = 0u32;
    for place in 0..core.len() {
        let Some(entry) = core.entry(place + 1) else {
            return false;
        };
        if entry.seat == seat {
            if entry.line != line {
                return false;
            }
            line = line.saturating_add(1);
        }
    }
    line == CALLS
}

/// The number of the file that the core makes in answer to an entry of another's history.
fn make_again(core: &mut Core, entry: &Entry<'_>) -> Option<u64> {
    let mut buf = [0; 4096];
    made(&core.call(entry.seat, entry.line, entry.pid, &entry.call, &mut buf))
}

/// Whether a seat was told this of one of its lines.
fn was_told(told: &[Told], seat: u32, line: u32, made: Option<u64>) -> bool {
    told.iter().any(|told| told.seat == seat as usize && told.line == line && told.made == made)
}

/// Whether a core of its own answers at each entry what its seat was told.
fn replays(core: &Core, again: &mut Core, told: &[Told]) -> bool {
    for place in 0..core.len() {
        let Some(entry) = core.entry(place + 1) else {
            return false;
        };
        let made = make_again(again, &entry);
        if !was_told(told, entry.seat, entry.line, made) {
            return false;
        }
    }
    true
}

/// Whether the history has all calls of so many seats, with what each was told, and each file was made by one of them.
fn accounts_for(core: &Core, again: &mut Core, told: &[Told], seats: u32) -> bool {
    let made = told.iter().filter(|told| told.made.is_some()).count();
    made == CALLS as usize
        && (0..seats).all(|seat| has_calls_of(core, seat))
        && replays(core, again, told)
}

/// Whether a core of its own has the same history.
fn is_accounted_for(alloc: Global, core: &Core, told: &[Told], seats: u32) -> bool {
    match boot_for(alloc, seats) {
        Some(mut again) => accounts_for(core, &mut again, told, seats),
        None => false,
    }
}

/// Whether so many seats share this core.
fn share_core<R: Threads + Wait + Sync>(rt: &R, alloc: Global, core: Core, count: u32) -> bool
    requires empty { core.events ≡ [] }
    requires count { (0 < count) × (count ≤ 64) }
{
    let told = Mutex::new(Vec::new(alloc));
    match run_seats(rt, alloc, core, count, &told) {
        Ok(core) => is_accounted_for(alloc, &core, told.into_inner().as_slice(), count),
        Err(_) => false,
    }
}

/// Whether so many seats share a new core.
fn share<R: Threads + Wait + Sync>(rt: &R, alloc: Global, count: u32) -> bool
    requires { (0 < count) × (count ≤ 64) }
{
    match boot_for(alloc, count) {
        Some(core) => share_core(rt, alloc, core, count),
        None => false,
    }
}

#[test]
fn no_seat_answers_from_a_copy(rt: HostRuntime) {
    for count in [1, 2, 8, 64] {
        assert!(rt; share(&rt, rt.alloc(), count), "{count} seats");
    }
}

/// What two seats of a kernel are told that make the same file: the first without waiting, the second once it has met the first.
fn make_twice<R: Wait>(
    rt: &R,
    kernel: &Kernel,
    first: &mut KSeat,
    second: &mut KSeat,
) -> (Option<u64>, Answer)
    requires kernel { (first.old.gate ≡ kernel.now.id) × (second.old.gate ≡ kernel.now.id) }
    requires turns { first.old.turns ≡ 0 }
{
    let mut buf = [0; 4096];
    let number = match first.try_call(kernel, 1, Pid(1), &create(1), &mut buf) {
        Ok(answer) => made(&answer),
        Err(_) => None,
    };
    second.meet(kernel, first);
    (
        number,
        second.call(rt, kernel, 2, Pid(1), &create(1), &mut buf),
    )
}

/// The same of a new kernel, whose core has this journal.
fn two_seats<R: Wait>(rt: &R, alloc: Global, journal: u64) -> Option<(Option<u64>, Answer)> {
    let core = boot(alloc, journal)?;
    let Ok((kernel, mut seats)) = Kernel::new(alloc, core, 2) else {
        return None;
    };
    let second = seats.pop();
    let first = seats.pop();
    match (first, second) {
        (Some(mut first), Some(mut second)) => {
            Some(make_twice(rt, &kernel, &mut first, &mut second))
        }
        _ => None,
    }
}

fn exists(answer: &Answer) -> bool {
    matches!(answer, Answer::Given(Reply::No(why)) if *why == Refusal::Exists)
}

fn is_full(answer: &Answer) -> bool {
    matches!(answer, Answer::JournalFull { used, need, cap } if (*used, *need, *cap) == (COST, COST, COST))
}

#[test]
fn the_second_of_two_seats_is_told_that_a_file_exists(rt: HostRuntime) {
    match two_seats(&rt, rt.alloc(), 2 * COST) {
        Some((first, second)) => assert!(rt; first == Some(1) && exists(&second)),
        None => panic!(rt; "no memory"),
    }
}

#[test]
fn a_full_journal_is_told(rt: HostRuntime) {
    match two_seats(&rt, rt.alloc(), COST) {
        Some((first, second)) => assert!(rt; first == Some(1) && is_full(&second)),
        None => panic!(rt; "no memory"),
    }
}

fn is_full_of_one(answer: &Answer) -> bool {
    matches!(answer, Answer::JournalFull { used, need, cap } if (*used, *need, *cap) == (COST, COST, 200))
}

/// What the one seat of a kernel is told: of a call that waits for nobody, of another, and of one that may wait.
fn make_alone<R: Wait>(rt: &R, kernel: &Kernel, seat: &mut KSeat) -> (Option<u64>, bool, Answer)
    requires kernel { seat.old.gate ≡ kernel.now.id }
    requires turns { seat.old.turns ≡ 0 }
{
    let mut buf = [0; 4096];
    let number = match seat.try_call(kernel, 1, Pid(1), &create(1), &mut buf) {
        Ok(answer) => made(&answer),
        Err(_) => None,
    };
    let full = seat.turns() < 2
        && match seat.try_call(kernel, 2, Pid(1), &create(2), &mut buf) {
            Ok(answer) => is_full_of_one(&answer),
            Err(_) => false,
        };
    (
        number,
        full,
        seat.call(rt, kernel, 3, Pid(1), &create(3), &mut buf),
    )
}

/// The same of a new kernel, whose core has this journal.
fn one_seat<R: Wait>(rt: &R, alloc: Global, journal: u64) -> Option<(Option<u64>, bool, Answer)> {
    let core = boot(alloc, journal)?;
    let Ok((kernel, mut seats)) = Kernel::new(alloc, core, 1) else {
        return None;
    };
    match seats.pop() {
        Some(mut seat) => Some(make_alone(rt, &kernel, &mut seat)),
        None => None,
    }
}

#[test]
fn one_seat_is_never_busy(rt: HostRuntime) {
    match one_seat(&rt, rt.alloc(), 200) {
        Some((first, second, third)) => {
            assert!(rt; first == Some(1) && second && is_full_of_one(&third));
        }
        None => panic!(rt; "no memory"),
    }
}
