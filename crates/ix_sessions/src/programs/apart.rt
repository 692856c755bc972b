ghost use Rattle.std.specs.Prelude.{◌<◌};

use super::command;
use super::two_lanes::{
    ONE_LOOKS, ONE_OPENS, ONE_READS, ONE_WRITES, REST, SCRIPT, TWO_OPENS, TWO_WRITES,
};
use ix_host::{NoWatch, Status, Watch, run_lanes};
use ix_io::{MemSink, MemSource};
use std::alloc::Global;
use std::process::Abort;
use std::sync::Wait;
use std::sync::atomic::{AtomicU64, Ordering};
use std::thread;
use std::thread::Threads;

/// The orders in which the entries of the first phase may come.
const ORDERS: [[&[u8]; 4]; 6] = [
    [ONE_OPENS, ONE_WRITES, TWO_OPENS, TWO_WRITES],
    [ONE_OPENS, TWO_OPENS, ONE_WRITES, TWO_WRITES],
    [ONE_OPENS, TWO_OPENS, TWO_WRITES, ONE_WRITES],
    [TWO_OPENS, ONE_OPENS, ONE_WRITES, TWO_WRITES],
    [TWO_OPENS, ONE_OPENS, TWO_WRITES, ONE_WRITES],
    [TWO_OPENS, TWO_WRITES, ONE_OPENS, ONE_WRITES],
];

/// What stands behind these lines at the front of a text, which are numbered from this digit on; `None` where others stand there.
fn behind<'a>(text: &'a [u8], lines: &[&[u8]], first: u8) -> Option<&'a [u8]> {
    let mut rest = text;
    let mut number = first;
    for line in lines {
        rest = rest.strip_prefix([number].as_slice())?.strip_prefix(*line)?;
        number = number.saturating_add(1);
    }
    Some(rest)
}

/// What stands behind the entries of both phases, where the first has them in this order.
fn behind_all<'a>(report: &'a [u8], lines: &[&[u8]; 4]) -> Option<&'a [u8]> {
    let rest = report.strip_prefix(b"ix 1 report\n".as_slice())?;
    behind(behind(rest, lines, b'1')?, &[ONE_LOOKS, ONE_READS], b'5')
}

/// Whether the text is the report in one of the orders.
fn is_report(text: &[u8]) -> bool {
    for lines in &ORDERS {
        if behind_all(text, lines) == Some(REST) {
            return true;
        }
    }
    false
}

/// What is written of the lanes of a script.
fn report<W: Watch, R: Threads + Wait + Sync>(
    rt: &R,
    alloc: Global,
    script: &[u8],
    watch: &W,
) -> Option<MemSink> {
    let words = command(alloc, &["run"])?;
    let mut source = MemSource::new(alloc, script, &[]).ok()?;
    let mut sink = MemSink::new(alloc, 4096, &[]).ok()?;
    if run_lanes(rt, alloc, &words, &mut source, &mut sink, watch) == Status::Done {
        Some(sink)
    } else {
        None
    }
}

/// Whether the lanes are reported in one of the orders.
fn is_reported<W: Watch, R: Threads + Wait + Sync>(rt: &R, alloc: Global, watch: &W) -> bool {
    match report(rt, alloc, SCRIPT, watch) {
        Some(sink) => is_report(sink.as_slice()),
        None => false,
    }
}

#[test]
fn lanes_of_a_phase_run_in_any_order(rt: HostRuntime) {
    assert!(rt; is_reported(&rt, rt.alloc(), &NoWatch));
}

/// Two lanes of one phase that make the same file.
const SAME_FILE: &[u8] = b"ix 1\n\
    proc a - * - -\n\
    proc b - * - -\n\
    phase\n\
    lane one\n\
    create a /x\n\
    lane two\n\
    create b /x\n";

/// The reports where lane one made the file, and where lane two did.
const MADE_ONCE: [&[u8]; 2] = [
    b"ix 1 report\n\
      1 one 6 create p1 /x = number 1 @ -\n\
      2 two 8 create p2 /x = no 8 Exists @ -\n\
      objects\n\
      0 dir - free\n\
      1 file - free\n\
      processes\n\
      p1 - live\n\
      p2 - live\n\
      log\n\
      end 2 0\n",
    b"ix 1 report\n\
      1 two 8 create p2 /x = number 1 @ -\n\
      2 one 6 create p1 /x = no 8 Exists @ -\n\
      objects\n\
      0 dir - free\n\
      1 file - free\n\
      processes\n\
      p1 - live\n\
      p2 - live\n\
      log\n\
      end 2 0\n",
];

/// Whether just one of two lanes is told that it made the file.
fn is_made_once<R: Threads + Wait + Sync>(rt: &R, alloc: Global) -> bool {
    match report(rt, alloc, SAME_FILE, &NoWatch) {
        Some(sink) => sink.as_slice() == MADE_ONCE[0] || sink.as_slice() == MADE_ONCE[1],
        None => false,
    }
}

#[test]
fn no_core_for_each_lane(rt: HostRuntime) {
    assert!(rt; is_made_once(&rt, rt.alloc()));
}

/// Flags that the lanes raise before their calls of the first phase, and how many waits for one gave up.
#[derive(Drop)]
struct Meeting {
    flags: [AtomicU64; 4],
    gave_up: AtomicU64,
}

impl Meeting {
    /// Raises a flag, and waits for another.
    fn meet(&self, mine: usize, other: usize)
        requires { (mine < 4) × (other < 4) }
    {
        self.flags[mine].store(1, Ordering::SeqCst);
        for _ in 0..100_000_000 {
            if self.flags[other].load(Ordering::SeqCst) == 1 {
                return;
            }
            thread::yield_now();
        }
        self.gave_up.fetch_add(1, Ordering::SeqCst);
    }

    /// Whether all flags were raised, and no wait gave up.
    fn is_held(&self) -> bool {
        for flag in &self.flags {
            if flag.load(Ordering::SeqCst) != 1 {
                return false;
            }
        }
        self.gave_up.load(Ordering::SeqCst) == 0
    }
}

impl Watch for Meeting {
    fn before(&self, _seat: u32, line: u32) {
        match line {
            8 => self.meet(0, 1),
            11 => self.meet(1, 0),
            9 => self.meet(2, 3),
            12 => self.meet(3, 2),
            _ => {}
        }
    }
}

/// Whether two lanes that each wait for the other are reported, and no wait gave up.
fn meet<R: Threads + Wait + Sync>(rt: &R, alloc: Global) -> bool {
    let meeting = Meeting {
        flags: [
            AtomicU64::new(0),
            AtomicU64::new(0),
            AtomicU64::new(0),
            AtomicU64::new(0),
        ],
        gave_up: AtomicU64::new(0),
    };
    is_reported(rt, alloc, &meeting) && meeting.is_held()
}

#[test]
fn two_lanes_meet(rt: HostRuntime) {
    assert!(rt; meet(&rt, rt.alloc()));
}
