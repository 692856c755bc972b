ghost use Rattle.std.specs.Prelude.{◌<◌};

use super::command;
use itoa::Buffer;
use ix_host::{Status, Watch, run_lanes};
use ix_io::{MemSink, MemSource};
use std::alloc::{AllocError, Global};
use std::process::Abort;
use std::sync::Wait;
use std::sync::atomic::{AtomicU64, Ordering};
use std::thread;
use std::thread::Threads;

/// How many lanes a script has, and which of them have lines in its second phase: a bit for each lane. In the first phase each has one.
#[derive(Clone, Copy)]
struct Shape {
    lanes: u32,
    active: u64,
}

impl Shape {
    /// Every lane from the first on, `step` apart, up to so many.
    fn new(lanes: u32, most: u32, first: u32, step: u32) -> Shape {
        let mut active: u64 = 0;
        let mut left = most;
        let mut next = first;
        for lane in 0..lanes.min(64) {
            if lane == next && 0 < left {
                active |= 1 << lane;
                left -= 1;
                next = lane.saturating_add(step);
            }
        }
        Shape { lanes, active }
    }

    fn is_active(self, lane: u32) -> bool {
        lane < 64 && self.active >> lane & 1 == 1
    }

    /// The first lane after this one that has lines in the second phase.
    fn after(self, lane: u32) -> Option<u32> {
        for next in lane.saturating_add(1)..64 {
            if self.is_active(next) {
                return Some(next);
            }
        }
        None
    }
}

/// Adds the lines of a lane.
fn add_lane(
    script: &mut Vec<u8>,
    digits: &mut Buffer,
    lane: u32,
    lines: &[u8],
) -> Result<(), AllocError> {
    script.extend_from_slice(b"lane l")?;
    script.extend_from_slice(digits.format(lane).as_bytes())?;
    script.extend_from_slice(lines)
}

/// Adds two phases: in the first each lane has a line, and in the second those of the shape have two.
fn add_phases(script: &mut Vec<u8>, shape: Shape) -> Result<(), AllocError> {
    let mut digits = Buffer::new();
    for lane in 0..shape.lanes {
        add_lane(script, &mut digits, lane, b"\nself a\n")?;
    }
    script.extend_from_slice(b"phase\n")?;
    for lane in 0..shape.lanes {
        if shape.is_active(lane) {
            add_lane(script, &mut digits, lane, b"\nself a\nself a\n")?;
        }
    }
    Ok(())
}

/// The script of a shape.
fn script_of(alloc: Global, shape: Shape) -> Option<Vec<u8>> {
    let mut script = Vec::from_slice(alloc, b"ix 1\nproc a - * - -\nphase\n").ok()?;
    add_phases(&mut script, shape).ok()?;
    Some(script)
}

/// Holds the first call of each lane of the second phase until the next one of them has made a call.
#[derive(Drop)]
struct Chain {
    shape: Shape,
    /// The line at which the second phase begins.
    second: u32,
    /// The lanes that have begun a call of the second phase, a bit for each, and those that have made one.
    begun: AtomicU64,
    made: AtomicU64,
    gave_up: AtomicU64,
}

impl Chain {
    fn new(shape: Shape) -> Chain {
        Chain {
            shape,
            second: shape.lanes.saturating_mul(2).saturating_add(4),
            begun: AtomicU64::new(0),
            made: AtomicU64::new(0),
            gave_up: AtomicU64::new(0),
        }
    }

    /// Waits until a lane has made a call.
    fn wait_for(&self, lane: u32)
        requires { lane < 64 }
    {
        for _ in 0..10_000_000 {
            if self.made.load(Ordering::SeqCst) >> lane & 1 == 1 {
                return;
            }
            thread::yield_now();
        }
        self.gave_up.fetch_add(1, Ordering::SeqCst);
    }

    /// Whether each lane of the second phase has made a call, and no wait gave up.
    fn is_held(&self) -> bool {
        self.made.load(Ordering::SeqCst) == self.shape.active
            && self.gave_up.load(Ordering::SeqCst) == 0
    }
}

impl Watch for Chain {
    fn before(&self, seat: u32, line: u32) {
        if line <= self.second || 64 <= seat {
            return;
        }
        let lane: u64 = 1 << seat;
        if self.begun.fetch_or(lane, Ordering::SeqCst) & lane != 0 {
            self.made.fetch_or(lane, Ordering::SeqCst);
            return;
        }
        match self.shape.after(seat) {
            Some(next) if next < 64 => self.wait_for(next),
            _ => {}
        }
    }
}

/// Whether the lanes of a script run to their end before a watch.
fn ends<W: Watch, R: Threads + Wait + Sync>(
    rt: &R,
    alloc: Global,
    script: &[u8],
    watch: &W,
) -> Option<bool> {
    let words = command(alloc, &["run"])?;
    let mut source = MemSource::new(alloc, script, &[]).ok()?;
    let mut sink = MemSink::new(alloc, 65_536, &[]).ok()?;
    Some(run_lanes(rt, alloc, &words, &mut source, &mut sink, watch) == Status::Done)
}

/// Whether the lanes of a shape run beside each other: each of them waits until the next one has made a call, and all end.
fn run_beside<R: Threads + Wait + Sync>(rt: &R, alloc: Global, shape: Shape) -> bool {
    let chain = Chain::new(shape);
    match script_of(alloc, shape) {
        Some(script) => {
            ends(rt, alloc, script.as_slice(), &chain) == Some(true) && chain.is_held()
        }
        None => false,
    }
}

/// The lanes with lines stand at the front, in the middle and at the back, side by side and with idle lanes between them.
fn run_beside_in_each_place<R: Threads + Wait + Sync>(
    rt: &R,
    alloc: Global,
    lanes: u32,
    most: u32,
) -> bool {
    let idle = lanes.saturating_sub(most);
    for first in [0, idle / 2, idle] {
        for step in [1, 2] {
            if !run_beside(rt, alloc, Shape::new(lanes, most, first, step)) {
                return false;
            }
        }
    }
    true
}

#[test]
fn each_lane_with_a_line_has_a_thread_of_its_own(rt: HostRuntime) {
    for lanes in [1, 2, 3, 4, 5, 6, 8, 16, 64] {
        for most in [2, 4, lanes / 2, lanes] {
            assert!(rt;
                run_beside_in_each_place(&rt, rt.alloc(), lanes, most),
                "{most} of {lanes}"
            );
        }
    }
}

/// Counts the calls that it is told of.
#[derive(Drop)]
struct Count {
    calls: AtomicU64,
}

impl Watch for Count {
    fn before(&self, _seat: u32, _line: u32) {
        self.calls.fetch_add(1, Ordering::SeqCst);
    }
}

/// How many calls of a script a watch is told of.
fn calls_told<R: Threads + Wait + Sync>(rt: &R, alloc: Global, script: &[u8]) -> Option<u64> {
    let count = Count {
        calls: AtomicU64::new(0),
    };
    if ends(rt, alloc, script, &count) == Some(true) {
        Some(count.calls.load(Ordering::SeqCst))
    } else {
        None
    }
}

#[test]
fn a_watch_is_told_of_each_call(rt: HostRuntime) {
    let one =
        b"ix 1\nproc a - * - -\nfile /x - free - - \"xy\"\nphase\nlane l\nopen a /x rw as f\ncopy a f f 1\n".as_slice();
    let two = b"ix 1\nproc a - * - -\nphase\nlane k\nself a\nself a\nlane l\nself a\n".as_slice();
    assert!(rt; calls_told(&rt, rt.alloc(), one) == Some(3));
    assert!(rt; calls_told(&rt, rt.alloc(), two) == Some(3));
}
