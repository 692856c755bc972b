ghost use Rattle.std.specs.Prelude.{◌≡◌, ◌≤◌, ◌<◌, ◌==◌, ◌||◌, ◌-◌, min, length, is_ok, is_err, false, IfOk};
ghost use Rattle.ix_io.specs.Streams.{HasCause, Reads, Takes};
ghost use Rattle.ix_io.specs.Planned.{start, fails_next, after_call};

use crate::errors::Failed;
use crate::plan::Plan;
use crate::quiet::QuietSource;
use crate::sink::Sink;
use crate::source::Source;
use ix_memory::NoMemory;
use std::alloc::Global;
use std::marker::Model;

/// Bytes in memory, of which the reads of some numbers fail.
#[derive(Drop)]
pub struct MemSource {
    bytes: QuietSource,
    plan: Plan,
}

impl Model for MemSource {
    ghost use Rattle.ix_io.specs.Views.{MemoryInput};

    ghost Value = { MemoryInput };

    ghost view = { λ s. record { left = s.bytes; plan = s.plan } };
}

impl MemSource {
    /// A source of a copy of these bytes. `fails` lists the reads, counted from 0, that are to fail.
    pub fn new(alloc: Global, bytes: &[u8], fails: &[u32]) -> Result<MemSource, NoMemory>
        ensures { IfOk result (λ source. source ≡ record { left = bytes.now; plan = start fails.now }) }
    {
        Ok(MemSource {
            bytes: QuietSource::new(alloc, bytes)?,
            plan: Plan::new(alloc, fails)?,
        })
    }
}

impl Source for MemSource {
    ghost use Rattle.std.specs.Prelude.{Some};

    ghost left = { λ s. Some s.left };

    ghost faults = { λ s. s.plan.faults };

    fn read(&mut self, buf: &mut [u8]) -> Result<usize, Failed>
        ensures fails { is_err result ≡ fails_next self.old.plan }
        ensures plan { self.new.plan ≡ after_call self.old.plan (is_err result) }
        ensures all { IfOk result (λ n. n ≡ min (length buf.old) (length self.old.left)) }
        ensures bound { IfOk result (λ n. n ≤ length buf.old) }
        ensures bytes { Reads (Some self.old.left) (Some self.new.left) result buf.new }
        ensures cause { HasCause self.old.plan.faults self.new.plan.faults result }
    {
        let fails = self.plan.fails_next();
        self.plan.note(fails);
        if fails {
            return Err(Failed);
        }
        self.bytes.read(buf)
    }
}

/// A sink in memory with room for so many bytes. A write fails where no room is left, and the calls
/// of some numbers fail.
#[derive(Drop)]
pub struct MemSink {
    bytes: Vec<u8>,
    room: usize,
    finished: bool,
    plan: Plan,
}

impl Model for MemSink {
    ghost use Rattle.std.specs.Prelude.{◌≤◌, vec_len, vec_capacity};
    ghost use Rattle.ix_io.specs.Views.{MemoryOutput};

    ghost Value = { MemoryOutput };

    ghost view = { λ s. record { taken = s.bytes.items; room = s.room; finished = s.finished; plan = s.plan } };

    ghost invariant = { λ s. (vec_len s.bytes ≤ s.room) × (s.room ≤ vec_capacity s.bytes) };
}

impl MemSink {
    ghost use Rattle.std.specs.Prelude.{[]};

    /// A sink that took nothing yet. `fails` lists the calls, counted from 0, that are to fail;
    /// `write` and `finish` count alike.
    pub fn new(alloc: Global, room: usize, fails: &[u32]) -> Result<MemSink, NoMemory>
        ensures { IfOk result (λ sink. sink ≡ record { taken = []; room = room; finished = false; plan = start fails.now }) }
    {
        Ok(MemSink {
            bytes: Vec::with_capacity(alloc, room)?,
            room,
            finished: false,
            plan: Plan::new(alloc, fails)?,
        })
    }

    /// The bytes that were taken.
    pub fn as_slice(&self) -> &[u8]
        ensures { result.now ≡ self.now.taken }
    {
        self.bytes.as_slice()
    }
}

impl Sink for MemSink {
    ghost use Rattle.std.specs.Prelude.{Some};

    ghost taken = { λ s. Some s.taken };

    ghost faults = { λ s. s.plan.faults };

    ghost finished = { λ s. s.finished };

    fn write(&mut self, bytes: &[u8]) -> Result<usize, Failed>
        ensures fails { is_err result ≡ (fails_next self.old.plan || length self.old.taken == self.old.room) }
        ensures plan { self.new.plan ≡ after_call self.old.plan (is_err result) }
        ensures room { self.new.room ≡ self.old.room }
        ensures all { IfOk result (λ n. n ≡ min (length bytes.now) (self.old.room - length self.old.taken)) }
        ensures bound { IfOk result (λ n. n ≤ length bytes.now) }
        ensures some { 0 < length bytes.now → IfOk result (λ n. 0 < n) }
        ensures bytes { Takes (Some self.old.taken) (Some self.new.taken) result bytes.now }
        ensures unfinished { self.new.finished ≡ false }
        ensures cause { HasCause self.old.plan.faults self.new.plan.faults result }
    {
        let left = self.room - self.bytes.len();
        let fails = self.plan.fails_next() || left == 0;
        self.plan.note(fails);
        self.finished = false;
        if fails {
            return Err(Failed);
        }
        let n = bytes.len().min(left);
        self.bytes.extend_from_slice(&bytes[..n]).unwrap();
        Ok(n)
    }

    fn finish(&mut self) -> Result<(), Failed>
        ensures fails { is_err result ≡ fails_next self.old.plan }
        ensures plan { self.new.plan ≡ after_call self.old.plan (is_err result) }
        ensures room { self.new.room ≡ self.old.room }
        ensures bytes { self.new.taken ≡ self.old.taken }
        ensures finished { self.new.finished ≡ is_ok result }
        ensures cause { HasCause self.old.plan.faults self.new.plan.faults result }
    {
        let fails = self.plan.fails_next();
        self.plan.note(fails);
        self.finished = !fails;
        if fails { Err(Failed) } else { Ok(()) }
    }
}
