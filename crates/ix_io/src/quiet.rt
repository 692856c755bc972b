ghost use Rattle.std.specs.Prelude.{◌≡◌, ◌≤◌, ◌<◌, min, length, is_ok, false, IfOk, IsOk};
ghost use Rattle.ix_io.specs.Streams.{counted, HasCause, Reads, Takes};

use crate::errors::Failed;
use crate::sink::Sink;
use crate::source::Source;
use ix_memory::NoMemory;
use std::alloc::Global;
use std::marker::Model;

/// Bytes in memory, which never fail. Contracts see the bytes that are left.
#[derive(Drop)]
pub struct QuietSource {
    bytes: Vec<u8>,
    at: usize,
}

impl Model for QuietSource {
    ghost use Rattle.std.specs.Prelude.{ℕ, ◌≤◌, List, drop, length};

    ghost Value = { List ℕ };

    ghost view = { λ s. drop s.at s.bytes.items };

    ghost invariant = { λ s. s.at ≤ length s.bytes.items };
}

impl QuietSource {
    /// A source of a copy of these bytes. `NoMemory` where there was none for the copy.
    pub fn new(alloc: Global, bytes: &[u8]) -> Result<QuietSource, NoMemory>
        ensures { IfOk result (λ source. source ≡ bytes.now) }
    {
        Ok(QuietSource {
            bytes: Vec::from_slice(alloc, bytes)?,
            at: 0,
        })
    }
}

impl Source for QuietSource {
    ghost use Rattle.std.specs.Prelude.{Some};

    ghost left = { λ bytes. Some bytes };

    ghost faults = { λ _. 0 };

    fn read(&mut self, buf: &mut [u8]) -> Result<usize, Failed>
        ensures never { IsOk result }
        ensures all { IfOk result (λ n. n ≡ min (length buf.old) (length self.old)) }
        ensures bound { IfOk result (λ n. n ≤ length buf.old) }
        ensures bytes { Reads (Some self.old) (Some self.new) result buf.new }
        ensures cause { HasCause 0 0 result }
    {
        let (_, rest) = self.bytes.split_at(self.at);
        let n = rest.len().min(buf.len());
        buf[..n].copy_from_slice(&rest[..n]);
        self.at += n;
        Ok(n)
    }
}

/// A sink that counts the bytes and forgets them. It never fails. The count stands still at
/// 2^64 - 1.
#[derive(Drop)]
pub struct QuietSink {
    taken: u64,
    finished: bool,
}

impl Model for QuietSink {
    ghost use Rattle.ix_io.specs.Views.{QuietOutput};

    ghost Value = { QuietOutput };

    ghost view = { λ s. record { taken = s.taken; finished = s.finished } };
}

impl QuietSink {
    /// A sink that has taken nothing and isn't finished.
    pub fn new() -> QuietSink
        ensures { result ≡ record { taken = 0; finished = false } }
    {
        QuietSink {
            taken: 0,
            finished: false,
        }
    }

    /// How many bytes were taken. The number stands still at 2^64 - 1.
    pub fn taken(&self) -> u64
        ensures { result ≡ self.now.taken }
    {
        self.taken
    }
}

impl Sink for QuietSink {
    ghost use Rattle.std.specs.Prelude.{None, true};

    ghost taken = { λ _. None };

    ghost faults = { λ _. 0 };

    ghost finished = { λ s. s.finished };

    fn write(&mut self, bytes: &[u8]) -> Result<usize, Failed>
        ensures never { IsOk result }
        ensures all { IfOk result (λ n. n ≡ length bytes.now) }
        ensures counted { self.new.taken ≡ counted self.old.taken (length bytes.now) }
        ensures bound { IfOk result (λ n. n ≤ length bytes.now) }
        ensures some { 0 < length bytes.now → IfOk result (λ n. 0 < n) }
        ensures unfinished { self.new.finished ≡ false }
        ensures cause { HasCause 0 0 result }
    {
        self.taken = self.taken.saturating_add(bytes.len() as u64);
        self.finished = false;
        Ok(bytes.len())
    }

    fn finish(&mut self) -> Result<(), Failed>
        ensures never { IsOk result }
        ensures kept { self.new.taken ≡ self.old.taken }
        ensures finished { self.new.finished ≡ is_ok result }
        ensures cause { HasCause 0 0 result }
    {
        self.finished = true;
        Ok(())
    }
}
