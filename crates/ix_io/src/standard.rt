ghost use Rattle.std.specs.Prelude.{◌≡◌, ◌≤◌, ◌<◌, length, is_ok, is_err, false, IfOk};
ghost use Rattle.ix_io.specs.Streams.{counted, noted, HasCause};

use crate::errors::Failed;
use crate::sink::Sink;
use crate::source::Source;
use std::io::{Read, Write};
use std::marker::Model;

/// A source over std's `Read`, which fails where that does. It tells nothing of the bytes;
/// contracts see its count of faults.
#[derive(Drop)]
pub struct StdSource<R: Read> {
    inner: R,
    faults: u64,
}

impl<R: Read> Model for StdSource<R> {
    ghost use Rattle.std.specs.Prelude.{ℕ};

    ghost Value = { ℕ };

    ghost view = { λ s. s.faults };
}

impl<R: Read> StdSource<R> {
    /// A source over a reader, without a fault so far.
    pub fn new(inner: R) -> StdSource<R>
        ensures { result ≡ 0 }
    {
        StdSource { inner, faults: 0 }
    }
}

impl<R: Read> Source for StdSource<R> {
    ghost use Rattle.std.specs.Prelude.{None};

    ghost left = { λ _. None };

    ghost faults = { λ faults. faults };

    fn read(&mut self, buf: &mut [u8]) -> Result<usize, Failed>
        ensures noted { self.new ≡ noted self.old (is_err result) }
        ensures bound { IfOk result (λ n. n ≤ length buf.old) }
        ensures cause { HasCause self.old self.new result }
    {
        match self.inner.read(buf) {
            Ok(n) => Ok(n),
            Err(_) => Err(fault(&mut self.faults)),
        }
    }
}

/// A sink over std's `Write`, which fails where that does, and where a write takes nothing of a
/// piece that is not empty. It tells nothing of the bytes.
#[derive(Drop)]
pub struct StdSink<W: Write> {
    inner: W,
    faults: u64,
    finished: bool,
}

impl<W: Write> Model for StdSink<W> {
    ghost use Rattle.ix_io.specs.Views.{StandardOutput};

    ghost Value = { StandardOutput };

    ghost view = { λ s. record { faults = s.faults; finished = s.finished } };
}

impl<W: Write> StdSink<W> {
    /// A sink over a writer, without a fault so far and not finished.
    pub fn new(inner: W) -> StdSink<W>
        ensures { result ≡ record { faults = 0; finished = false } }
    {
        StdSink {
            inner,
            faults: 0,
            finished: false,
        }
    }
}

impl<W: Write> Sink for StdSink<W> {
    ghost use Rattle.std.specs.Prelude.{None};

    ghost taken = { λ _. None };

    ghost faults = { λ s. s.faults };

    ghost finished = { λ s. s.finished };

    fn write(&mut self, bytes: &[u8]) -> Result<usize, Failed>
        ensures noted { self.new.faults ≡ noted self.old.faults (is_err result) }
        ensures bound { IfOk result (λ n. n ≤ length bytes.now) }
        ensures some { 0 < length bytes.now → IfOk result (λ n. 0 < n) }
        ensures unfinished { self.new.finished ≡ false }
        ensures cause { HasCause self.old.faults self.new.faults result }
    {
        self.finished = false;
        match self.inner.write(bytes) {
            Ok(n) if n > 0 || bytes.is_empty() => Ok(n),
            _ => Err(fault(&mut self.faults)),
        }
    }

    fn finish(&mut self) -> Result<(), Failed>
        ensures noted { self.new.faults ≡ noted self.old.faults (is_err result) }
        ensures finished { self.new.finished ≡ is_ok result }
        ensures cause { HasCause self.old.faults self.new.faults result }
    {
        let done = self.inner.flush();
        self.finished = done.is_ok();
        match done {
            Ok(()) => Ok(()),
            Err(_) => Err(fault(&mut self.faults)),
        }
    }
}

/// Counts a fault.
fn fault(faults: &mut u64) -> Failed
    ensures counted { faults.new ≡ counted faults.old 1 }
    ensures later { faults.old ≤ faults.new }
{
    *faults = faults.saturating_add(1);
    Failed
}
