use ix_io::{Failed, QuietSink, QuietSource, Sink, Source, StdSink, StdSource};
use std::alloc::Global;
use std::io;
use std::io::Read;
use std::process::Abort;

/// Gives one byte, fails, gives one more, and ends.
#[derive(Drop)]
struct Halting(u8);

impl Read for Halting {
    fn read(&mut self, buf: &mut [u8]) -> io::Result<usize> {
        let call = self.0;
        self.0 = call.saturating_add(1);
        if call == 1 {
            return Err(io::ErrorKind::Other.into());
        }
        if call > 2 || buf.is_empty() {
            return Ok(0);
        }
        buf[0] = b'a' + call;
        Ok(1)
    }
}

/// What the reads of such a source answer, and the last byte that they gave.
fn reads() -> ([Result<usize, Failed>; 4], u8) {
    let mut source = StdSource::new(Halting(0));
    let mut buf = [0; 4];
    let first = source.read(&mut buf);
    let second = source.read(&mut buf);
    let third = source.read(&mut buf);
    let last = source.read(&mut buf);
    ([first, second, third, last], buf[0])
}

#[test]
fn source_hands_on_bytes_and_faults(rt: HostRuntime) {
    let (answers, byte) = reads();
    assert!(rt; answers == [Ok(1), Err(Failed), Ok(1), Ok(0)]);
    assert!(rt; byte == b'c');
}

/// What the writes to a sink with room for three bytes answer.
fn writes(room: &mut [u8]) -> [Result<usize, Failed>; 3] {
    let mut sink = StdSink::new(room);
    let first = sink.write(b"ab");
    let second = sink.write(b"cd");
    let none = sink.write(b"d");
    let _done = sink.finish();
    [first, second, none]
}

#[test]
fn sink_hands_on_bytes_and_faults(rt: HostRuntime) {
    let mut room = [0; 3];
    let answers = writes(room.as_mut_slice());
    assert!(rt; answers == [Ok(2), Ok(1), Err(Failed)]);
    assert!(rt; room == *b"abc");
}

/// What is read of a source without faults, and how much a sink without faults has taken of it then.
fn handed_on(alloc: Global) -> Option<([u8; 3], u64)> {
    let mut source = QuietSource::new(alloc, b"abc").ok()?;
    let mut sink = QuietSink::new();
    let mut buf = [0; 3];
    let _read = source.read(&mut buf);
    let _written = sink.write(&buf);
    Some((buf, sink.taken()))
}

#[test]
fn quiet_streams_hand_on_all(rt: HostRuntime) {
    assert!(rt; handed_on(rt.alloc()) == Some((*b"abc", 3)));
}
