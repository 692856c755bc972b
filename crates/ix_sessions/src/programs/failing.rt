use super::{Faults, NO_FAULTS, command};
use ix_host::{Status, run_serial};
use ix_io::{MemSink, MemSource};
use std::alloc::{AllocError, Global};
use std::process::Abort;

/// What a file is read by, over and over, behind comments: two pieces of a source, and a report of three pieces of a sink.
fn long_script(alloc: Global) -> Result<Vec<u8>, AllocError> {
    let mut script = Vec::from_slice(
        alloc,
        b"ix 1\nproc a - * - -\nfile /x - free - - 4096*61\nphase\nlane m\nopen a /x r as f\n#",
    )?;
    for _ in 0..10_000 {
        script.extend_from_slice(b"######\n#")?;
    }
    for _ in 0..17 {
        script.extend_from_slice(b"\nread a f 4096\nseek a f 0")?;
    }
    Ok(script)
}

/// What a run writes, and the status that it ends with.
fn written(alloc: Global, word: &str, script: &[u8], faults: Faults) -> Option<(Status, MemSink)> {
    let command = command(alloc, &[word])?;
    let mut source = MemSource::new(alloc, script, faults.source).ok()?;
    let mut sink = MemSink::new(alloc, faults.room, faults.sink).ok()?;
    let status = run_serial(alloc, &command, &mut source, &mut sink);
    Some((status, sink))
}

/// Whether a run ends with this status, and has written nothing where a read failed, a beginning of the whole text where a
/// write failed, and all of it where it is Done.
fn ends(alloc: Global, word: &str, faults: Faults, status: Status) -> bool {
    let Ok(script) = long_script(alloc) else {
        return false;
    };
    let Some((_, whole)) = written(alloc, word, script.as_slice(), ROOM) else {
        return false;
    };
    let Some((ended, sink)) = written(alloc, word, script.as_slice(), faults) else {
        return false;
    };
    let text = sink.as_slice();
    ended == status
        && whole.as_slice().starts_with(text)
        && match status {
            Status::ReadFault => text.is_empty(),
            Status::WriteFault => true,
            _ => text.len() == whole.as_slice().len(),
        }
}

/// A sink that has room for the whole text.
const ROOM: Faults = Faults {
    room: 262_144,
    ..NO_FAULTS
};

/// A word, the calls at which a source and a sink fail, and the status. The last call of a source tells that no more is
/// there, and that of a sink finishes it; a call behind these isn't made.
const BROKEN: &[(&str, &[u32], &[u32], Status)] = &[
    ("run", &[0], &[], Status::ReadFault),
    ("run", &[1], &[], Status::ReadFault),
    ("run", &[2], &[], Status::ReadFault),
    ("run", &[3], &[], Status::Done),
    ("run", &[], &[0], Status::WriteFault),
    ("run", &[], &[1], Status::WriteFault),
    ("run", &[], &[2], Status::WriteFault),
    ("run", &[], &[3], Status::WriteFault),
    ("run", &[], &[4], Status::Done),
    ("print", &[0], &[], Status::ReadFault),
    ("print", &[1], &[], Status::ReadFault),
    ("print", &[2], &[], Status::ReadFault),
    ("print", &[3], &[], Status::Done),
    ("print", &[], &[0], Status::WriteFault),
    ("print", &[], &[1], Status::WriteFault),
    ("print", &[], &[2], Status::Done),
];

#[test]
fn each_call_of_a_stream_fails_in_turn(rt: HostRuntime) {
    for (word, source, sink, status) in BROKEN {
        let faults = Faults {
            source,
            sink,
            ..ROOM
        };
        assert!(rt;
            ends(rt.alloc(), word, faults, *status),
            "{word} {source:?} {sink:?}"
        );
    }
}
