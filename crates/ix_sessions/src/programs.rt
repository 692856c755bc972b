mod apart;
mod checks;
mod copies;
mod failing;
mod floats;
mod flows;
mod forms;
mod hostile;
mod images;
mod lanes;
mod policies;
mod served;
mod statuses;
mod threads;
mod twins;
mod two_lanes;
mod words;

use ix_host::{Status, Words, run_serial};
use ix_io::{MemSink, MemSource};
use std::alloc::Global;
use std::process::Abort;

/// What is written where the words are no command.
const USAGE: &[u8] =
    b"usage: ixone run | print | gen COUNT | check | flow | save | load | twin LABEL\n";

/// The calls at which a source and a sink fail, and the room of the sink.
#[derive(Clone, Copy)]
struct Faults {
    source: &'static [u32],
    sink: &'static [u32],
    room: usize,
}

const NO_FAULTS: Faults = Faults {
    source: &[],
    sink: &[],
    room: 4096,
};

/// The words of a command.
fn command(alloc: Global, words: &[&str]) -> Option<Words> {
    let mut command = Words::new(alloc);
    for word in words {
        command.push(word).ok()?;
    }
    Some(command)
}

/// Whether a run ends with this status, and has then written this text.
fn comes_to(
    alloc: Global,
    words: &[&str],
    input: &[u8],
    faults: Faults,
    status: Status,
    text: &[u8],
) -> bool {
    let Some(command) = command(alloc, words) else {
        return false;
    };
    let Ok(mut source) = MemSource::new(alloc, input, faults.source) else {
        return false;
    };
    match MemSink::new(alloc, faults.room, faults.sink) {
        Ok(mut sink) => {
            run_serial(alloc, &command, &mut source, &mut sink) == status && sink.as_slice() == text
        }
        Err(_) => false,
    }
}

/// What is shown, a script that shows it, and the script's report.
type Session = (&'static str, &'static [u8], &'static [u8]);

/// Each script is run to its end, and has its report.
fn walk<R: Abort>(rt: &R, alloc: Global, sessions: &[Session]) {
    for (shown, script, report) in sessions {
        assert!(rt;
            comes_to(alloc, &["run"], script, NO_FAULTS, Status::Done, report),
            "{shown}"
        );
    }
}
