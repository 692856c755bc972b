//! Reads a session script from standard input, runs its lanes side by side, and writes the report of the history that came about.
#![tactic(auto)]

use ix_host::io::{StdSink, StdSource};
use ix_host::{NoWatch, Status, Words, run_lanes};
use std::io::Read;
use std::process::ExitCode;
use std::{env, io};

/// As many bytes of the stack as a run may use, with room to spare.
const STACK: usize = 262_144;

/// Touches so much of the stack while there is memory for it, and reads nothing. A stack grows when it is first used so deep, and
/// where there is no memory left by then the system ends the program, which has no status.
#[inline(never)]
fn touch_stack<R: Read>(reader: &mut R) {
    let mut room = [0; STACK];
    let _ = reader.read(&mut room[..0]);
}

fn main(rt: HostRuntime) -> ExitCode {
    touch_stack(&mut rt.reader());
    let Ok(words) = Words::of_program(rt.alloc(), env::args(&rt)) else {
        return ExitCode::from(Status::NoMemory.code());
    };
    let mut source = StdSource::new(rt.reader());
    let mut sink = StdSink::new(io::writer(&rt));
    let status = run_lanes(&rt, rt.alloc(), &words, &mut source, &mut sink, &NoWatch);
    ExitCode::from(status.code())
}
