use ix_model::Pid;
use ix_pipe::{Claim, Pipes};
use std::alloc::Global;
use std::process::Abort;

/// What one end of a new pipe reads of what the other has written.
fn read_from_the_other_end(alloc: Global) -> [u8; 8] {
    let mut out = [0; 8];
    let Ok(mut pipes) = Pipes::new(alloc, 1) else {
        return out;
    };
    pipes.make();
    if pipes.lives(0) {
        let _written = pipes.write(0, 1, b"hello");
        pipes.read(0, 0, &mut out);
    }
    out
}

#[test]
fn what_one_end_writes_the_other_reads(rt: HostRuntime) {
    assert!(rt; read_from_the_other_end(rt.alloc()) == *b"hello\0\0\0");
}

/// How much lies in a pipe once its other end is claimed too.
fn left_of_old(pipes: &mut Pipes) -> Option<u32> {
    if !pipes.lives(0) {
        return None;
    }
    let _old = pipes.write(0, 1, b"old");
    let half = pipes.claim(0, 0, Pid(3));
    let whole = pipes.claim(0, 1, Pid(4));
    if half == Claim::Half && whole == Claim::Whole(Pid(3)) {
        Some(pipes.left(0, 0))
    } else {
        None
    }
}

/// How much lies in a new pipe that was written to, and whose ends were claimed then.
fn left_at_claims(alloc: Global) -> Option<u32> {
    let mut pipes = Pipes::new(alloc, 1).ok()?;
    pipes.make();
    left_of_old(&mut pipes)
}

#[test]
fn a_path_begins_empty(rt: HostRuntime) {
    assert!(rt; left_at_claims(rt.alloc()) == Some(0));
}
