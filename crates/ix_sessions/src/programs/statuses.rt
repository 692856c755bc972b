use super::{Faults, NO_FAULTS, USAGE, comes_to};
use ix_host::Status;
use std::alloc::Global;
use std::process::Abort;

#[test]
fn a_script_is_refused_by_one_line(rt: HostRuntime) {
    for (script, line, rule, text) in [
        (
            b"ix 1\nix 1\n".as_slice(),
            2,
            7,
            b"script:2: the command is unknown\n".as_slice(),
        ),
        (
            b"ix 3\n",
            1,
            6,
            b"script:1: the first line is not ix 1 or ix 2\n",
        ),
    ] {
        let status = Status::Script { line, rule };
        assert!(rt; comes_to(rt.alloc(), &["run"], script, NO_FAULTS, status, text));
    }
}

/// Whether an input of a byte too many is too long.
fn is_too_long(alloc: Global) -> bool {
    let status = Status::Script { line: 1, rule: 1 };
    let text = b"script:1: the script is too long\n";
    match vec![in alloc; b'\n'; 16_777_217] {
        Ok(feeds) => comes_to(alloc, &["run"], feeds.as_slice(), NO_FAULTS, status, text),
        Err(_) => false,
    }
}

#[test]
fn an_input_of_a_byte_too_many_is_too_long(rt: HostRuntime) {
    assert!(rt; is_too_long(rt.alloc()));
}

#[test]
fn a_read_that_fails_writes_nothing(rt: HostRuntime) {
    let faults = Faults {
        source: &[1],
        ..NO_FAULTS
    };
    assert!(rt;
        comes_to(
            rt.alloc(),
            &["run"],
            b"ix 1\n",
            faults,
            Status::ReadFault,
            b""
        )
    );
}

/// Streams whose source fails at its first call, and whose sink fails at no call.
const UNREAD: Faults = Faults {
    source: &[0],
    ..NO_FAULTS
};

#[test]
fn a_made_session_is_summed_up_and_nothing_is_read(rt: HostRuntime) {
    for (words, line) in [
        (
            ["gen", "1"].as_slice(),
            b"gen 1 entries 4 refused 0 read 0 written 0 log 0\n".as_slice(),
        ),
        (
            &["gen", "--", "6"],
            b"gen 6 entries 9 refused 1 read 20 written 8 log 0\n",
        ),
        (
            &["gen", "20000"],
            b"gen 20000 entries 20003 refused 3333 read 66660 written 26672 log 0\n",
        ),
    ] {
        assert!(rt;
            comes_to(rt.alloc(), words, b"", UNREAD, Status::Done, line),
            "{words:?}"
        );
    }
}

/// Words, the calls at which a sink fails and its room, and what it takes of the text then.
type Broken = (
    &'static [&'static str],
    &'static [u32],
    usize,
    &'static [u8],
);

/// The input is an empty script. A sink that fails at its second call takes all, and isn't finished.
const BROKEN: &[Broken] = &[
    (&["help"], &[0], 100, b""),
    (&["help"], &[1], 100, USAGE),
    (&["help"], &[9], 3, b"usa"),
    (&["run"], &[0], 100, b""),
    (
        &["run"],
        &[1],
        100,
        b"ix 1 report\nobjects\n0 dir - free\nprocesses\nlog\nend 0 0\n",
    ),
    (&["run"], &[9], 12, b"ix 1 report\n"),
    (&["gen", "1"], &[0], 100, b""),
    (
        &["gen", "1"],
        &[1],
        100,
        b"gen 1 entries 4 refused 0 read 0 written 0 log 0\n",
    ),
    (&["gen", "1"], &[9], 12, b"gen 1 entrie"),
];

#[test]
fn a_write_that_fails_leaves_a_front(rt: HostRuntime) {
    for (words, fails, room, text) in BROKEN {
        let faults = Faults {
            source: &[],
            sink: fails,
            room: *room,
        };
        assert!(rt;
            comes_to(
                rt.alloc(),
                words,
                b"ix 1\n",
                faults,
                Status::WriteFault,
                text
            ),
            "{words:?} {room}"
        );
    }
}
