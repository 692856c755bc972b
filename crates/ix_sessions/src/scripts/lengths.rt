use super::fault;
use itoa::Buffer;
use std::alloc::{AllocError, Global};
use std::process::Abort;

/// Adds so many lines, and another text after them; in each line its number from 0 stands between the two texts.
fn add_numbered(
    bytes: &mut Vec<u8>,
    line: (&str, &str),
    count: u32,
    end: &str,
) -> Result<(), AllocError> {
    let mut digits = Buffer::new();
    for i in 0..count {
        bytes.extend_from_slice(line.0.as_bytes())?;
        bytes.extend_from_slice(digits.format(i).as_bytes())?;
        bytes.extend_from_slice(line.1.as_bytes())?;
    }
    bytes.extend_from_slice(end.as_bytes())
}

/// The fault of a script of numbered lines behind a front.
fn fault_of_numbered(
    alloc: Global,
    front: &str,
    line: (&str, &str),
    count: u32,
    end: &str,
) -> Option<(u32, u8)> {
    let mut bytes = Vec::from_slice(alloc, front.as_bytes()).ok()?;
    match add_numbered(&mut bytes, line, count, end) {
        Ok(()) => Some(fault(alloc, bytes.as_slice())),
        Err(_) => None,
    }
}

/// Adds a line of so many `#`, and another text after it.
fn add_long(bytes: &mut Vec<u8>, count: usize, end: &str) -> Result<(), AllocError> {
    for _ in 0..count {
        bytes.push(b'#')?;
    }
    bytes.extend_from_slice(end.as_bytes())
}

/// The fault of a script of a line of so many `#` behind a front.
fn fault_of_long(alloc: Global, front: &str, count: usize, end: &str) -> Option<(u32, u8)> {
    let mut bytes = Vec::from_slice(alloc, front.as_bytes()).ok()?;
    match add_long(&mut bytes, count, end) {
        Ok(()) => Some(fault(alloc, bytes.as_slice())),
        Err(_) => None,
    }
}

/// Rule 1 is of the whole input and is said of line 1: nothing stands before it, and no line is looked at.
#[test]
fn an_input_of_a_byte_too_many(rt: HostRuntime) {
    for (count, want) in [(16_777_211, (2, 2)), (16_777_212, (1, 1))] {
        assert!(rt;
            fault_of_long(rt.alloc(), "ix 1\n", count, "") == Some(want),
            "{count}"
        );
    }
}

/// Rule 2, alone and with rule 3 on the same line; no line can break a lesser rule behind it. Rule 3, with rule 2 broken
/// behind it.
#[test]
fn lines_of_a_byte_too_many(rt: HostRuntime) {
    for (front, count, end, want) in [
        ("", 65_536, "", (1, 6)),
        ("", 65_537, "", (1, 2)),
        ("ix 1\n", 65_536, "", (0, 0)),
        ("ix 1\n", 65_536, "\n", (0, 0)),
        ("ix 1\n", 65_537, "\n", (2, 2)),
        ("ix 1\n#\x01", 65_537, "", (2, 2)),
        ("ix 1\n\n", 65_537, "\n\x01", (3, 2)),
        ("ix 1\t\n", 65_537, "", (1, 3)),
        ("ix 1\n#\x7f\n", 65_537, "", (2, 3)),
        ("ix 1\n\né\n", 65_537, "", (3, 3)),
        ("ix 1\r\n", 65_537, "", (1, 3)),
    ] {
        assert!(rt;
            fault_of_long(rt.alloc(), front, count, end) == Some(want),
            "{front:?} {count} {end:?}"
        );
    }
}

/// The front of scripts of one lane, and a command of it.
const LANE: &str = "ix 1\nproc a - - - -\nphase\nlane m\n";

const COMMAND: (&str, &str) = ("read a 0 ", "\n");

/// Rule 26, of file systems and of lanes, with a rule of 20 to 25 broken behind it or on the same line.
#[test]
fn file_systems_and_lanes_too_many(rt: HostRuntime) {
    let fss = ("fs f", " * 1 2\n");
    let lanes = ("lane m", "\n");
    for (front, line, count, end, want) in [
        ("ix 1\n", fss, 16, "", (0, 0)),
        ("ix 1\n", fss, 17, "proc a - - - -\nlimit log 1", (18, 26)),
        ("ix 1\n\n", fss, 17, "proc a - - - -\nlimit log 1", (19, 26)),
        ("ix 1\n", fss, 16, "fs f3 * 1 2", (18, 20)),
        ("ix 1\n", fss, 16, "proc a - - - -\nfs far * 1 2", (19, 25)),
        ("ix 1\nphase\n", lanes, 64, "phase\nlane m9", (0, 0)),
        ("ix 1\nphase\n", lanes, 65, "self a", (67, 26)),
        (
            "ix 1\nphase\n",
            lanes,
            64,
            "phase\n\nlane m64\nself a",
            (69, 26),
        ),
        ("ix 1\nphase\n", lanes, 64, "lane m63", (67, 20)),
    ] {
        assert!(rt;
            fault_of_numbered(rt.alloc(), front, line, count, end) == Some(want),
            "{front:?} {count} {end:?}"
        );
    }
}

/// Rule 26, of commands, with rule 21 broken behind it; and before rule 28, where 200,000 commands aren't too many.
#[test]
fn a_command_too_many(rt: HostRuntime) {
    for (count, end, line) in [
        (200_001, "self q", 200_005),
        (200_000, "phase\nlane n\n\npriv a 0\nself q", 200_008),
    ] {
        assert!(rt;
            fault_of_numbered(rt.alloc(), LANE, COMMAND, count, end) == Some((line, 26)),
            "{count}"
        );
    }
}
