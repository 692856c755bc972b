use super::two_lanes::{
    ONE_LOOKS, ONE_OPENS, ONE_READS, ONE_WRITES, REST, SCRIPT, TWO_OPENS, TWO_WRITES,
};
use super::{NO_FAULTS, comes_to};
use ix_host::Status;
use std::alloc::{AllocError, Global};
use std::process::Abort;

/// Whether this is answered of a script with a text behind it.
fn answers(alloc: Global, input: &[u8], answer: &[u8]) -> bool {
    comes_to(alloc, &["check"], input, NO_FAULTS, Status::Done, answer)
}

const FLOAT: &[u8] = b"ix 1\n\
    proc a - 3 - -\n\
    file /s 3 free - - \"hi\"\n\
    phase\n\
    lane m\n\
    open a /s r as f\n\
    read a f 8\n\
    self a\n";

/// Its report.
const REPORT: &[&[u8]] = &[
    b"ix 1 report\n",
    b"1 m 6 open p1 /s r = number 0 @ -\n",
    b"2 m 7 read p1 0 8 = bytes 2 x6869 @ 3\n",
    b"3 m 8 self p1 = label 3 @ 3\n",
    b"objects\n",
    b"0 dir - free\n",
    b"1 file 3 free\n",
    b"processes\n",
    b"p1 3 live\n",
    b"log\n",
    b"end 3 0\n",
];

/// What is shown, a line of the report, from 0, what stands there, and what is answered.
type Claim = (&'static str, usize, &'static [u8], &'static [u8]);

const OF_FLOAT: &[Claim] = &[
    ("its own report", 0, b"ix 1 report\n", b"yes 3\n"),
    (
        "a label that was lowered",
        2,
        b"2 m 7 read p1 0 8 = bytes 2 x6869 @ -\n",
        b"no 3\n",
    ),
    (
        "a byte that is another",
        2,
        b"2 m 7 read p1 0 8 = bytes 2 x6868 @ 3\n",
        b"no 3\n",
    ),
    ("the last line is left out", 10, b"", b"no 11\n"),
    ("the last line has no line feed", 10, b"end 3 0", b"no 11\n"),
    ("a line more", 10, b"end 3 0\n\n", b"no 12\n"),
    ("some bytes more", 10, b"end 3 0\nend", b"no 12\n"),
    ("a report of the other form", 0, b"ix 2 report\n", b"no 1\n"),
];

/// The script, and its report with a text in the place of a line.
fn push_claim(out: &mut Vec<u8>, at: usize, text: &[u8]) -> Result<(), AllocError> {
    out.extend_from_slice(FLOAT)?;
    for (i, line) in REPORT.iter().enumerate() {
        out.extend_from_slice(if i == at { text } else { line })?;
    }
    Ok(())
}

fn is_checked(alloc: Global, at: usize, text: &[u8], answer: &[u8]) -> bool {
    let mut input = Vec::new(alloc);
    push_claim(&mut input, at, text).is_ok() && answers(alloc, input.as_slice(), answer)
}

#[test]
fn reports_of_one_lane_are_checked(rt: HostRuntime) {
    for (shown, at, text, answer) in OF_FLOAT {
        assert!(rt; is_checked(rt.alloc(), *at, text, answer), "{shown}");
    }
    assert!(rt; answers(rt.alloc(), FLOAT, b"no 1\n"), "no report");
}

/// What is shown, the entries of a report of two lanes, and what is answered.
type Order = (&'static str, [&'static [u8]; 6], &'static [u8]);

const ORDERS: &[Order] = &[
    (
        "one lane after the other",
        [
            ONE_OPENS, ONE_WRITES, TWO_OPENS, TWO_WRITES, ONE_LOOKS, ONE_READS,
        ],
        b"yes 6\n",
    ),
    (
        "the second lane first",
        [
            TWO_OPENS, TWO_WRITES, ONE_OPENS, ONE_WRITES, ONE_LOOKS, ONE_READS,
        ],
        b"yes 6\n",
    ),
    (
        "the lanes in turn",
        [
            TWO_OPENS, ONE_OPENS, TWO_WRITES, ONE_WRITES, ONE_LOOKS, ONE_READS,
        ],
        b"yes 6\n",
    ),
    (
        "a phase that began early",
        [
            ONE_OPENS, ONE_WRITES, ONE_LOOKS, TWO_OPENS, TWO_WRITES, ONE_READS,
        ],
        b"no 4\n",
    ),
    (
        "two entries of a lane exchanged",
        [
            ONE_WRITES, ONE_OPENS, TWO_OPENS, TWO_WRITES, ONE_LOOKS, ONE_READS,
        ],
        b"no 2\n",
    ),
];

/// The script, and its report with the entries in this order.
fn push_order(out: &mut Vec<u8>, entries: &[&[u8]; 6]) -> Result<(), AllocError> {
    out.extend_from_slice(SCRIPT)?;
    out.extend_from_slice(b"ix 1 report\n")?;
    for (number, entry) in b"123456".iter().zip(entries) {
        out.push(*number)?;
        out.extend_from_slice(entry)?;
    }
    out.extend_from_slice(REST)
}

fn is_order_checked(alloc: Global, entries: &[&[u8]; 6], answer: &[u8]) -> bool {
    let mut input = Vec::new(alloc);
    push_order(&mut input, entries).is_ok() && answers(alloc, input.as_slice(), answer)
}

#[test]
fn reports_in_any_order_of_lanes_are_checked(rt: HostRuntime) {
    for (shown, entries, answer) in ORDERS {
        assert!(rt; is_order_checked(rt.alloc(), entries, answer), "{shown}");
    }
}
