use super::{NO_FAULTS, USAGE, comes_to};
use ix_host::Status;
use std::alloc::Global;
use std::process::Abort;

/// What differs, a label, a script, which of its lines stand otherwise in the second one, how they stand there, and what is
/// written of the two.
type Pair = (
    &'static str,
    &'static str,
    &'static [u8],
    &'static [u8],
    &'static [u8],
    &'static [u8],
);

/// A high process writes to a low file, which a low one reads, and another.
const WRITES: &[u8] =
    b"ix 1\nproc l - * - -\nproc h 7 * - -\nfile /d - free - - x00\nfile /e - free - - \"ok\"\nphase\n\
    lane m\nopen h /d w as f\nopen l /d r as g\nopen l /e r as k\nwrite h f \"AA\"\nread l k 2\n\
    read l g 2\n";

/// A high process copies a file.
const COPIES: &[u8] =
    b"ix 1\nproc l - * - -\nproc h 7 * - -\nfile /s 7 free - - \"secret\"\nfile /o 7 free - - x\n\
    file /e - free - - \"ok\"\nphase\nlane m\nopen l /e r as k\nopen h /s r as a\nopen h /o w as b\n\
    copy h a b 64\nread l k 2\n";

/// A privilege server with a high client.
const GRANTS: &[u8] = b"ix 1\nproc server 7 * P DPL\n\
    policy {\"rules\":[{\"act\":\"grant\",\"user\":\"*\",\"clear\":\"3\",\"privs\":\"DL\",\"allow\":true}]}\n\
    proc l - - - -\nfile /release 7 free D - \"release\"\nfile /s 7 free - - \"one\"\n\
    file /e - free - - \"ok\"\nphase\nlane m\nopen l /e r as k\npipe server as s c\n\
    fork server c as clerk\ndroplic clerk DPCTL\nexec clerk /release\npex server s\npex clerk c\n\
    write clerk c \"want D\"\npriv server s\nread clerk c 64\nopen clerk /s r as x\nread clerk x 8\n\
    read l k 2\n";

/// A session server with a client that logs in.
const LOGS_IN: &[u8] = b"ix 1\nproc server - * P DPCTL\n\
    policy {\"rules\":[{\"act\":\"session\",\"user\":\"ann\",\"clear\":\"2,5\",\"privs\":\"L\",\"allow\":true}]}\n\
    proc l - - - -\ndir /home - free\nfile /home/mail 2 free - - \"hello ann\"\n\
    file /home/plans 7 free - - \"not hers\"\nphase\nlane m\npipe server as s c\npipe server as in out\n\
    fork server c as client\ndroplic client DPCTL\npex server s\npex client c\n\
    write client c \"login ann\"\nlogin server s in as ann\nread client c 64\n\
    open ann /home/mail r as mail\nread ann mail 64\nself ann\nself l\n";

/// A parent waits for a child that read a high file.
const WAITS: &[u8] =
    b"ix 1\nproc boss - 3 - -\nproc l - - - -\nfile /a 3 free - - \"x\"\nphase\nlane m\n\
    fork boss none as kid\nopen kid /a r as f\nread kid f 1\nexit kid 1\nself l\nwait boss\nself boss\n";

/// A file is let down between two low reads of another.
const LETS_DOWN: &[u8] =
    b"ix 1\nproc c 3 * D D\nproc a - - - -\nfile /g 3 free - - \"k\"\nfile /e - free - - \"ok\"\nphase\n\
    lane m\nopen a /e r as e\nread a e 1\nsetlabel c /g -\nread a e 1\nopen a /g r as f\nread a f 1\n";

/// Two lanes of one process.
const TELLS: &[u8] = b"ix 1\nproc a - - - -\nphase\nlane one\nself a\nlane two\nself a\n";

const PAIRS: &[Pair] = &[
    (
        "a high process writes other bytes",
        "-",
        WRITES,
        b"write h f \"AA\"\n",
        b"write h f \"BB\"\n",
        b"agree 6\n1 2 m 9 open p1 /d r = number 0 @ -\n2 2 m 9 open p1 /d r = number 0 @ -\n\
          1 3 m 10 open p1 /e r = number 1 @ -\n2 3 m 10 open p1 /e r = number 1 @ -\n\
          1 5 m 12 read p1 1 2 = bytes 2 x6f6b @ -\n2 5 m 12 read p1 1 2 = bytes 2 x6f6b @ -\nend 3\n",
    ),
    (
        "or more of them",
        "-",
        WRITES,
        b"write h f \"AA\"\n",
        b"write h f \"ABC\"\n",
        b"agree 6\n1 2 m 9 open p1 /d r = number 0 @ -\n2 2 m 9 open p1 /d r = number 0 @ -\n\
          1 3 m 10 open p1 /e r = number 1 @ -\n2 3 m 10 open p1 /e r = number 1 @ -\n\
          1 5 m 12 read p1 1 2 = bytes 2 x6f6b @ -\n2 5 m 12 read p1 1 2 = bytes 2 x6f6b @ -\nend 3\n",
    ),
    (
        "a low file of the config has other bytes",
        "-",
        WRITES,
        b"file /e - free - - \"ok\"\n",
        b"file /e - free - - \"no\"\n",
        b"differ 0\nend 0\n",
    ),
    (
        "a low process reads fewer bytes",
        "-",
        WRITES,
        b"read l k 2\n",
        b"read l k 1\n",
        b"differ 5\n1 2 m 9 open p1 /d r = number 0 @ -\n2 2 m 9 open p1 /d r = number 0 @ -\n\
          1 3 m 10 open p1 /e r = number 1 @ -\n2 3 m 10 open p1 /e r = number 1 @ -\nend 2\n",
    ),
    (
        "a high process copies another file of the config",
        "-",
        COPIES,
        b"file /s 7 free - - \"secret\"\n",
        b"file /s 7 free - - \"nothing\"\n",
        b"agree 6\n1 1 m 9 open p1 /e r = number 0 @ -\n2 1 m 9 open p1 /e r = number 0 @ -\n\
          1 6 m 13 read p1 0 2 = bytes 2 x6f6b @ -\n2 6 m 13 read p1 0 2 = bytes 2 x6f6b @ -\nend 2\n",
    ),
    (
        "which is no higher than the label",
        "7",
        COPIES,
        b"file /s 7 free - - \"secret\"\n",
        b"file /s 7 free - - \"nothing\"\n",
        b"differ 0\nend 0\n",
    ),
    (
        "nor is below it",
        "3-4",
        COPIES,
        b"file /s 7 free - - \"secret\"\n",
        b"file /s 7 free - - \"nothing\"\n",
        b"agree 6\n1 1 m 9 open p1 /e r = number 0 @ -\n2 1 m 9 open p1 /e r = number 0 @ -\n\
          1 6 m 13 read p1 0 2 = bytes 2 x6f6b @ -\n2 6 m 13 read p1 0 2 = bytes 2 x6f6b @ -\nend 2\n",
    ),
    (
        "a privilege server with a high client",
        "-",
        GRANTS,
        b"file /s 7 free - - \"one\"\n",
        b"file /s 7 free - - \"another\"\n",
        b"agree 16\n1 1 m 10 open p2 /e r = number 0 @ -\n2 1 m 10 open p2 /e r = number 0 @ -\n\
          1 16 m 22 read p2 0 2 = bytes 2 x6f6b @ -\n2 16 m 22 read p2 0 2 = bytes 2 x6f6b @ -\nend 2\n",
    ),
    (
        "that asks for something else",
        "-",
        GRANTS,
        b"write clerk c \"want D\"\n",
        b"write clerk c \"want T\"\n",
        b"agree 16\n1 1 m 10 open p2 /e r = number 0 @ -\n2 1 m 10 open p2 /e r = number 0 @ -\n\
          1 16 m 22 read p2 0 2 = bytes 2 x6f6b @ -\n2 16 m 22 read p2 0 2 = bytes 2 x6f6b @ -\nend 2\n",
    ),
    (
        "a session server, and other bytes that its client may read",
        "-",
        LOGS_IN,
        b"file /home/mail 2 free - - \"hello ann\"\n",
        b"file /home/mail 2 free - - \"bye\"\n",
        b"agree 20\n1 1 m 10 pipe p1 = two 0 1 @ -\n2 1 m 10 pipe p1 = two 0 1 @ -\n\
          1 2 m 11 pipe p1 = two 2 3 @ -\n2 2 m 11 pipe p1 = two 2 3 @ -\n1 3 m 12 fork p1 1 = number 3 @ -\n\
          2 3 m 12 fork p1 1 = number 3 @ -\n1 4 m 13 droplic p3 DPCTL = done @ -\n\
          2 4 m 13 droplic p3 DPCTL = done @ -\n1 5 m 14 pex p1 0 = half @ -\n2 5 m 14 pex p1 0 = half @ -\n\
          1 6 m 15 pex p3 1 = whole p1 - DPCTL @ -\n2 6 m 15 pex p3 1 = whole p1 - DPCTL @ -\n\
          1 7 m 16 write p3 1 x6c6f67696e20616e6e = number 9 @ -\n\
          2 7 m 16 write p3 1 x6c6f67696e20616e6e = number 9 @ -\n1 8 m 17 pex p1 0 = whole p3 - - @ -\n\
          2 8 m 17 pex p1 0 = whole p3 - - @ -\n1 9 m 17 read p1 0 64 = bytes 9 x6c6f67696e20616e6e @ -\n\
          2 9 m 17 read p1 0 64 = bytes 9 x6c6f67696e20616e6e @ -\n1 10 m 17 fork p1 2 = number 4 @ -\n\
          2 10 m 17 fork p1 2 = number 4 @ -\n1 11 m 17 droplic p4 DPCTL = done @ -\n\
          2 11 m 17 droplic p4 DPCTL = done @ -\n1 12 m 17 ceiling p1 p4 2,5 = done @ -\n\
          2 12 m 17 ceiling p1 p4 2,5 = done @ -\n1 13 m 17 grant p1 p4 L = done @ -\n\
          2 13 m 17 grant p1 p4 L = done @ -\n1 14 m 17 write p1 0 x6772616e7465642031 = number 9 @ -\n\
          2 14 m 17 write p1 0 x6772616e7465642031 = number 9 @ -\n1 15 m 17 unpex p1 0 = done @ -\n\
          2 15 m 17 unpex p1 0 = done @ -\n1 16 m 18 read p3 1 64 = bytes 9 x6772616e7465642031 @ -\n\
          2 16 m 18 read p3 1 64 = bytes 9 x6772616e7465642031 @ -\n\
          1 17 m 19 open p4 /home/mail r = number 0 @ -\n2 17 m 19 open p4 /home/mail r = number 0 @ -\n\
          1 20 m 22 self p2 = label - @ -\n2 20 m 22 self p2 = label - @ -\nend 18\n",
    ),
    (
        "which are no higher than the label",
        "2",
        LOGS_IN,
        b"file /home/mail 2 free - - \"hello ann\"\n",
        b"file /home/mail 2 free - - \"bye\"\n",
        b"differ 0\nend 0\n",
    ),
    (
        "and another user at a low client",
        "-",
        LOGS_IN,
        b"write client c \"login ann\"\n",
        b"write client c \"login bob\"\n",
        b"differ 7\n1 1 m 10 pipe p1 = two 0 1 @ -\n2 1 m 10 pipe p1 = two 0 1 @ -\n\
          1 2 m 11 pipe p1 = two 2 3 @ -\n2 2 m 11 pipe p1 = two 2 3 @ -\n1 3 m 12 fork p1 1 = number 3 @ -\n\
          2 3 m 12 fork p1 1 = number 3 @ -\n1 4 m 13 droplic p3 DPCTL = done @ -\n\
          2 4 m 13 droplic p3 DPCTL = done @ -\n1 5 m 14 pex p1 0 = half @ -\n2 5 m 14 pex p1 0 = half @ -\n\
          1 6 m 15 pex p3 1 = whole p1 - DPCTL @ -\n2 6 m 15 pex p3 1 = whole p1 - DPCTL @ -\nend 6\n",
    ),
    (
        "a high child gives another status",
        "-",
        WAITS,
        b"exit kid 1\n",
        b"exit kid 2\n",
        b"agree 7\n1 1 m 7 fork p1 none = number 3 @ -\n2 1 m 7 fork p1 none = number 3 @ -\n\
          1 2 m 8 open p3 /a r = number 0 @ -\n2 2 m 8 open p3 /a r = number 0 @ -\n\
          1 5 m 11 self p2 = label - @ -\n2 5 m 11 self p2 = label - @ -\nend 3\n",
    ),
    (
        "no higher than the label",
        "3",
        WAITS,
        b"exit kid 1\n",
        b"exit kid 2\n",
        b"differ 4\n1 1 m 7 fork p1 none = number 3 @ -\n2 1 m 7 fork p1 none = number 3 @ -\n\
          1 2 m 8 open p3 /a r = number 0 @ -\n2 2 m 8 open p3 /a r = number 0 @ -\n\
          1 3 m 9 read p3 0 1 = bytes 1 x78 @ 3\n2 3 m 9 read p3 0 1 = bytes 1 x78 @ 3\nend 3\n",
    ),
    (
        "and a low child",
        "-",
        b"ix 1\nproc boss - 3 - -\nproc l - - - -\nfile /a 3 free - - \"x\"\nphase\nlane m\n\
          fork boss none as kid\nopen kid /a r as f\nexit kid 1\nself l\nwait boss\nself boss\n",
        b"exit kid 1\n",
        b"exit kid 2\n",
        b"differ 3\n1 1 m 7 fork p1 none = number 3 @ -\n2 1 m 7 fork p1 none = number 3 @ -\n\
          1 2 m 8 open p3 /a r = number 0 @ -\n2 2 m 8 open p3 /a r = number 0 @ -\nend 2\n",
    ),
    (
        "a file is let down across the label after a low read",
        "-",
        LETS_DOWN,
        b"file /g 3 free - - \"k\"\n",
        b"file /g 3 free - - \"j\"\n",
        b"agree 6\n1 1 m 8 open p2 /e r = number 0 @ -\n2 1 m 8 open p2 /e r = number 0 @ -\n\
          1 2 m 9 read p2 0 1 = bytes 1 x6f @ -\n2 2 m 9 read p2 0 1 = bytes 1 x6f @ -\nend 2\n",
    ),
    (
        "and not across it",
        "3",
        LETS_DOWN,
        b"",
        b"",
        b"agree 6\n1 1 m 8 open p2 /e r = number 0 @ -\n2 1 m 8 open p2 /e r = number 0 @ -\n\
          1 2 m 9 read p2 0 1 = bytes 1 x6f @ -\n2 2 m 9 read p2 0 1 = bytes 1 x6f @ -\n\
          1 3 m 10 setlabel p1 /g - = done @ 3\n2 3 m 10 setlabel p1 /g - = done @ 3\n\
          1 4 m 11 read p2 0 1 = bytes 1 x6b @ -\n2 4 m 11 read p2 0 1 = bytes 1 x6b @ -\n\
          1 5 m 12 open p2 /g r = number 1 @ -\n2 5 m 12 open p2 /g r = number 1 @ -\n\
          1 6 m 13 read p2 1 1 = bytes 1 x6b @ -\n2 6 m 13 read p2 1 1 = bytes 1 x6b @ -\nend 6\n",
    ),
    (
        "and before a low read",
        "-",
        b"ix 1\nproc c 3 * D D\nproc a - - - -\nfile /g 3 free - - \"k\"\nfile /e - free - - \"ok\"\nphase\n\
          lane m\nopen a /e r as e\nsetlabel c /g -\nread a e 1\nopen a /g r as f\nread a f 1\n",
        b"file /g 3 free - - \"k\"\n",
        b"file /g 3 free - - \"j\"\n",
        b"agree 5\n1 1 m 8 open p2 /e r = number 0 @ -\n2 1 m 8 open p2 /e r = number 0 @ -\nend 1\n",
    ),
    (
        "the ceiling of a process",
        "-",
        WRITES,
        b"proc h 7 * - -\n",
        b"proc h 7 0-200 - -\n",
        b"differ 0\nend 0\n",
    ),
    (
        "the name of a lane",
        "-",
        TELLS,
        b"lane two\n",
        b"lane three\n",
        b"differ 0\nend 0\n",
    ),
    (
        "a lane less",
        "-",
        TELLS,
        b"lane two\n",
        b"",
        b"differ 0\nend 0\n",
    ),
    (
        "another form",
        "-",
        TELLS,
        b"ix 1\n",
        b"ix 2\n",
        b"differ 0\nend 0\n",
    ),
    (
        "one script twice",
        "-",
        TELLS,
        b"",
        b"",
        b"agree 2\n1 1 one 5 self p1 = label - @ -\n2 1 one 5 self p1 = label - @ -\n\
          1 2 two 7 self p1 = label - @ -\n2 2 two 7 self p1 = label - @ -\nend 2\n",
    ),
    (
        "an entry more in the second",
        "-",
        TELLS,
        b"lane two\nself a\n",
        b"lane two\nself a\nself a\n",
        b"differ 3\n1 1 one 5 self p1 = label - @ -\n2 1 one 5 self p1 = label - @ -\n\
          1 2 two 7 self p1 = label - @ -\n2 2 two 7 self p1 = label - @ -\nend 2\n",
    ),
    (
        "an entry less",
        "-",
        b"ix 1\nproc a - - - -\nphase\nlane one\nself a\nlane two\nself a\nself a\n",
        b"self a\nself a\n",
        b"self a\n",
        b"differ 3\n1 1 one 5 self p1 = label - @ -\n2 1 one 5 self p1 = label - @ -\n\
          1 2 two 7 self p1 = label - @ -\n2 2 two 7 self p1 = label - @ -\nend 2\n",
    ),
    (
        "a high process is refused, in one of them",
        "-",
        b"ix 1\nproc l - - - -\nproc h 7 * - -\ndir /t 7 free\nfile /e - free - - \"ok\"\nphase\nlane m\n\
          open l /e r as e\nmkdir h /t/a\nmkdir h /t/a\nread l e 2\n",
        b"mkdir h /t/a\nmkdir h /t/a\n",
        b"mkdir h /t/a\nmkdir h /t/b\n",
        b"differ 3\n1 1 m 8 open p1 /e r = number 0 @ -\n2 1 m 8 open p1 /e r = number 0 @ -\nend 1\n",
    ),
    (
        "at all categories",
        "*",
        WRITES,
        b"write h f \"AA\"\n",
        b"write h f \"BB\"\n",
        b"differ 4\n1 1 m 8 open p2 /d w = number 0 @ 7\n2 1 m 8 open p2 /d w = number 0 @ 7\n\
          1 2 m 9 open p1 /d r = number 0 @ -\n2 2 m 9 open p1 /d r = number 0 @ -\n\
          1 3 m 10 open p1 /e r = number 1 @ -\n2 3 m 10 open p1 /e r = number 1 @ -\nend 3\n",
    ),
    ("nothing", "-", b"ix 1\n", b"", b"", b"agree 0\nend 0\n"),
];

/// Which script has a fault, an input, the fault's line and rule, and what is written of it.
type Faulty = (&'static str, &'static [u8], u32, u8, &'static [u8]);

const FAULTY: &[Faulty] = &[
    (
        "in both",
        b"ix 1\nfoo\ntwin\nix 1\nbar\n",
        2,
        7,
        b"script:2: the command is unknown\n",
    ),
    (
        "in the second",
        b"ix 1\ntwin\nix 1\nbar\n",
        4,
        7,
        b"script:4: the command is unknown\n",
    ),
    (
        "a policy, in both",
        b"ix 1\nproc a - - - -\npolicy {}\ntwin\nix 1\npolicy {}\n",
        3,
        27,
        b"script:3: the policy is refused\n",
    ),
    (
        "in the second",
        b"ix 1\ntwin\nix 1\n\npolicy {}\n",
        5,
        27,
        b"script:5: the policy is refused\n",
    ),
    (
        "no second one",
        b"ix 1\n",
        2,
        6,
        b"script:2: the first line is not ix 1 or ix 2\n",
    ),
    (
        "nor a line feed",
        b"ix 1",
        2,
        6,
        b"script:2: the first line is not ix 1 or ix 2\n",
    ),
    (
        "no bytes",
        b"",
        1,
        6,
        b"script:1: the first line is not ix 1 or ix 2\n",
    ),
    (
        "the dividing line alone",
        b"twin",
        1,
        6,
        b"script:1: the first line is not ix 1 or ix 2\n",
    ),
    (
        "nothing behind the dividing line",
        b"ix 1\ntwin",
        3,
        6,
        b"script:3: the first line is not ix 1 or ix 2\n",
    ),
    (
        "a second dividing line",
        b"ix 1\ntwin\nix 1\ntwin\nix 1\n",
        4,
        7,
        b"script:4: the command is unknown\n",
    ),
];

/// What stands before a text where it comes first, and what stands behind it.
fn around<'a>(script: &'a [u8], text: &[u8]) -> Option<(&'a [u8], &'a [u8])> {
    for at in 0..=script.len() {
        let (front, rest) = script.split_at(at);
        if let Some(behind) = rest.strip_prefix(text) {
            return Some((front, behind));
        }
    }
    None
}

/// A script and, behind the dividing line, the same with a text in the place of another.
fn input(alloc: Global, script: &[u8], old: &[u8], new: &[u8]) -> Option<Vec<u8>> {
    let (front, behind) = around(script, old)?;
    let mut bytes = Vec::new(alloc);
    for part in [script, b"twin\n", front, new, behind] {
        bytes.extend_from_slice(part).ok()?;
    }
    Some(bytes)
}

/// Whether `twin` with this word comes to that.
fn is_told(alloc: Global, label: &str, input: &[u8], status: Status, text: &[u8]) -> bool {
    comes_to(alloc, &["twin", label], input, NO_FAULTS, status, text)
}

/// Each pair is compared.
fn walk<R: Abort>(rt: &R, alloc: Global) {
    for (shown, label, script, old, new, text) in PAIRS {
        let Some(bytes) = input(alloc, script, old, new) else {
            panic!(rt; "there is no memory")
        };
        assert!(rt;
            is_told(alloc, label, bytes.as_slice(), Status::Done, text),
            "{shown}"
        );
    }
}

#[test]
fn two_scripts_are_compared_at_a_label(rt: HostRuntime) {
    walk(&rt, rt.alloc());
}

/// Each fault is told at its line of the input.
fn refuse_all<R: Abort>(rt: &R, alloc: Global) {
    for (shown, input, line, rule, text) in FAULTY {
        let (line, rule) = (*line, *rule);
        assert!(rt;
            is_told(alloc, "-", input, Status::Script { line, rule }, text),
            "{shown}"
        );
    }
}

#[test]
fn a_fault_of_either_script_is_told_at_its_line_of_the_input(rt: HostRuntime) {
    refuse_all(&rt, rt.alloc());
}

#[test]
fn a_label_is_spelled_in_form_two(rt: HostRuntime) {
    let alloc = rt.alloc();
    for label in ["0-511", "7,6", "", "--3", "D"] {
        assert!(rt; is_told(alloc, label, b"", Status::Usage, USAGE), "{label}");
    }
    assert!(rt; comes_to(alloc, &["twin"], b"", NO_FAULTS, Status::Usage, USAGE));
    assert!(rt;
        comes_to(
            alloc,
            &["twin", "-", "-"],
            b"",
            NO_FAULTS,
            Status::Usage,
            USAGE
        )
    );
    assert!(rt;
        is_told(
            alloc,
            "*",
            b"ix 1\ntwin\nix 1\n",
            Status::Done,
            b"agree 0\nend 0\n"
        )
    );
    assert!(rt;
        is_told(
            alloc,
            "300",
            b"ix 1\ntwin\nix 1\n",
            Status::Done,
            b"agree 0\nend 0\n"
        )
    );
}
