use super::{NO_FAULTS, Session, comes_to, walk};
use ix_host::Status;
use std::process::Abort;

/// Scripts that each break one rule: the script, its line and the rule, and what is printed.
const FAULTS: &[(&[u8], (u32, u8), &[u8])] = &[
    (
        b"ix 1\nlane m\n",
        (2, 9),
        b"script:2: a line stands outside a lane\n",
    ),
    (
        b"ix 1\nphase\nproc a - * - -\n",
        (3, 8),
        b"script:3: a header line stands after a phase\n",
    ),
    (
        b"ix 1\nproc a 3 - - -\n",
        (2, 22),
        b"script:2: a label is not below its ceiling\n",
    ),
    (
        b"ix 1\nfile /a/b - free - - x\n",
        (2, 23),
        b"script:2: a path does not fit the tree\n",
    ),
    (
        b"ix 1\nlimit procs 1\nproc a - * - -\nproc b - * - -\n",
        (4, 24),
        b"script:4: there is no room\n",
    ),
    (
        b"ix 1\nfs root * 1 2\nfile /a - free - - 513*00\n",
        (3, 24),
        b"script:3: there is no room\n",
    ),
    (
        b"ix 1\nproc a - * - -\nlimit log 1\n",
        (3, 25),
        b"script:3: a header line is out of order\n",
    ),
    (
        b"ix 1\nproc a - * - -\nphase\nlane m\nread a f 1\n",
        (5, 21),
        b"script:5: a name is unknown\n",
    ),
    (
        b"ix 1\nproc a - * - -\nphase\nlane m\nread a 256 1\n",
        (5, 13),
        b"script:5: a number is out of range\n",
    ),
    (
        b"ix 1\nproc a - * - -\nphase\nlane m\nwrite a 0 4097*41\n",
        (5, 19),
        b"script:5: a payload is too long\n",
    ),
    (
        b"ix 1\nproc a - * - -\nphase\nlane m\npriv a 0\n",
        (5, 28),
        b"script:5: there is no policy\n",
    ),
    (
        b"ix 1\npolicy x\n",
        (2, 27),
        b"script:2: the policy is refused\n",
    ),
];

#[test]
fn hostile_scripts_are_refused(rt: HostRuntime) {
    for (script, (line, rule), text) in FAULTS {
        let status = Status::Script {
            line: *line,
            rule: *rule,
        };
        assert!(rt;
            comes_to(rt.alloc(), &["run"], script, NO_FAULTS, status, text),
            "rule {rule} at line {line}"
        );
    }
}

const FULL: &[Session] = &[
    (
        "one open entry and one process at most",
        b"ix 1\n\
          limit procs 1\n\
          limit opens 1\n\
          proc a - * - -\n\
          file /a - free - - x\n\
          phase\n\
          lane m\n\
          open a /a r\n\
          open a /a r\n\
          fork a all\n\
          pipe a\n",
        b"ix 1 report\n\
          1 m 8 open p1 /a r = number 0 @ -\n\
          2 m 9 open p1 /a r = no 28 NoOpen @ -\n\
          3 m 10 fork p1 all = no 26 NoSlot @ -\n\
          4 m 11 pipe p1 = no 28 NoOpen @ -\n\
          objects\n\
          0 dir - free\n\
          1 file - free\n\
          processes\n\
          p1 - live\n\
          log\n\
          end 4 0\n",
    ),
    (
        "no pipe at all",
        b"ix 1\n\
          limit pipes 0\n\
          limit procs 1\n\
          limit opens 1\n\
          proc a - * - -\n\
          file /a - free - - x\n\
          phase\n\
          lane m\n\
          open a /a r\n\
          pipe a\n",
        b"ix 1 report\n\
          1 m 9 open p1 /a r = number 0 @ -\n\
          2 m 10 pipe p1 = no 24 NoInode @ -\n\
          objects\n\
          0 dir - free\n\
          1 file - free\n\
          processes\n\
          p1 - live\n\
          log\n\
          end 2 0\n",
    ),
];

#[test]
fn full_tables_are_reported(rt: HostRuntime) {
    walk(&rt, rt.alloc(), FULL);
}
