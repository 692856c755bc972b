use super::{NO_FAULTS, Session, comes_to, walk};
use ix_host::Status;
use std::process::Abort;

const SESSIONS: &[Session] = &[
    (
        "without commands the world is told",
        b"ix 1\n",
        b"ix 1 report\n\
          objects\n\
          0 dir - free\n\
          processes\n\
          log\n\
          end 0 0\n",
    ),
    (
        "a name stands for what it was last bound to",
        b"ix 1\n\
          proc a - * - -\n\
          file /s - free - - \"hi\"\n\
          phase\n\
          lane m\n\
          open a /s r as f\n\
          open a /none r as f\n\
          read a f 2\n\
          open a /s w as f\n\
          write a f \"yo\"\n\
          read a 0 2\n",
        b"ix 1 report\n\
          1 m 6 open p1 /s r = number 0 @ -\n\
          2 m 7 open p1 /none r = no 5 NotFound @ -\n\
          3 m 8 read p1 255 2 = no 2 BadFd @ -\n\
          4 m 9 open p1 /s w = number 1 @ -\n\
          5 m 10 write p1 1 x796f = number 2 @ -\n\
          6 m 11 read p1 0 2 = bytes 2 x796f @ -\n\
          objects\n\
          0 dir - free\n\
          1 file - free\n\
          processes\n\
          p1 - live\n\
          log\n\
          end 6 0\n",
    ),
    (
        "each lane has names of its own",
        b"ix 1\n\
          proc a - * - -\n\
          file /s - free - - \"hi\"\n\
          phase\n\
          lane m\n\
          open a /s r as f\n\
          lane n\n\
          open a /s r as g\n\
          phase\n\
          lane n\n\
          read a g 1\n\
          lane m\n\
          read a f 2\n",
        b"ix 1 report\n\
          1 m 6 open p1 /s r = number 0 @ -\n\
          2 n 8 open p1 /s r = number 1 @ -\n\
          3 n 11 read p1 1 1 = bytes 1 x68 @ -\n\
          4 m 13 read p1 0 2 = bytes 2 x6869 @ -\n\
          objects\n\
          0 dir - free\n\
          1 file - free\n\
          processes\n\
          p1 - live\n\
          log\n\
          end 4 0\n",
    ),
];

#[test]
fn lanes_are_reported(rt: HostRuntime) {
    walk(&rt, rt.alloc(), SESSIONS);
}

#[test]
fn a_script_is_printed_in_its_shortest_spelling(rt: HostRuntime) {
    let script = b"ix 1\n# note\nfile /s 3 free - - x6869\nfile /z - free - - 1048576*00\n";
    let text = b"ix 1\n\nfile /s 3 free - - \"hi\"\nfile /z - free - - 1048576*00\n";
    assert!(rt;
        comes_to(
            rt.alloc(),
            &["print"],
            script,
            NO_FAULTS,
            Status::Done,
            text
        )
    );
}
