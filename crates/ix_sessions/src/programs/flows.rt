use super::{NO_FAULTS, comes_to};
use ix_host::Status;
use std::process::Abort;

/// What is shown, a script, and where its bytes came from.
type Story = (&'static str, &'static [u8], &'static [u8]);

const STORIES: &[Story] = &[
    (
        "a file of the config, and a write",
        b"ix 1\nproc l - * - -\nproc h 7 * - -\nfile /d - free - - x00\nfile /e - free - - \"ok\"\nphase\nlane m\n\
          open h /d w as f\nopen l /d r as g\nopen l /e r as k\nwrite h f \"AA\"\nread l k 2\nread l g 2\n",
        b"5 0 2 file 2 0 - -\n6 0 2 write 4 0 7 -\nend 2 2\n",
    ),
    (
        "a file that was let down",
        b"ix 1\nproc c 3 * D D\nproc a - - - -\nfile /g 3 free - - \"k\"\nphase\nlane m\n\
          setlabel c /g -\nopen a /g r as f\nread a f 1\n",
        b"3 0 1 file 1 0 3 1\nend 1 1\n",
    ),
    (
        "a cut and a gap",
        b"ix 1\nproc a - * - -\nfile /f - free - - \"abc\"\nphase\nlane m\n\
          open a /f rw as f\ncut a f 1\nseek a f 3\nwrite a f \"z\"\nseek a f 0\nread a f 8\n",
        b"6 0 1 file 1 0 - -\n6 1 2 gap\n6 3 1 write 4 0 - -\nend 1 3\n",
    ),
    (
        "the rest of a pipe",
        b"ix 1\nproc a - * - -\nphase\nlane m\n\
          pipe a as x y\nwrite a x \"ab\"\nwrite a x \"cd\"\nread a y 3\nread a y 3\n",
        b"4 0 2 write 2 0 - -\n4 2 1 write 3 0 - -\n5 0 1 write 3 1 - -\nend 2 3\n",
    ),
    (
        "a writer that floats afterwards",
        b"ix 1\nproc a - * - -\nfile /f - free - - x\nfile /s 3 free - - \"s\"\nphase\nlane m\n\
          open a /f rw as f\nwrite a f \"x\"\nopen a /s r as g\nread a g 1\nseek a f 0\nread a f 1\n",
        b"4 0 1 file 2 0 3 -\n6 0 1 write 2 0 - -\nend 2 2\n",
    ),
    (
        "a write over the middle of another",
        b"ix 1\nproc a - * - -\nfile /f - free - - x\nphase\nlane m\n\
          open a /f rw as f\nwrite a f \"wxyz\"\nseek a f 1\nwrite a f \"A\"\nseek a f 0\nread a f 4\n",
        b"6 0 1 write 2 0 - -\n6 1 1 write 4 0 - -\n6 2 2 write 2 2 - -\nend 1 3\n",
    ),
    (
        "nothing that was read",
        b"ix 1\nproc a - - - -\nfile /s 3 free - - \"s\"\nphase\nlane m\nopen a /s r as f\nread a f 1\nread a f 0\n",
        b"end 0 0\n",
    ),
];

/// Each byte that is read has its origin.
fn walk<R: Abort>(rt: &R, alloc: std::alloc::Global) {
    for (shown, script, lines) in STORIES {
        assert!(rt;
            comes_to(alloc, &["flow"], script, NO_FAULTS, Status::Done, lines),
            "{shown}"
        );
    }
}

#[test]
fn bytes_are_followed_to_where_they_came_from(rt: HostRuntime) {
    walk(&rt, rt.alloc());
}
