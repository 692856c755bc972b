use super::{Session, walk};
use std::process::Abort;

const SESSIONS: &[Session] = &[
    (
        "what is copied is read and written",
        b"ix 1\n\
          proc a - * - -\n\
          file /s - free - - \"hi\"\n\
          file /t - free - - \"old\"\n\
          phase\n\
          lane m\n\
          open a /s r as f\n\
          open a /t rw as g\n\
          copy a f g 8\n\
          copy a f g 8\n\
          read a g 8\n",
        b"ix 1 report\n\
          1 m 7 open p1 /s r = number 0 @ -\n\
          2 m 8 open p1 /t rw = number 1 @ -\n\
          3 m 9 read p1 0 8 = bytes 2 x6869 @ -\n\
          4 m 9 write p1 1 x6869 = number 2 @ -\n\
          5 m 10 read p1 0 8 = bytes 0 x @ -\n\
          6 m 11 read p1 1 8 = bytes 1 x64 @ -\n\
          objects\n\
          0 dir - free\n\
          1 file - free\n\
          2 file - free\n\
          processes\n\
          p1 - live\n\
          log\n\
          end 6 0\n",
    ),
    (
        "a copy floats on both sides",
        b"ix 1\n\
          proc a - * - -\n\
          file /s 3 free - - \"hi\"\n\
          file /t - free - - \"\"\n\
          phase\n\
          lane m\n\
          open a /s r as f\n\
          open a /t w as g\n\
          copy a f g 8\n",
        b"ix 1 report\n\
          1 m 7 open p1 /s r = number 0 @ -\n\
          2 m 8 open p1 /t w = number 1 @ -\n\
          3 m 9 read p1 0 8 = bytes 2 x6869 @ 3\n\
          4 m 9 write p1 1 x6869 = number 2 @ 3\n\
          objects\n\
          0 dir - free\n\
          1 file 3 free\n\
          2 file 3 free\n\
          processes\n\
          p1 3 live\n\
          log\n\
          end 4 0\n",
    ),
];

#[test]
fn copies_read_and_write(rt: HostRuntime) {
    walk(&rt, rt.alloc(), SESSIONS);
}
