use super::{Session, walk};
use std::process::Abort;

const SESSIONS: &[Session] = &[
    (
        "a reader floats to what it reads",
        b"ix 1\n\
          proc a - 3 - -\n\
          file /s 3 free - - \"hi\"\n\
          phase\n\
          lane m\n\
          open a /s r as f\n\
          read a f 8\n\
          self a\n",
        b"ix 1 report\n\
          1 m 6 open p1 /s r = number 0 @ -\n\
          2 m 7 read p1 0 8 = bytes 2 x6869 @ 3\n\
          3 m 8 self p1 = label 3 @ 3\n\
          objects\n\
          0 dir - free\n\
          1 file 3 free\n\
          processes\n\
          p1 3 live\n\
          log\n\
          end 3 0\n",
    ),
    (
        "a reader stops below its ceiling",
        b"ix 1\n\
          proc a - 3 - -\n\
          file /s 3,5 free - - \"hi\"\n\
          phase\n\
          lane m\n\
          open a /s r as f\n\
          read a f 8\n\
          self a\n",
        b"ix 1 report\n\
          1 m 6 open p1 /s r = number 0 @ -\n\
          2 m 7 read p1 0 8 = no 12 ProcCeiling @ -\n\
          3 m 8 self p1 = label - @ -\n\
          objects\n\
          0 dir - free\n\
          1 file 3,5 free\n\
          processes\n\
          p1 - live\n\
          log\n\
          end 3 0\n",
    ),
    (
        "a file stops below its ceiling",
        b"ix 1\n\
          fs root 5 64 16\n\
          proc a 3 * - -\n\
          file /t - free - - \"old\"\n\
          phase\n\
          lane m\n\
          open a /t rw as f\n\
          write a f \"new\"\n\
          read a f 3\n",
        b"ix 1 report\n\
          1 m 7 open p1 /t rw = number 0 @ 3\n\
          2 m 8 write p1 0 x6e6577 = no 14 FsCeiling @ 3\n\
          3 m 9 read p1 0 3 = bytes 3 x6f6c64 @ 3\n\
          objects\n\
          0 dir - free\n\
          1 file - free\n\
          processes\n\
          p1 3 live\n\
          log\n\
          end 3 0\n",
    ),
    // What is written high shows in high lines alone: these three reports differ in the fourth entry, which is the write, and in the
    // sixth, the read that raises its reader.
    (
        "high bytes raise their reader",
        b"ix 1\n\
          proc l - * - -\n\
          proc h 7 * - -\n\
          file /d - free - - x00\n\
          file /e - free - - \"ok\"\n\
          phase\n\
          lane m\n\
          open h /d w as f\n\
          open l /d r as g\n\
          open l /e r as k\n\
          write h f \"AA\"\n\
          read l k 2\n\
          read l g 2\n",
        b"ix 1 report\n\
          1 m 8 open p2 /d w = number 0 @ 7\n\
          2 m 9 open p1 /d r = number 0 @ -\n\
          3 m 10 open p1 /e r = number 1 @ -\n\
          4 m 11 write p2 0 x4141 = number 2 @ 7\n\
          5 m 12 read p1 1 2 = bytes 2 x6f6b @ -\n\
          6 m 13 read p1 0 2 = bytes 2 x4141 @ 7\n\
          objects\n\
          0 dir - free\n\
          1 file 7 free\n\
          2 file - free\n\
          processes\n\
          p1 7 live\n\
          p2 7 live\n\
          log\n\
          end 6 0\n",
    ),
    (
        "as many other high bytes",
        b"ix 1\n\
          proc l - * - -\n\
          proc h 7 * - -\n\
          file /d - free - - x00\n\
          file /e - free - - \"ok\"\n\
          phase\n\
          lane m\n\
          open h /d w as f\n\
          open l /d r as g\n\
          open l /e r as k\n\
          write h f \"BB\"\n\
          read l k 2\n\
          read l g 2\n",
        b"ix 1 report\n\
          1 m 8 open p2 /d w = number 0 @ 7\n\
          2 m 9 open p1 /d r = number 0 @ -\n\
          3 m 10 open p1 /e r = number 1 @ -\n\
          4 m 11 write p2 0 x4242 = number 2 @ 7\n\
          5 m 12 read p1 1 2 = bytes 2 x6f6b @ -\n\
          6 m 13 read p1 0 2 = bytes 2 x4242 @ 7\n\
          objects\n\
          0 dir - free\n\
          1 file 7 free\n\
          2 file - free\n\
          processes\n\
          p1 7 live\n\
          p2 7 live\n\
          log\n\
          end 6 0\n",
    ),
    (
        "more high bytes",
        b"ix 1\n\
          proc l - * - -\n\
          proc h 7 * - -\n\
          file /d - free - - x00\n\
          file /e - free - - \"ok\"\n\
          phase\n\
          lane m\n\
          open h /d w as f\n\
          open l /d r as g\n\
          open l /e r as k\n\
          write h f \"ABC\"\n\
          read l k 2\n\
          read l g 2\n",
        b"ix 1 report\n\
          1 m 8 open p2 /d w = number 0 @ 7\n\
          2 m 9 open p1 /d r = number 0 @ -\n\
          3 m 10 open p1 /e r = number 1 @ -\n\
          4 m 11 write p2 0 x414243 = number 3 @ 7\n\
          5 m 12 read p1 1 2 = bytes 2 x6f6b @ -\n\
          6 m 13 read p1 0 2 = bytes 2 x4142 @ 7\n\
          objects\n\
          0 dir - free\n\
          1 file 7 free\n\
          2 file - free\n\
          processes\n\
          p1 7 live\n\
          p2 7 live\n\
          log\n\
          end 6 0\n",
    ),
    (
        "a label moves under an open entry",
        b"ix 1\n\
          proc l - - - -\n\
          proc h 7 * - -\n\
          file /d - free - - \"xy\"\n\
          phase\n\
          lane m\n\
          open h /d w as f\n\
          open l /d r as g\n\
          read l g 1\n\
          write h f \"Z\"\n\
          read l g 1\n",
        b"ix 1 report\n\
          1 m 7 open p2 /d w = number 0 @ 7\n\
          2 m 8 open p1 /d r = number 0 @ -\n\
          3 m 9 read p1 0 1 = bytes 1 x78 @ -\n\
          4 m 10 write p2 0 x5a = number 1 @ 7\n\
          5 m 11 read p1 0 1 = no 12 ProcCeiling @ -\n\
          objects\n\
          0 dir - free\n\
          1 file 7 free\n\
          processes\n\
          p1 - live\n\
          p2 7 live\n\
          log\n\
          end 5 0\n",
    ),
];

#[test]
fn labels_float_as_far_as_ceilings_allow(rt: HostRuntime) {
    walk(&rt, rt.alloc(), SESSIONS);
}
