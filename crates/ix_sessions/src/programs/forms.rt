use super::{Session, walk};
use std::process::Abort;

const SESSIONS: &[Session] = &[
    (
        "in form One `*` is 0 to 255",
        b"ix 1\n\
          proc a - * - -\n\
          file /s * free - - \"s\"\n\
          phase\n\
          lane m\n\
          open a /s r as f\n\
          read a f 1\n",
        b"ix 1 report\n\
          1 m 6 open p1 /s r = number 0 @ -\n\
          2 m 7 read p1 0 1 = bytes 1 x73 @ *\n\
          objects\n\
          0 dir - free\n\
          1 file * free\n\
          processes\n\
          p1 * live\n\
          log\n\
          end 2 0\n",
    ),
    (
        "in form Two 0 to 255 is a label like any other",
        b"ix 2\n\
          proc a - * - -\n\
          file /s 0-255 free - - \"s\"\n\
          file /t 300 free - - \"t\"\n\
          phase\n\
          lane m\n\
          open a /s r as f\n\
          open a /t r as g\n\
          read a f 1\n\
          read a g 1\n",
        b"ix 2 report\n\
          1 m 7 open p1 /s r = number 0 @ -\n\
          2 m 8 open p1 /t r = number 1 @ -\n\
          3 m 9 read p1 0 1 = bytes 1 x73 @ 0-255\n\
          4 m 10 read p1 1 1 = bytes 1 x74 @ 0-255,300\n\
          objects\n\
          0 dir - free\n\
          1 file 0-255 free\n\
          2 file 300 free\n\
          processes\n\
          p1 0-255,300 live\n\
          log\n\
          end 4 0\n",
    ),
    (
        "in form Two `*` is all 512",
        b"ix 2\n\
          proc a 256 * D D\n\
          file /s 256-510 free - - \"s\"\n\
          phase\n\
          lane m\n\
          setlabel a /s *\n\
          setlabel a /s 0-255\n\
          labelof a /s\n\
          setself a 0-510\n\
          ceiling a a 0-510\n\
          setself a *\n\
          self a\n",
        b"ix 2 report\n\
          1 m 6 setlabel p1 /s * = done @ 256\n\
          2 m 7 setlabel p1 /s 0-255 = done @ 256\n\
          3 m 8 labelof p1 /s = label 0-255 @ 256\n\
          4 m 9 setself p1 0-510 = done @ 0-510\n\
          5 m 10 ceiling p1 p1 0-510 = done @ 0-510\n\
          6 m 11 setself p1 * = no 12 ProcCeiling @ 0-510\n\
          7 m 12 self p1 = label 0-510 @ 0-510\n\
          objects\n\
          0 dir - free\n\
          1 file 0-255 free\n\
          processes\n\
          p1 0-510 live\n\
          log\n\
          2 p1 downfile 1 * 0-255 - -\n\
          end 7 1\n",
    ),
];

#[test]
fn labels_of_both_forms_are_told(rt: HostRuntime) {
    walk(&rt, rt.alloc(), SESSIONS);
}
