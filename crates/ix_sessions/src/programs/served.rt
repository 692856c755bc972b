use super::{Faults, Session, comes_to, walk};
use ix_host::Status;
use std::alloc::Global;
use std::process::Abort;

/// Each step of both servers that can be refused, but for their answers' write (below), with the calls that are made then.
const SESSIONS: &[Session] = &[
    (
        "steps 1 and 2 are refused, and half a claim ends it: the claim stays",
        b"ix 1\n\
          proc srv - * P P\n\
          policy {\"rules\":[]}\n\
          phase\n\
          lane m\n\
          pipe srv as s c\n\
          fork srv c as t\n\
          priv srv s\n\
          login srv s c\n\
          pex t c\n\
          priv srv s\n\
          login srv s c\n\
          priv srv 9\n\
          login srv 9 c\n",
        b"ix 1 report\n\
          1 m 6 pipe p1 = two 0 1 @ -\n\
          2 m 7 fork p1 1 = number 2 @ -\n\
          3 m 8 pex p1 0 = half @ -\n\
          4 m 9 pex p1 0 = half @ -\n\
          5 m 10 pex p2 1 = whole p1 - P @ -\n\
          6 m 11 pex p1 0 = whole p2 - P @ -\n\
          7 m 11 read p1 0 64 = no 35 Again @ -\n\
          8 m 12 pex p1 0 = whole p2 - P @ -\n\
          9 m 12 read p1 0 64 = no 35 Again @ -\n\
          10 m 13 pex p1 9 = no 2 BadFd @ -\n\
          11 m 14 pex p1 9 = no 2 BadFd @ -\n\
          objects\n\
          0 dir - free\n\
          256 pipe - free\n\
          processes\n\
          p1 - live\n\
          p2 - live\n\
          log\n\
          end 11 0\n",
    ),
    (
        "step 4 of a session is refused where there is no slot",
        b"ix 1\n\
          limit procs 2\n\
          proc srv - * P P\n\
          policy {\"rules\":[{\"act\":\"session\",\"user\":\"*\",\"clear\":\"-\",\"privs\":\"-\",\"allow\":true}]}\n\
          phase\n\
          lane m\n\
          pipe srv as s c\n\
          fork srv c as t\n\
          pex srv s\n\
          pex t c\n\
          write t c \"login ann\"\n\
          login srv s c as ann\n\
          read t c 64\n\
          self ann\n",
        b"ix 1 report\n\
          1 m 7 pipe p1 = two 0 1 @ -\n\
          2 m 8 fork p1 1 = number 2 @ -\n\
          3 m 9 pex p1 0 = half @ -\n\
          4 m 10 pex p2 1 = whole p1 - P @ -\n\
          5 m 11 write p2 1 x6c6f67696e20616e6e = number 9 @ -\n\
          6 m 12 pex p1 0 = whole p2 - P @ -\n\
          7 m 12 read p1 0 64 = bytes 9 x6c6f67696e20616e6e @ -\n\
          8 m 12 fork p1 1 = no 26 NoSlot @ -\n\
          9 m 12 write p1 0 x72656675736564203236 = number 10 @ -\n\
          10 m 12 unpex p1 0 = done @ -\n\
          11 m 13 read p2 1 64 = bytes 10 x72656675736564203236 @ -\n\
          12 m 14 self p0 = no 1 NoProcess @ none\n\
          objects\n\
          0 dir - free\n\
          256 pipe - free\n\
          processes\n\
          p1 - live\n\
          p2 - live\n\
          log\n\
          end 12 0\n",
    ),
    (
        "step 6 is refused where the server has risen above the rule's label, and the child ends",
        b"ix 1\n\
          proc srv 3 * P P\n\
          policy {\"rules\":[{\"act\":\"session\",\"user\":\"*\",\"clear\":\"3\",\"privs\":\"-\",\"allow\":true},{\"act\":\"session\",\"user\":\"*\",\"clear\":\"*\",\"privs\":\"-\",\"allow\":true}]}\n\
          phase\n\
          lane m\n\
          pipe srv as s c\n\
          fork srv c as t\n\
          setself srv 3,7\n\
          pex srv s\n\
          pex t c\n\
          write t c \"login ann\"\n\
          login srv s c as ann\n\
          self ann\n",
        b"ix 1 report\n\
          1 m 6 pipe p1 = two 0 1 @ 3\n\
          2 m 7 fork p1 1 = number 2 @ 3\n\
          3 m 8 setself p1 3,7 = done @ 3,7\n\
          4 m 9 pex p1 0 = half @ 3,7\n\
          5 m 10 pex p2 1 = whole p1 3,7 P @ 3\n\
          6 m 11 write p2 1 x6c6f67696e20616e6e = number 9 @ 3\n\
          7 m 12 pex p1 0 = whole p2 3 P @ 3,7\n\
          8 m 12 read p1 0 64 = bytes 9 x6c6f67696e20616e6e @ 3,7\n\
          9 m 12 fork p1 1 = number 3 @ 3,7\n\
          10 m 12 droplic p3 DPCTL = done @ 3,7\n\
          11 m 12 ceiling p1 p3 3 = no 19 BelowLabel @ 3,7\n\
          12 m 12 exit p3 255 = done @ 3,7\n\
          13 m 12 write p1 0 x72656675736564203139 = number 10 @ 3,7\n\
          14 m 12 unpex p1 0 = done @ 3,7\n\
          15 m 13 self p0 = no 1 NoProcess @ none\n\
          objects\n\
          0 dir - free\n\
          256 pipe 3,7 free\n\
          processes\n\
          p1 3,7 live\n\
          p2 3 live\n\
          p3 3,7 ended\n\
          log\n\
          end 15 0\n",
    ),
    (
        "a grant is refused without the licence: step 4 of the one, step 7 of the other",
        b"ix 1\n\
          proc srv - * P -\n\
          policy {\"rules\":[{\"act\":\"grant\",\"user\":\"*\",\"clear\":\"-\",\"privs\":\"D\",\"allow\":true},{\"act\":\"session\",\"user\":\"*\",\"clear\":\"-\",\"privs\":\"D\",\"allow\":true}]}\n\
          phase\n\
          lane m\n\
          pipe srv as s c\n\
          fork srv c as t\n\
          pex srv s\n\
          pex t c\n\
          write t c \"want D\"\n\
          priv srv s\n\
          read t c 64\n\
          pex t c\n\
          pex srv s\n\
          write t c \"login ann\"\n\
          login srv s c as ann\n\
          read t c 64\n\
          self ann\n",
        b"ix 1 report\n\
          1 m 6 pipe p1 = two 0 1 @ -\n\
          2 m 7 fork p1 1 = number 2 @ -\n\
          3 m 8 pex p1 0 = half @ -\n\
          4 m 9 pex p2 1 = whole p1 - - @ -\n\
          5 m 10 write p2 1 x77616e742044 = number 6 @ -\n\
          6 m 11 pex p1 0 = whole p2 - - @ -\n\
          7 m 11 read p1 0 64 = bytes 6 x77616e742044 @ -\n\
          8 m 11 grant p1 p2 D = no 17 NoLicence @ -\n\
          9 m 11 write p1 0 x72656675736564203137 = number 10 @ -\n\
          10 m 11 unpex p1 0 = done @ -\n\
          11 m 12 read p2 1 64 = bytes 10 x72656675736564203137 @ -\n\
          12 m 13 pex p2 1 = half @ -\n\
          13 m 14 pex p1 0 = whole p2 - - @ -\n\
          14 m 15 write p2 1 x6c6f67696e20616e6e = number 9 @ -\n\
          15 m 16 pex p1 0 = whole p2 - - @ -\n\
          16 m 16 read p1 0 64 = bytes 9 x6c6f67696e20616e6e @ -\n\
          17 m 16 fork p1 1 = number 3 @ -\n\
          18 m 16 droplic p3 DPCTL = done @ -\n\
          19 m 16 ceiling p1 p3 - = done @ -\n\
          20 m 16 grant p1 p3 D = no 17 NoLicence @ -\n\
          21 m 16 exit p3 255 = done @ -\n\
          22 m 16 write p1 0 x72656675736564203137 = number 10 @ -\n\
          23 m 16 unpex p1 0 = done @ -\n\
          24 m 17 read p2 1 64 = bytes 10 x72656675736564203137 @ -\n\
          25 m 18 self p0 = no 1 NoProcess @ none\n\
          objects\n\
          0 dir - free\n\
          256 pipe - free\n\
          processes\n\
          p1 - live\n\
          p2 - live\n\
          p3 - ended\n\
          log\n\
          end 25 0\n",
    ),
    (
        "step 2 is refused while the server's label is frozen",
        b"ix 1\n\
          proc srv - * P P\n\
          policy {\"rules\":[{\"act\":\"grant\",\"user\":\"*\",\"clear\":\"*\",\"privs\":\"D\",\"allow\":true}]}\n\
          phase\n\
          lane m\n\
          pipe srv as s c\n\
          fork srv c as t\n\
          pex srv s\n\
          pex t c\n\
          setself t 3\n\
          write t c \"want D\"\n\
          freezeself srv\n\
          priv srv s\n\
          thawself srv\n\
          priv srv s\n\
          read t c 64\n",
        b"ix 1 report\n\
          1 m 6 pipe p1 = two 0 1 @ -\n\
          2 m 7 fork p1 1 = number 2 @ -\n\
          3 m 8 pex p1 0 = half @ -\n\
          4 m 9 pex p2 1 = whole p1 - P @ -\n\
          5 m 10 setself p2 3 = done @ 3\n\
          6 m 11 write p2 1 x77616e742044 = number 6 @ 3\n\
          7 m 12 freezeself p1 = done @ -\n\
          8 m 13 pex p1 0 = whole p2 3 P @ -\n\
          9 m 13 read p1 0 64 = no 11 ProcFrozen @ -\n\
          10 m 14 thawself p1 = no 16 NoCapability @ -\n\
          11 m 15 pex p1 0 = whole p2 3 P @ -\n\
          12 m 15 read p1 0 64 = no 11 ProcFrozen @ -\n\
          13 m 16 read p2 1 64 = no 35 Again @ 3\n\
          objects\n\
          0 dir - free\n\
          256 pipe 3 free\n\
          processes\n\
          p1 - live\n\
          p2 3 live\n\
          log\n\
          end 13 0\n",
    ),
];

/// Both servers serve while their own pipe is full: the write of the answer is refused, and the client isn't told.
const FULL_PIPE: &[u8] = b"ix 1\n\
    proc srv - * P P\n\
    policy {\"rules\":[{\"act\":\"grant\",\"user\":\"*\",\"clear\":\"-\",\"privs\":\"D\",\"allow\":true},{\"act\":\"session\",\"user\":\"*\",\"clear\":\"-\",\"privs\":\"-\",\"allow\":true}]}\n\
    phase\n\
    lane m\n\
    pipe srv as s c\n\
    fork srv c as t\n\
    pex srv s\n\
    pex t c\n\
    write t c \"want D\"\n\
    write srv s 4096*2e\n\
    priv srv s\n\
    read t c 4\n\
    pex srv s\n\
    write t c \"login ann\"\n\
    write srv s 4096*2e\n\
    login srv s c as ann\n\
    self ann\n";

/// Its report, between the bytes that fill the pipe.
const OF_FULL_PIPE: [&[u8]; 3] = [
    b"ix 1 report\n\
      1 m 6 pipe p1 = two 0 1 @ -\n\
      2 m 7 fork p1 1 = number 2 @ -\n\
      3 m 8 pex p1 0 = half @ -\n\
      4 m 9 pex p2 1 = whole p1 - P @ -\n\
      5 m 10 write p2 1 x77616e742044 = number 6 @ -\n\
      6 m 11 write p1 0 x",
    b" = number 4096 @ -\n\
      7 m 12 pex p1 0 = whole p2 - P @ -\n\
      8 m 12 read p1 0 64 = bytes 6 x77616e742044 @ -\n\
      9 m 12 grant p1 p2 D = done @ -\n\
      10 m 12 write p1 0 x6772616e7465642031 = no 30 PipeFull @ -\n\
      11 m 12 unpex p1 0 = done @ -\n\
      12 m 13 read p2 1 4 = bytes 4 x2e2e2e2e @ -\n\
      13 m 14 pex p1 0 = whole p2 - DP @ -\n\
      14 m 15 write p2 1 x6c6f67696e20616e6e = number 9 @ -\n\
      15 m 16 write p1 0 x",
    b" = number 4096 @ -\n\
      16 m 17 pex p1 0 = whole p2 - DP @ -\n\
      17 m 17 read p1 0 64 = bytes 9 x6c6f67696e20616e6e @ -\n\
      18 m 17 fork p1 1 = number 3 @ -\n\
      19 m 17 droplic p3 DPCTL = done @ -\n\
      20 m 17 ceiling p1 p3 - = done @ -\n\
      21 m 17 write p1 0 x6772616e7465642032 = no 30 PipeFull @ -\n\
      22 m 17 unpex p1 0 = done @ -\n\
      23 m 18 self p3 = label - @ -\n\
      objects\n\
      0 dir - free\n\
      256 pipe - free\n\
      processes\n\
      p1 - live\n\
      p2 - live\n\
      p3 - live\n\
      log\n\
      9 p1 grant 2 - - - D\n\
      end 23 1\n",
];

/// That report, whole.
fn report_of_full_pipe(alloc: Global) -> Option<Vec<u8>> {
    let mut text = Vec::new(alloc);
    for (part, piece) in OF_FULL_PIPE.iter().enumerate() {
        if part > 0 {
            for _ in 0..4096 {
                text.extend_from_slice(b"2e").ok()?;
            }
        }
        text.extend_from_slice(piece).ok()?;
    }
    Some(text)
}

/// Whether that script has that report.
fn full_pipe_has_its_report(alloc: Global) -> bool {
    let wide = Faults {
        source: &[],
        sink: &[],
        room: 32_768,
    };
    let Some(report) = report_of_full_pipe(alloc) else {
        return false;
    };
    let text = report.as_slice();
    comes_to(alloc, &["run"], FULL_PIPE, wide, Status::Done, text)
}

#[test]
fn a_full_pipe_refuses_the_answers_of_servers(rt: HostRuntime) {
    assert!(rt; full_pipe_has_its_report(rt.alloc()));
}

#[test]
fn refused_steps_of_servers(rt: HostRuntime) {
    walk(&rt, rt.alloc(), SESSIONS);
}
