use super::{NO_FAULTS, comes_to};
use ix_host::Status;
use std::alloc::Global;
use std::process::Abort;

/// The words of the commands that read a script.
const READING: [&[&str]; 2] = [&["run"], &["print"]];

/// What is said to a script whose policy, on its third line, is refused.
const REFUSED: &[u8] = b"script:3: the policy is refused\n";

#[test]
fn a_policy_that_is_read_is_run_and_printed(rt: HostRuntime) {
    let alloc = rt.alloc();
    let script = b"ix 1\n\
          policy  { \"rules\" : [] } \n\
          proc a - * - -\n\
          phase\n\
          lane m\n\
          self a\n";
    let report = b"ix 1 report\n\
          1 m 6 self p1 = label - @ -\n\
          objects\n\
          0 dir - free\n\
          processes\n\
          p1 - live\n\
          log\n\
          end 1 0\n";
    assert!(rt; comes_to(alloc, &["run"], script, NO_FAULTS, Status::Done, report));
    assert!(rt; comes_to(alloc, &["print"], script, NO_FAULTS, Status::Done, script));
}

/// Whether each command that reads a script refuses it so.
fn is_refused(alloc: Global, script: &[u8], line: u32, rule: u8, text: &[u8]) -> bool {
    let status = Status::Script { line, rule };
    for words in READING {
        if !comes_to(alloc, words, script, NO_FAULTS, status, text) {
            return false;
        }
    }
    true
}

#[test]
fn a_policy_with_a_fault_is_refused(rt: HostRuntime) {
    for script in [
        b"ix 1\nproc a - * - -\npolicy x\n".as_slice(),
        b"ix 1\n\npolicy {\"rules\":[3]}\n",
        b"ix 1\n# of one key\npolicy {\"rules\":[],\"x\":1}\nphase\n",
        // A label that form Two alone spells.
        b"ix 1\nproc a - * - -\npolicy {\"rules\":[{\"act\":\"grant\",\"user\":\"*\",\"clear\":\"300\",\"privs\":\"D\",\"allow\":true}]}\n",
        // A server's command doesn't stand before it.
        b"ix 1\nproc a - * - -\npolicy x\nphase\nlane m\npriv a 0\n",
    ] {
        assert!(rt; is_refused(rt.alloc(), script, 3, 27, REFUSED));
    }
}

#[test]
fn a_fault_of_any_line_stands_before_that_of_the_policy(rt: HostRuntime) {
    let script = b"ix 1\npolicy x\nix 1\n";
    let text = b"script:3: the command is unknown\n";
    assert!(rt; is_refused(rt.alloc(), script, 3, 7, text));
}

/// A server's command under a policy that is read, with a label that form Two alone spells.
const SERVED: &[u8] = b"ix 2\n\
    policy {\"rules\":[{\"act\":\"grant\",\"user\":\"*\",\"clear\":\"300\",\"privs\":\"D\",\"allow\":true}]}\n\
    proc a - * - -\n\
    phase\n\
    lane m\n\
    self a\n\
    priv a 0\n\
    login a 0 1\n";

/// Its report: nobody is at the other end, since 0 is no descriptor.
const SERVED_REPORT: &[u8] = b"ix 2 report\n\
    1 m 6 self p1 = label - @ -\n\
    2 m 7 pex p1 0 = no 2 BadFd @ -\n\
    3 m 8 pex p1 0 = no 2 BadFd @ -\n\
    objects\n\
    0 dir - free\n\
    processes\n\
    p1 - live\n\
    log\n\
    end 3 0\n";

#[test]
fn a_servers_command_is_run_and_printed(rt: HostRuntime) {
    let alloc = rt.alloc();
    assert!(rt;
        comes_to(
            alloc,
            &["run"],
            SERVED,
            NO_FAULTS,
            Status::Done,
            SERVED_REPORT
        )
    );
    assert!(rt; comes_to(alloc, &["print"], SERVED, NO_FAULTS, Status::Done, SERVED));
}
