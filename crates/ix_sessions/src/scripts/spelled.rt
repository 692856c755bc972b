use ix_script::{read, write};
use std::alloc::{AllocError, Global};
use std::process::Abort;

/// Whether this is the canonical text of a script.
fn is_spelled(alloc: Global, script: &[u8], text: &[u8]) -> bool {
    let Ok(script) = read(alloc, script) else {
        return false;
    };
    match write(alloc, &script) {
        Ok(written) => written.as_slice() == text,
        Err(_) => false,
    }
}

/// A script with every form of line, in its canonical text.
const EVERY_FORM: &str = "ix 1

limit procs 9
limit opens 4096
limit pipes 0
limit names 16
limit log 65536
fs root * 64 16
fs far 3,7-9 8 8
proc a - * - -
proc srv_1 3 3-4 DPCTL PL
dir /far/x 3,7 frozen
dir /y - free
file /y/z 255 free D - x
file /y/A~ 0-254 frozen DC TL \"q \\\"\\\\ q\"
policy  {\"rules\": []} 
phase
lane one
create a /n
open a n r as f
open a /n w
open a .n rw as a
read a f 4294967295
write a 3 x00ff
cut a f 0
seek a 255 9
dup a f as g
dup a 0
close a g
pipe a
pipe a as r w
mkdir a y/w
link a /y/z /z
unlink a /z
rmdir a /y/w
chdir a /
stat a y
list a /y 1
lane two

fork a all
fork a none as q
fork q 0 as q
fork q 0
exec q /bin/sh
exit q 255
wait a
labelof a /y
self srv_1
setlabel a /y *
setself a 3
freeze a /y
freezeself a
thaw a /y
thawself a
setpriv a /y - DPCTL
droplic a P
grant a q -
ceiling a srv_1 0,2-255
phase
lane one
fork a f
fork a g as q
pex a f
unpex a 0
readlog a 7
copy a r 0 512
priv srv_1 w
login a f 1
login a f g as u
self u
";

/// A script of form Two with each line that has a label, in its canonical text.
const WIDE_LABELS: &str = "ix 2
fs root * 64 16
fs far 0-255 8 8
proc a 256 1-511 - -
dir /d 511 free
file /d/x 0-255,300 free - - x
phase
lane m
setlabel a /d/x 255-256
setself a 0-510
ceiling a a 0,2-511
";

#[test]
fn every_form_is_written_as_it_was_read(rt: HostRuntime) {
    for script in [EVERY_FORM, WIDE_LABELS] {
        let text = script.as_bytes();
        assert!(rt; is_spelled(rt.alloc(), text, text));
    }
}

#[test]
fn skipped_lines_are_written_empty(rt: HostRuntime) {
    let script = b"ix 1\n# a \"  line\n\n#\npolicy  x\nphase";
    assert!(rt; is_spelled(rt.alloc(), script, b"ix 1\n\n\n\npolicy  x\nphase\n"));
}

/// Payloads and their shortest spellings; of equally short ones `x` comes first, then the number of times, then the quotes.
const PAYLOADS: &[(&str, &str)] = &[
    ("x", "x"),
    ("\"\"", "x"),
    ("0*41", "x"),
    ("x41", "x41"),
    ("1*41", "x41"),
    ("\"A\"", "x41"),
    ("\"\\\"\"", "x22"),
    ("\"\\x0a\"", "x0a"),
    ("x4141", "2*41"),
    ("\"AA\"", "2*41"),
    ("x4142", "\"AB\""),
    ("\"a\\x41\\n\"", "\"aA\\n\""),
    ("x610A", "x610a"),
    ("\"a\\n\"", "x610a"),
    ("\"abc\\n\"", "\"abc\\n\""),
    ("x6162630a", "\"abc\\n\""),
    ("x00000000", "4*00"),
    ("4*fF", "4*ff"),
    ("\"aaaaaaaaaa\"", "10*61"),
    ("\"ab\\xC3\\xa9\"", "x6162c3a9"),
    ("\"a \\\"b\\\" \\\\\"", "\"a \\\"b\\\" \\\\\""),
    ("x7f20", "x7f20"),
    ("\"rel\"", "\"rel\""),
    ("\"\\\"\\\\\\x00ab\"", "x225c006162"),
];

/// A script of a file with this payload.
fn file(alloc: Global, payload: &str) -> Result<Vec<u8>, AllocError> {
    let mut script = Vec::from_slice(alloc, b"ix 1\nfile /x - free - - ")?;
    match script.extend_from_slice(payload.as_bytes()) {
        Ok(()) => Ok(script),
        Err(fail) => Err(fail),
    }
}

/// Whether a payload is spelled so.
fn is_payload(alloc: Global, payload: &str, spelling: &str) -> bool {
    let Ok(script) = file(alloc, payload) else {
        return false;
    };
    match file(alloc, spelling) {
        Ok(mut text) => {
            text.push(b'\n').is_ok() && is_spelled(alloc, script.as_slice(), text.as_slice())
        }
        Err(_) => false,
    }
}

#[test]
fn payloads_are_written_short(rt: HostRuntime) {
    for (payload, spelling) in PAYLOADS {
        assert!(rt; is_payload(rt.alloc(), payload, spelling), "{payload}");
    }
}
