use bitflags::Flags;
use ix_model::PrivSet;
use ix_script::{KeepWord, Line, Script, need, read};
use std::alloc::Global;
use std::process::Abort;

const SESSION: &[u8] =
    b"ix 1\n# two lanes\nlimit procs 3\nfs root * 64 16\nfs far 3 8 8\nproc srv - * P DPCTL\ndir /mail - frozen\nfile /far/x 3 free D - \"a\\x41\\n\"\npolicy  {}\nphase\nlane one\nopen srv /mail/x rw as f\nfork srv none as q\nexit q 255\nlane two\npipe srv as f g\nlogin srv f g as q\nphase\nlane one\nread srv f 9\nlink q a/b /c\n";

/// Whether the lines, the lanes and the policy are found where they stand.
fn has_places(script: &Script<'_>) -> bool {
    script.len() == 21
        && matches!(script.lane(0), Some(name) if name == b"one".as_slice())
        && matches!(script.lane(1), Some(name) if name == b"two".as_slice())
        && script.lane(2).is_none()
        && matches!(script.policy(), Some((9, text)) if text == b" {}".as_slice())
        && script.line(0).is_none()
        && script.line(22).is_none()
}

/// Whether lines are made anew from their words.
fn has_lines(script: &Script<'_>) -> bool {
    matches!(script.line(2), Some(Line::Skipped))
        && matches!(script.line(10), Some(Line::Phase))
        && matches!(script.line(14), Some(Line::Exit { status: 255, .. }))
        && matches!(
            script.line(13),
            Some(Line::Fork {
                keep: KeepWord::Nothing,
                named: Some(_),
                ..
            })
        )
}

/// Whether the file has its bytes and its capabilities.
fn has_file(script: &Script<'_>) -> bool {
    match script.line(8) {
        Some(Line::File { bytes, cap, .. }) if bytes.len() == 3 => {
            let mut buf = [0; 3];
            bytes.decode(&mut buf);
            buf == *b"aA\n" && cap == PrivSet::DOWN
        }
        _ => false,
    }
}

/// Whether the config is the one that the header describes, with the journal that the commands need.
fn has_config(alloc: Global, script: &Script<'_>) -> bool {
    match script.config(alloc) {
        Ok(config) => {
            config.fss.len() == 2
                && config.limits.procs == 3
                && config.limits.names == 4096
                && config.procs.len() == 1
                && config.objects.len() == 2
                && config.journal == 1_949
                && config.valid()
        }
        Err(_) => false,
    }
}

/// Whether the session is read so.
fn is_read(alloc: Global) -> bool {
    match read(alloc, SESSION) {
        Ok(script) => {
            has_places(&script)
                && has_lines(&script)
                && has_file(&script)
                && has_config(alloc, &script)
                && need(&script) == 1_949
        }
        Err(_) => false,
    }
}

#[test]
fn a_session_is_read(rt: HostRuntime) {
    assert!(rt; is_read(rt.alloc()));
}
