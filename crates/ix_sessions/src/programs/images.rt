use super::{NO_FAULTS, comes_to, command};
use ix_host::{Status, run_serial};
use ix_io::{MemSink, MemSource};
use std::alloc::Global;
use std::process::Abort;

/// What is shown, a script, and the list of the tree that its run leaves.
type Story = (&'static str, &'static [u8], &'static [u8]);

const STORIES: &[Story] = &[
    (
        "a file of the config",
        b"ix 1\nfs root 3 4 2\nfile /a 3 free - - \"hi\"\n",
        b"fs root 3 4 2\n0 dir - free - - 0\nname 0 a 1\n1 file 3 free - - 2\nend 2 1\n",
    ),
    (
        "a file that was written, and a file and a directory that were made",
        b"ix 1\nfs root 3 4 4\nproc a - - - -\nfile /f - free - - x\nphase\nlane m\n\
          open a /f w as f\nwrite a f \"abc\"\ncreate a /g\nmkdir a /d\n",
        b"fs root 3 4 4\n0 dir - free - - 0\nname 0 f 1\nname 0 g 2\nname 0 d 3\n1 file - free - - 3\n2 file - free - - 0\n3 dir - free - - 0\nend 4 3\n",
    ),
    (
        "a file that lost its name isn't there",
        b"ix 1\nfs root 3 4 4\nproc a - - - -\nfile /f - free - - \"abc\"\nphase\nlane m\n\
          open a /f r as f\nunlink a /f\n",
        b"fs root 3 4 4\n0 dir - free - - 0\nend 1 0\n",
    ),
];

/// The image that `save` writes of the tree that a script's run leaves.
fn saved(alloc: Global, script: &[u8]) -> Option<Vec<u8>> {
    let words = command(alloc, &["save"])?;
    let mut source = MemSource::new(alloc, script, &[]).ok()?;
    let mut sink = MemSink::new(alloc, 4096, &[]).ok()?;
    if run_serial(alloc, &words, &mut source, &mut sink) != Status::Done {
        return None;
    }
    Vec::from_slice(alloc, sink.as_slice()).ok()
}

/// What is saved is listed.
fn walk<R: Abort>(rt: &R, alloc: Global) {
    for (shown, script, list) in STORIES {
        match saved(alloc, script) {
            Some(image) => {
                let image = image.as_slice();
                assert!(rt;
                    comes_to(alloc, &["load"], image, NO_FAULTS, Status::Done, list),
                    "{shown}"
                );
            }
            None => assert!(rt; false, "{shown}"),
        }
    }
}

#[test]
fn what_is_saved_is_listed(rt: HostRuntime) {
    walk(&rt, rt.alloc());
}

/// A byte of the first image, another value for it, and the place, the rule and the text of the fault that it makes.
type Change = (usize, u8, u64, u8, &'static [u8]);

const CHANGES: &[Change] = &[
    (
        0,
        b'?',
        0,
        2,
        b"image:0: the first bytes are not IXIMAGE1\n",
    ),
    (
        3,
        b'?',
        3,
        2,
        b"image:3: the first bytes are not IXIMAGE1\n",
    ),
    (
        7,
        b'2',
        7,
        2,
        b"image:7: the first bytes are not IXIMAGE1\n",
    ),
    (11, 0, 8, 3, b"image:8: a number is out of range\n"),
    (11, 17, 8, 3, b"image:8: a number is out of range\n"),
    (84, 0, 81, 3, b"image:81: a number is out of range\n"),
    (86, 1, 85, 3, b"image:85: a number is out of range\n"),
    (92, 3, 89, 3, b"image:89: a number is out of range\n"),
    (97, 2, 97, 3, b"image:97: a number is out of range\n"),
    (98, 2, 98, 3, b"image:98: a number is out of range\n"),
    (99, 32, 99, 3, b"image:99: a number is out of range\n"),
    (182, 32, 182, 3, b"image:182: a number is out of range\n"),
    (166, 255, 165, 3, b"image:165: a number is out of range\n"),
    (248, 17, 247, 3, b"image:247: a number is out of range\n"),
    (12, 0, 12, 4, b"image:12: a name is not well formed\n"),
    (13, b'9', 12, 4, b"image:12: a name is not well formed\n"),
    (169, 0, 169, 4, b"image:169: a name is not well formed\n"),
    (170, b'/', 169, 4, b"image:169: a name is not well formed\n"),
    (96, 2, 93, 5, b"image:93: an object is out of order\n"),
    (178, 0, 175, 5, b"image:175: an object is out of order\n"),
    (178, 2, 175, 5, b"image:175: an object is out of order\n"),
    (
        101,
        16,
        101,
        6,
        b"image:101: a label is not below its ceiling\n",
    ),
    (
        183,
        16,
        183,
        6,
        b"image:183: a label is not below its ceiling\n",
    ),
    (
        246,
        1,
        183,
        6,
        b"image:183: a label is not below its ceiling\n",
    ),
    (174, 0, 253, 8, b"image:253: the names do not fit\n"),
    (174, 7, 253, 8, b"image:253: the names do not fit\n"),
];

/// Whether `load` tells this fault of bytes.
fn is_faulty(alloc: Global, bytes: &[u8], at: u64, rule: u8, text: &[u8]) -> bool {
    comes_to(
        alloc,
        &["load"],
        bytes,
        NO_FAULTS,
        Status::Image { at, rule },
        text,
    )
}

/// The image of the first story.
fn first_image(alloc: Global) -> Option<Vec<u8>> {
    let (_, script, _) = STORIES.first()?;
    saved(alloc, script)
}

/// Each rule is broken at one byte.
fn change_all<R: Abort>(rt: &R, alloc: Global, image: &mut Vec<u8>) {
    for (place, value, at, rule, text) in CHANGES {
        let old = image.get(*place).copied().unwrap_or(0);
        if let Some(byte) = image.get_mut(*place) {
            *byte = *value;
        }
        assert!(rt;
            is_faulty(alloc, image.as_slice(), *at, *rule, text),
            "{place}"
        );
        if let Some(byte) = image.get_mut(*place) {
            *byte = old;
        }
    }
}

/// What is cut is told at its length, and a byte more is left over.
fn cut_all<R: Abort>(rt: &R, alloc: Global, image: &mut Vec<u8>) {
    for (len, text) in [
        (0, b"image:0: a byte is missing\n".as_slice()),
        (7, b"image:7: a byte is missing\n"),
        (100, b"image:100: a byte is missing\n"),
        (252, b"image:252: a byte is missing\n"),
    ] {
        let front = image.get(..len).unwrap_or(b"");
        assert!(rt; is_faulty(alloc, front, len as u64, 1, text), "{len}");
    }
    if image.push(0).is_ok() {
        let text = b"image:253: a byte is left over\n";
        assert!(rt; is_faulty(alloc, image.as_slice(), 253, 7, text));
    }
}

#[test]
fn each_fault_of_an_image_is_told_at_its_place(rt: HostRuntime) {
    match first_image(rt.alloc()) {
        Some(mut image) => {
            change_all(&rt, rt.alloc(), &mut image);
            cut_all(&rt, rt.alloc(), &mut image);
        }
        None => assert!(rt; false),
    }
}

#[test]
fn a_fault_of_a_script_is_told_by_save(rt: HostRuntime) {
    for (script, line, rule, text) in [
        (
            b"ix 1\nfoo\n".as_slice(),
            2,
            7,
            b"script:2: the command is unknown\n".as_slice(),
        ),
        (b"", 1, 6, b"script:1: the first line is not ix 1 or ix 2\n"),
    ] {
        let status = Status::Script { line, rule };
        assert!(rt; comes_to(rt.alloc(), &["save"], script, NO_FAULTS, status, text));
    }
}
