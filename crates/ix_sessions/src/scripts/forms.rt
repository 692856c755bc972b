use super::{Case, walk};

/// Rule 11, with a rule of 7 to 10 broken behind it.
const NAMES: &[Case] = &[
    ("ix 1\nproc A - - - -\nphase x", 2, 11),
    ("ix 1\nproc a- - - - -\nphase x", 2, 11),
    ("ix 1\nproc _a - - - -\nphase x", 2, 11),
    ("ix 1\nfs abcdefghijklmnopq * 1 1\nphase x", 2, 11),
    ("ix 1\n\nproc none - - - -\nphase x", 3, 11),
    ("ix 1\nphase\nlane all\nphase x", 3, 11),
    ("ix 1\nphase\nlane as\nself", 3, 11),
    ("ix 1\nphase\nlane m\nself 1\nphase x", 4, 11),
    ("ix 1\nphase\nlane m\nread a F 1\nphase x", 4, 11),
    ("ix 1\nphase\nlane m\nread a all 1\nphase x", 4, 11),
    ("ix 1\nphase\nlane m\nfork a All\nphase x", 4, 11),
    ("ix 1\nphase\nlane m\nopen a /x r as 1\nphase x", 4, 11),
    ("ix 1\nphase\nlane m\npipe a as f all\nphase x", 4, 11),
    ("ix 1\nphase\nlane m\nfork a all as Q\nphase x", 4, 11),
];

/// Rule 12, with rule 11 broken behind it.
const NUMBERS: &[Case] = &[
    ("ix 1\nlimit procs 01\nproc A - - - -", 2, 12),
    ("ix 1\nlimit log +1\nproc A - - - -", 2, 12),
    ("ix 1\n\nfs root * 1 x\nproc A - - - -", 3, 12),
    ("ix 1\nfs root * 00 1\nproc A - - - -", 2, 12),
    ("ix 1\nphase\nlane m\nread a 0 1k\nlane A", 4, 12),
    ("ix 1\nphase\nlane m\nread a 00 1\nlane A", 4, 12),
    ("ix 1\nphase\nlane m\nfork a 0f\nlane A", 4, 12),
];

/// Rule 13, with rule 12 broken behind it.
const RANGES: &[Case] = &[
    ("ix 1\nlimit procs 0\nlimit log 01", 2, 13),
    ("ix 1\nlimit procs 1025\nlimit log 01", 2, 13),
    ("ix 1\nlimit opens 0\nlimit log 01", 2, 13),
    ("ix 1\nlimit opens 4097\nlimit log 01", 2, 13),
    ("ix 1\nlimit pipes 1025\nlimit log 01", 2, 13),
    ("ix 1\nlimit names 15\nlimit log 01", 2, 13),
    ("ix 1\nlimit names 65537\nlimit log 01", 2, 13),
    ("ix 1\nlimit log 65537\nlimit procs 01", 2, 13),
    ("ix 1\n\nlimit nothing 4294967296\nlimit log 01", 3, 13),
    ("ix 1\nfs root * 0 1\nlimit log 01", 2, 13),
    ("ix 1\nfs root * 1 65537\nlimit log 01", 2, 13),
    ("ix 1\nphase\nlane m\nread a 256 1\nread a 01 1", 4, 13),
    (
        "ix 1\nphase\nlane m\nread a 0 4294967296\nread a 01 1",
        4,
        13,
    ),
    ("ix 1\nphase\nlane m\nexit a 256\nread a 01 1", 4, 13),
    ("ix 1\nphase\nlane m\nfork a 256\nread a 01 1", 4, 13),
];

/// Rule 14, with rule 13 broken behind it.
const LABELS: &[Case] = &[
    ("ix 1\nproc a 9,7 * - -\nlimit procs 0", 2, 14),
    ("ix 1\nfs root 07 1 1\nlimit procs 0", 2, 14),
    ("ix 1\n\nproc a - 3,4 - -\nlimit procs 0", 3, 14),
    ("ix 1\ndir /a 256 free\nlimit procs 0", 2, 14),
    ("ix 1\nfile /a x free - - x\nlimit procs 0", 2, 14),
    ("ix 1\nphase\nlane m\nsetself a 7-\nexit a 256", 4, 14),
];

/// Rule 14, with rule 13 broken behind it: labels that have no text in the form of line 1.
const LABELS_BY_FORM: &[Case] = &[
    ("ix 1\nfs root 0-255 1 1\nlimit procs 0", 2, 14),
    ("ix 1\nproc a - 3,256 - -\nlimit procs 0", 2, 14),
    ("ix 1\nfile /a 255-256 free - - x\nlimit procs 0", 2, 14),
    ("ix 1\nphase\nlane m\nsetself a 256\nexit a 256", 4, 14),
    ("ix 2\nfs root 0-511 1 1\nlimit procs 0", 2, 14),
    ("ix 2\nproc a 512 * - -\nlimit procs 0", 2, 14),
    ("ix 2\n\nproc a - 300,512 - -\nlimit procs 0", 3, 14),
    ("ix 2\ndir /a 255,256 free\nlimit procs 0", 2, 14),
    ("ix 2\nfile /a 300-512 free - - x\nlimit procs 0", 2, 14),
    ("ix 2\nphase\nlane m\nsetlabel a /x 512\nexit a 256", 4, 14),
    ("ix 2\nphase\nlane m\nsetself a 0-511\nexit a 256", 4, 14),
    ("ix 2\nphase\nlane m\nceiling a a 0512\nexit a 256", 4, 14),
];

/// Rule 15, with rule 14 broken behind it.
const SETS: &[Case] = &[
    ("ix 1\nproc a - - PD -\nproc b 9,7 - - -", 2, 15),
    ("ix 1\n\nproc a - - D DD\nproc b 9,7 - - -", 3, 15),
    ("ix 1\nproc a - - d -\nproc b 9,7 - - -", 2, 15),
    ("ix 1\nfile /a - free D- - x\nproc b 9,7 - - -", 2, 15),
    ("ix 1\nphase\nlane m\ndroplic a TC\nsetself a 7-", 4, 15),
];

/// Rule 16, with rule 14 or 15 broken behind it.
const PATHS: &[Case] = &[
    ("ix 1\ndir x - free\nproc a - - x -", 2, 16),
    ("ix 1\n\ndir / - free\nproc a - - x -", 3, 16),
    ("ix 1\ndir /a/ - free\nproc a - - x -", 2, 16),
    ("ix 1\ndir /a//b - free\nproc a - - x -", 2, 16),
    ("ix 1\ndir /a/.. - free\nproc a - - x -", 2, 16),
    ("ix 1\nfile /a\"b - free - - x\nproc a - - x -", 2, 16),
    ("ix 1\nfile /a\\b - free - - x\nproc a - - x -", 2, 16),
    (
        "ix 1\ndir /a/a/a/a/a/a/a/a/a/a/a/a/a/a/a/a/a - free\nproc b 9,7 - - -",
        2,
        16,
    ),
    (
        "ix 1\ndir /abcdefghijklmnopqrstuvwxyz012 - free\nproc b 9,7 - - -",
        2,
        16,
    ),
    ("ix 1\nphase\nlane m\nstat a x/\nsetself a 7-", 4, 16),
    ("ix 1\nphase\nlane m\nlink a / .\nsetself a 7-", 4, 16),
];

/// Rule 17, with rule 16 broken behind it.
const SPELLINGS: &[Case] = &[
    ("ix 1\nlimit nothing 1\ndir x - free", 2, 17),
    ("ix 1\nlimit Log 1\ndir x - free", 2, 17),
    ("ix 1\n\ndir /x - cold\ndir x - free", 3, 17),
    ("ix 1\nfile /x - frozen. - - x\ndir x - free", 2, 17),
    ("ix 1\nphase\nlane m\nopen a /x wr\nstat a x/", 4, 17),
];

/// Rule 18, with rule 17 broken behind it.
const PAYLOADS: &[Case] = &[
    ("ix 1\nfile /x - free - - y\ndir /y - cold", 2, 18),
    ("ix 1\nfile /x - free - - X\ndir /y - cold", 2, 18),
    ("ix 1\nfile /x - free - - x4\ndir /y - cold", 2, 18),
    ("ix 1\nfile /x - free - - x4g\ndir /y - cold", 2, 18),
    ("ix 1\nfile /x - free - - 07*41\ndir /y - cold", 2, 18),
    ("ix 1\nfile /x - free - - 00*41\ndir /y - cold", 2, 18),
    ("ix 1\nfile /x - free - - *41\ndir /y - cold", 2, 18),
    ("ix 1\nfile /x - free - - 3*4\ndir /y - cold", 2, 18),
    ("ix 1\nfile /x - free - - 3*414\ndir /y - cold", 2, 18),
    ("ix 1\n\nfile /x - free - - \"a\\q\"\ndir /y - cold", 3, 18),
    ("ix 1\nfile /x - free - - \"\\x4\"\ndir /y - cold", 2, 18),
    ("ix 1\nfile /x - free - - \"\\N\"\ndir /y - cold", 2, 18),
    (
        "ix 1\nfile /x - free - - 99999999999999999999*4g\ndir /y - cold",
        2,
        18,
    ),
    ("ix 1\nphase\nlane m\nwrite a 0 x4\nopen a /x q", 4, 18),
];

/// Rule 19, with rule 18 broken behind it.
const LENGTHS: &[Case] = &[
    (
        "ix 1\nfile /x - free - - 1048577*00\nfile /y - free - - y",
        2,
        19,
    ),
    (
        "ix 1\n\nfile /x - free - - 99999999999999999999*41\nfile /y - free - - y",
        3,
        19,
    ),
    ("ix 1\nphase\nlane m\nwrite a 0 4097*41\nwrite a 0 y", 4, 19),
];

#[test]
fn faults_of_names_and_numbers(rt: HostRuntime) {
    walk(&rt, rt.alloc(), NAMES);
    walk(&rt, rt.alloc(), NUMBERS);
    walk(&rt, rt.alloc(), RANGES);
}

#[test]
fn faults_of_labels_and_sets(rt: HostRuntime) {
    walk(&rt, rt.alloc(), LABELS);
    walk(&rt, rt.alloc(), LABELS_BY_FORM);
    walk(&rt, rt.alloc(), SETS);
}

#[test]
fn faults_of_paths_and_modes(rt: HostRuntime) {
    walk(&rt, rt.alloc(), PATHS);
    walk(&rt, rt.alloc(), SPELLINGS);
}

#[test]
fn faults_of_payloads(rt: HostRuntime) {
    walk(&rt, rt.alloc(), PAYLOADS);
    walk(&rt, rt.alloc(), LENGTHS);
}

#[test]
fn what_may_stand_at_the_bounds(rt: HostRuntime) {
    walk(
        &rt,
        rt.alloc(),
        &[
            (
                "ix 1\nlimit procs 1\nlimit opens 1\nlimit pipes 0\nlimit names 16\nlimit log 0\nfs a * 1 1",
                0,
                0,
            ),
            (
                "ix 1\nlimit procs 1024\nlimit opens 4096\nlimit pipes 1024\nlimit names 65536\nlimit log 65536\nfs a * 65536 65536",
                0,
                0,
            ),
            (
                "ix 1\nproc abcdefghijklmnop 0-254 * DPCTL DPCTL\nproc a_1 - - - -",
                0,
                0,
            ),
            (
                "ix 2\nfs a 0-510 9 9\nproc a 256 1-511 - -\nproc b 0-255 * - -\ndir /d 0-255 free\nfile /x 0-255,300 frozen - - x",
                0,
                0,
            ),
            (
                "ix 2\nproc a - * - -\nphase\nlane m\nsetlabel a /x 511\nsetself a 256-511\nceiling a a 0-255",
                0,
                0,
            ),
            (
                "ix 1\nfile /x - free - - 1048576*00\nfile /y - free - - 0*41",
                0,
                0,
            ),
            (
                "ix 1\nproc a - - - -\nphase\nlane m\nwrite a 255 4096*41\nread a 0 4294967295\nexit a 255",
                0,
                0,
            ),
            (
                "ix 1\nproc a - - - -\nphase\nlane m\nstat a /\nstat a a/a/a/a/a/a/a/a/a/a/a/a/a/a/a/a",
                0,
                0,
            ),
        ],
    );
}
