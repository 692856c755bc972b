use super::{Case, walk};

/// Rule 4, with rule 3 broken behind it.
const EMPTY_WORDS: &[Case] = &[
    (" ix 1\n\x01", 1, 4),
    ("ix 1 \n\x01", 1, 4),
    ("ix  1\n\x01", 1, 4),
    (" ix 2\n\x01", 1, 4),
    ("ix 2 \n\x01", 1, 4),
    ("ix  2\n\x01", 1, 4),
    ("ix 1\nproc  a - - - -\n\x01", 2, 4),
    ("ix 1\nproc a - - - - \n\x01", 2, 4),
    ("ix 1\n#  \n \n\x01", 3, 4),
    ("ix 1\ndir /x\"y  - free\n\x01", 2, 4),
    ("ix 1\n policy x\n\x01", 2, 4),
];

/// Rule 5, with rule 3 or 4 broken behind it.
const OPEN_QUOTES: &[Case] = &[
    ("\"ix 1\n ", 1, 5),
    ("\"ix 1\"x\n ", 1, 5),
    ("ix 1\nfile /x - free - - \"\n ", 2, 5),
    ("ix 1\nfile /x - free - - \"a\\\"\n ", 2, 5),
    ("ix 1\nfile /x - free - - \"a\"b\n\x01", 2, 5),
    ("ix 1\nfile /x - free - - \"a\"\"b\"\n ", 2, 5),
    ("ix 1\nphase\nlane m\nwrite a 0 \"x\n limit", 4, 5),
];

/// Rule 6, with rule 3, 4 or 5 broken behind it. No later line is looked at by it.
const FIRST_LINES: &[Case] = &[
    ("", 1, 6),
    ("\n\"", 1, 6),
    ("ix\n\"", 1, 6),
    ("ix 0\n\"", 1, 6),
    ("ix 3\n\"", 1, 6),
    ("ix 12\n\x01", 1, 6),
    ("ix 02\n\"", 1, 6),
    ("Ix 2\n ", 1, 6),
    ("ix 1 1\n ", 1, 6),
    ("ix 2 2\n ", 1, 6),
    ("ix 2 report\n ", 1, 6),
    ("# ix 1\n\x01", 1, 6),
    ("policy  \"\n ", 1, 6),
];

/// Rule 7, with a rule of 3 to 5 broken behind it; rule 6 can't be.
const UNKNOWN_COMMANDS: &[Case] = &[
    ("ix 1\nbogus\nwrite a 0 \"", 2, 7),
    ("ix 1\nIX 1\n\x01", 2, 7),
    ("ix 1\npolicyx\n ", 2, 7),
    ("ix 1\n\"policy\" x\n ", 2, 7),
    ("ix 1\n\nix 1\n ", 3, 7),
    ("ix 1\nix 2\n ", 2, 7),
    ("ix 2\nix 2\n ", 2, 7),
    ("ix 1\nphase\nlane m\nSelf a\n\"", 4, 7),
];

/// Rule 8, with rule 7 broken behind it.
const LATE_HEADERS: &[Case] = &[
    ("ix 1\nphase\nproc a - - - -\nbogus", 3, 8),
    ("ix 1\nphase\n\npolicy x\nbogus", 4, 8),
    ("ix 1\nphase\n#\nlimit log 1\nbogus", 4, 8),
    ("ix 1\nphase\nlane m\nfs a * 1 1\nbogus", 4, 8),
    ("ix 1\nphase\nlane m\ndir /a - free\nbogus", 4, 8),
    (
        "ix 1\nphase\nlane m\nphase\nfile /a - free - - x\nix 1",
        5,
        8,
    ),
];

/// Rule 9, with rule 7 or 8 broken behind it.
const OUTSIDE_LANES: &[Case] = &[
    ("ix 1\nself a\nphase\nlimit log 1", 2, 9),
    ("ix 1\nlane m\nphase\nlimit log 1", 2, 9),
    ("ix 1\n#\nlane m\nbogus", 3, 9),
    ("ix 1\nphase\nself a\nproc a - - - -", 3, 9),
    (
        "ix 1\nproc a - - - -\nphase\nlane m\nself a\nphase\nself a\nproc b - - - -",
        7,
        9,
    ),
];

/// Rule 10, with a rule of 7 to 9 broken behind it.
const COUNTS_OF_WORDS: &[Case] = &[
    ("ix 1\nphase x\nself a", 2, 10),
    ("ix 1\npolicy\nlane m", 2, 10),
    ("ix 1\n\npolicy \nlane m", 3, 10),
    ("ix 1\nlimit log\nlane m", 2, 10),
    ("ix 1\nfs a * 1\nlane m", 2, 10),
    ("ix 1\nproc a - - - - -\nlane m", 2, 10),
    ("ix 1\ndir /a - free -\nlane m", 2, 10),
    ("ix 1\nfile /a - free - -\nlane m", 2, 10),
    ("ix 1\nphase\nlane\nlimit log 1", 3, 10),
    ("ix 1\nphase\nlane m\nopen a /x r as\nlimit log 1", 4, 10),
    ("ix 1\nphase\nlane m\nopen a /x r az f\nlimit log 1", 4, 10),
    (
        "ix 1\nphase\nlane m\nopen a /x r as f g\nlimit log 1",
        4,
        10,
    ),
    ("ix 1\nphase\nlane m\npipe a as f\nbogus", 4, 10),
    ("ix 1\nphase\nlane m\nread a 0 1 as f\nbogus", 4, 10),
    ("ix 1\nphase\nlane m\n#\nself\nbogus", 5, 10),
];

#[test]
fn faults_of_words(rt: HostRuntime) {
    walk(&rt, rt.alloc(), EMPTY_WORDS);
    walk(&rt, rt.alloc(), OPEN_QUOTES);
}

#[test]
fn faults_of_first_words(rt: HostRuntime) {
    walk(&rt, rt.alloc(), FIRST_LINES);
    walk(&rt, rt.alloc(), UNKNOWN_COMMANDS);
}

#[test]
fn faults_of_places(rt: HostRuntime) {
    walk(&rt, rt.alloc(), LATE_HEADERS);
    walk(&rt, rt.alloc(), OUTSIDE_LANES);
    walk(&rt, rt.alloc(), COUNTS_OF_WORDS);
}

#[test]
fn what_words_may_be(rt: HostRuntime) {
    walk(
        &rt,
        rt.alloc(),
        &[
            ("ix 1", 0, 0),
            ("ix 1\n", 0, 0),
            ("ix 2", 0, 0),
            ("ix 2\n", 0, 0),
            ("ix 1\n\n# \"  \n#", 0, 0),
            ("ix 1\npolicy  \" x ", 0, 0),
            ("ix 1\npolicy  ", 0, 0),
            ("ix 1\nfile /x - free - - \" a  b \"", 0, 0),
            ("ix 1\nfile /x - free - - \"a\\\\\"", 0, 0),
            ("ix 1\nphase\nphase\nlane m\nlane n\nphase\nlane m", 0, 0),
        ],
    );
}

/// Nothing stands behind the fault.
#[test]
fn faults_of_last_lines(rt: HostRuntime) {
    walk(
        &rt,
        rt.alloc(),
        &[
            ("ix 1\nphase\nlane m\nwrite a 0 \"x\n", 4, 5),
            ("ix 1\nproc a - * - -\nproc a - * - -\n", 3, 20),
            ("ix 1\nproc a 9,7 * - -\n", 2, 14),
        ],
    );
}
