use super::{Case, walk};

/// Rule 22, with rule 21 broken behind it.
const ABOVE: &[Case] = &[
    ("ix 1\nproc a 3 - - -\nphase\nlane m\nself q", 2, 22),
    (
        "ix 1\nproc a 3 3 - -\nproc b 3,7 3 - -\nphase\nlane m\nself q",
        3,
        22,
    ),
    (
        "ix 1\nfs root 3 9 9\ndir /a 7 free\nphase\nlane m\nself q",
        3,
        22,
    ),
    (
        "ix 1\nfs root 3 9 9\n\nfile /a 7 free - - x\nphase\nlane m\nself q",
        4,
        22,
    ),
    (
        "ix 1\nfs root 3 9 9\nfs far 4 9 9\ndir /far/x 4 free\ndir /x 4 free\nphase\nlane m\nself q",
        5,
        22,
    ),
    ("ix 2\nproc a 0-256 0-255 - -\nphase\nlane m\nself q", 2, 22),
    (
        "ix 2\nfs root 0-255 9 9\nfile /a 300 free - - x\nphase\nlane m\nself q",
        3,
        22,
    ),
];

/// Rule 23, with rule 22 broken behind it.
const MISFITS: &[Case] = &[
    ("ix 1\ndir /a/b - free\nproc a 3 - - -", 2, 23),
    (
        "ix 1\ndir /root - free\nfile /root/a/b - free - - x\nproc a 3 - - -",
        3,
        23,
    ),
    (
        "ix 1\nfile /a - free - - x\ndir /a/b - free\nproc a 3 - - -",
        3,
        23,
    ),
    (
        "ix 1\ndir /a - free\n\ndir /a - free\nproc a 3 - - -",
        4,
        23,
    ),
    (
        "ix 1\nfs root * 9 9\nfs far * 9 9\ndir /far - free\nproc a 3 - - -",
        4,
        23,
    ),
];

/// Rule 24, with rule 22 or 23 broken behind it. Line 2 has room.
const CROWDED: &[Case] = &[
    (
        "ix 1\nfs root * 1 1\nfile /a - free - - x\ndir /a/b - free",
        3,
        24,
    ),
    (
        "ix 1\nfs root * 9 2\ndir /a - free\ndir /b - free\nproc a 3 - - -",
        4,
        24,
    ),
    (
        "ix 1\nfs root * 1 9\nfile /a - free - - 513*41\ndir /a/b - free",
        3,
        24,
    ),
    (
        "ix 1\nfs root * 1 9\nfile /a - free - - 512*41\nfile /b - free - - x41\ndir /c/b - free",
        4,
        24,
    ),
    (
        "ix 1\nlimit procs 1\nproc a - - - -\nproc b - - - -\ndir /a/b - free",
        4,
        24,
    ),
    (
        "ix 1\nlimit names 16\ndir /a - free\ndir /b - free\ndir /c - free\ndir /d - free\ndir /e - free\ndir /f - free\ndir /g - free\ndir /h - free\ndir /i - free\ndir /j - free\ndir /k - free\ndir /l - free\ndir /m - free\ndir /n - free\ndir /o - free\ndir /p - free\ndir /q - free\ndir /a/b/c - free\nproc a 3 - - -",
        19,
        24,
    ),
];

/// Rule 25, with rule 23 broken behind it. No line before the third can stand after a later group.
const OUT_OF_ORDER: &[Case] = &[
    ("ix 1\nfs root * 9 9\nlimit log 1\ndir /a/b - free", 3, 25),
    ("ix 1\nproc a - - - -\nlimit log 1\ndir /a/b - free", 3, 25),
    (
        "ix 1\ndir /a - free\n\nfs root * 9 9\ndir /b/a - free",
        4,
        25,
    ),
    (
        "ix 1\nfile /a - free - - x\nlimit log 1\ndir /a/b - free",
        3,
        25,
    ),
    ("ix 1\npolicy x\nfs far * 1 1\ndir /a/b - free", 3, 25),
];

/// Rule 28, with rule 8, 21 or 22 broken behind it. Lane and process stand before such a line, so the fifth is the first.
const WITHOUT_POLICY: &[Case] = &[
    (
        "ix 1\nproc a - - - -\nphase\nlane m\npriv a 0\nself q",
        5,
        28,
    ),
    (
        "ix 1\nproc a - - - -\nphase\nlane m\nlogin a 0 1\nself q",
        5,
        28,
    ),
    (
        "ix 1\nproc a - - - -\nphase\nlane m\npriv a 0\npolicy x",
        5,
        28,
    ),
    (
        "ix 1\nproc a - - - -\nphase\nlane m\nself a\nlogin a 0 1 as q\nself q\nself r",
        6,
        28,
    ),
];

#[test]
fn faults_of_labels_and_trees(rt: HostRuntime) {
    walk(&rt, rt.alloc(), ABOVE);
    walk(&rt, rt.alloc(), MISFITS);
    walk(&rt, rt.alloc(), CROWDED);
}

#[test]
fn faults_of_orders_and_policies(rt: HostRuntime) {
    walk(&rt, rt.alloc(), OUT_OF_ORDER);
    walk(&rt, rt.alloc(), WITHOUT_POLICY);
}

#[test]
fn what_fits(rt: HostRuntime) {
    walk(
        &rt,
        rt.alloc(),
        &[
            ("ix 1\nlimit procs 2\nproc a 3 3 - -\nproc b - * DP D", 0, 0),
            // Without an `fs` line the ceiling is `*` of the form.
            ("ix 1\nproc a * * - -\nfile /a * free - - x", 0, 0),
            ("ix 2\nproc a * * - -\nfile /a * free - - x", 0, 0),
            (
                "ix 1\nfs root 3 1 3\nfile /a 3 free - - 512*41\ndir /b - frozen",
                0,
                0,
            ),
            (
                "ix 1\nfs root 3 9 9\nfs far 4 1 2\ndir /far/x 4 free\ndir /x 3 free\nfile /x/far - free - - x",
                0,
                0,
            ),
            (
                "ix 1\npolicy x\ndir /a - free\nproc a - - - -\nfile /b - free - - x\nphase\nlane m\npriv a 0\nlogin a 0 1 as q\nself q",
                0,
                0,
            ),
        ],
    );
}
