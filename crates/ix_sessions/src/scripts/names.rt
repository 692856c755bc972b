use super::{Case, walk};

/// Rule 20, with a lesser rule broken behind it. No line before the third can give a name again.
const GIVEN_TWICE: &[Case] = &[
    (
        "ix 1\nproc a - * - -\nproc a - * - -\nfile /x - free - - y",
        3,
        20,
    ),
    ("ix 1\nlimit log 1\nlimit log 2\nlimit log 65537", 3, 20),
    ("ix 1\nfs a * 1 1\n\nfs a * 1 1\nphase x", 4, 20),
    ("ix 1\npolicy x\npolicy y\nphase x", 3, 20),
    ("ix 1\nphase\nlane m\nlane m\nphase x", 4, 20),
    ("ix 1\nphase\nlane m\nlane n\nlane m\nphase x", 5, 20),
    (
        "ix 1\nproc a - - - -\nphase\nlane m\npipe a as f f\nphase x",
        5,
        20,
    ),
    (
        "ix 1\nproc a - - - -\nproc b - - - -\nphase\nlane m\nfork a all as b\nphase x",
        6,
        20,
    ),
    (
        "ix 1\nproc a - - - -\npolicy x\nphase\nlane m\nlogin a 0 1 as a\nphase x",
        6,
        20,
    ),
];

/// Rule 21, with a lesser rule broken behind it. No line before the fourth can use a name.
const UNKNOWN: &[Case] = &[
    ("ix 1\nphase\nlane m\nself a\nlane m", 4, 21),
    (
        "ix 1\nproc a - - - -\nphase\nlane m\nself a\ngrant a b -\nlane m",
        6,
        21,
    ),
    (
        "ix 1\nproc a - - - -\nphase\nlane m\nread a f 1\nlane m",
        5,
        21,
    ),
    (
        "ix 1\nproc a - - - -\nphase\nlane m\nfork a f\nlane m",
        5,
        21,
    ),
    (
        "ix 1\nproc a - - - -\nphase\nlane m\ndup a f as f\nlane m",
        5,
        21,
    ),
    (
        "ix 1\nproc a - - - -\nphase\nlane m\nopen a /x r as f\nlane n\nread a f 1\nlane n",
        7,
        21,
    ),
    (
        "ix 1\nproc a - - - -\nphase\nlane m\nfork a all as q\nread a q 1\nlane m",
        6,
        21,
    ),
    (
        "ix 1\nproc a - - - -\nphase\nlane m\nopen a /x r as f\nself f\nlane m",
        6,
        21,
    ),
];

#[test]
fn faults_of_names_given(rt: HostRuntime) {
    walk(&rt, rt.alloc(), GIVEN_TWICE);
}

#[test]
fn faults_of_names_unknown(rt: HostRuntime) {
    walk(&rt, rt.alloc(), UNKNOWN);
}

/// Lanes, file systems, processes and descriptors have sets of names of their own; behind `as` a name may stand again.
#[test]
fn which_names_may_be_alike(rt: HostRuntime) {
    walk(
        &rt,
        rt.alloc(),
        &[
            (
                "ix 1\nfs a * 1 1\nproc a - - - -\nphase\nlane a\nself a",
                0,
                0,
            ),
            (
                "ix 1\nproc a - - - -\nphase\nlane m\nopen a /x r as a\nread a a 1",
                0,
                0,
            ),
            (
                "ix 1\nproc a - - - -\nphase\nlane m\npipe a as f g\nfork a f as f\nself f",
                0,
                0,
            ),
            (
                "ix 1\nproc a - - - -\nphase\nlane m\nopen a /x r as f\ndup a f as f\nclose a f",
                0,
                0,
            ),
            (
                "ix 1\nproc a - - - -\nphase\nlane m\nfork a all as q\nfork q none as q\nwait q",
                0,
                0,
            ),
            (
                "ix 1\nproc a - - - -\nphase\nlane m\nopen a /x r as f\nphase\nlane m\nread a f 1",
                0,
                0,
            ),
        ],
    );
}
