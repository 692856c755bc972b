use super::{Case, walk};

/// Lines that break two rules: the lesser is the fault. The numbers name the two. No line breaks two rules that are of
/// lines of different kinds, as 24 and 25, nor two that are of one word and shut each other out, as 18 and 19.
const OF_WORDS: &[Case] = &[
    // 3 and 4, 4 and 5, 4 and 6, 5 and 6, 5 and 7
    (" ix 1\x01", 1, 3),
    ("ix 1\nproc  a \"b", 2, 4),
    (" ix 2", 1, 4),
    ("\"ix 1", 1, 5),
    ("ix 1\nbogus \"", 2, 5),
    // 8 and 10, 9 and 10, 9 and 21, 10 and 11, 10 and 20
    ("ix 1\nphase\nproc a", 3, 8),
    ("ix 1\nphase\npolicy ", 3, 8),
    ("ix 1\nself", 2, 9),
    ("ix 1\nphase\nself a", 3, 9),
    ("ix 1\nproc A - -", 2, 10),
    ("ix 1\npolicy x\npolicy ", 3, 10),
    // 7, and not 8: the word `ix` begins a line of the header on line 1 alone
    ("ix 1\nphase\nix 1", 3, 7),
];

const OF_FORMS: &[Case] = &[
    // 11 and 12, also where the word that breaks the greater stands first
    ("ix 1\nfs A * 01 1", 2, 11),
    ("ix 1\nphase\nlane m\ndup a 01 as F", 4, 11),
    // 12 and 13, 12 and 17
    ("ix 1\nfs root * 65537 x", 2, 12),
    ("ix 1\nlimit nothing 01", 2, 12),
    // 13 and 14, 13 and 17
    ("ix 1\nfs root 9,7 65537 1", 2, 13),
    ("ix 1\nlimit nothing 4294967296", 2, 13),
    // 14 and 15, 14 and 16, 15 and 16
    ("ix 1\nproc a 9,7 * PD -", 2, 14),
    ("ix 1\ndir x 9,7 free", 2, 14),
    ("ix 1\nfile x - free PD - x", 2, 15),
    // 16 and 17, 17 and 18, 17 and 19, 18 and 21, 19 and 21
    ("ix 1\ndir x - cold", 2, 16),
    ("ix 1\nfile /x - cold - - y", 2, 17),
    ("ix 1\nfile /x - cold - - 1048577*00", 2, 17),
    ("ix 1\nphase\nlane m\nwrite a f y", 4, 18),
    ("ix 1\nphase\nlane m\nwrite a f 4097*41", 4, 19),
    // 17 and 25, 18 and 23, 19 and 24
    ("ix 1\nproc a - - - -\nlimit nothing 1", 3, 17),
    ("ix 1\nfile /a/b - free - - y", 2, 18),
    ("ix 1\nfs root * 1 1\nfile /a - free - - 1048577*00", 3, 19),
];

const OF_PLANS: &[Case] = &[
    // 11 and 20, 20 and 21, 20 and 22, 20 and 24, 20 and 25
    ("ix 1\nphase\nlane m\npipe a as F F", 4, 11),
    ("ix 1\nphase\nlane m\npipe a as f f", 4, 20),
    ("ix 1\nproc a - - - -\nphase\nlane m\nfork a f as a", 5, 20),
    ("ix 1\nproc a - - - -\nproc a 3 - - -", 3, 20),
    ("ix 1\nlimit procs 1\nproc a - - - -\nproc a - - - -", 4, 20),
    ("ix 1\nlimit log 1\nproc a - - - -\nlimit log 1", 4, 20),
    // 20 and 28, 21 and 28
    (
        "ix 1\nproc a - - - -\nphase\nlane m\nlogin a 0 1 as a",
        5,
        20,
    ),
    ("ix 1\nphase\nlane m\npriv a 0", 4, 21),
    // 22 and 23, 22 and 24, 23 and 24
    ("ix 1\nfs root 3 9 9\ndir /a/b 7 free", 3, 22),
    ("ix 1\nlimit procs 1\nproc a - - - -\nproc b 3 - - -", 4, 22),
    ("ix 1\nfs root * 1 1\ndir /a/b - free", 3, 23),
];

#[test]
fn a_line_breaks_two_rules_of_words(rt: HostRuntime) {
    walk(&rt, rt.alloc(), OF_WORDS);
}

#[test]
fn a_line_breaks_two_rules_of_forms(rt: HostRuntime) {
    walk(&rt, rt.alloc(), OF_FORMS);
}

#[test]
fn a_line_breaks_two_rules_of_plans(rt: HostRuntime) {
    walk(&rt, rt.alloc(), OF_PLANS);
}
