use super::{NO_FAULTS, USAGE, comes_to};
use ix_host::{Status, Words};
use std::alloc::Global;
use std::env;
use std::env::{Env, FillError};
use std::process::Abort;

/// A command line of the program's name and one word.
#[derive(Drop)]
struct OneWord(&'static [u8]);

impl Env for OneWord {
    fn arg(&self, i: usize, buf: &mut [u8]) -> Result<usize, FillError> {
        let word = match i {
            0 => b"ixone",
            1 => self.0,
            _ => return Err(FillError::NotPresent),
        };
        if buf.len() < word.len() {
            return Err(FillError::TooLong);
        }
        buf[..word.len()].copy_from_slice(word);
        Ok(word.len())
    }

    fn var(&self, _name: &str, _buf: &mut [u8]) -> Result<usize, FillError> {
        Err(FillError::NotPresent)
    }

    fn var_at(&self, _i: usize, _buf: &mut [u8]) -> Result<usize, FillError> {
        Err(FillError::NotPresent)
    }
}

/// Whether this is the first word of a program that was called with one, and there is no second; `None`: there is no first either.
fn is_word(alloc: Global, word: &'static [u8], first: Option<&str>) -> bool {
    match Words::of_program(alloc, env::args(&(OneWord(word), alloc))) {
        Ok(words) => words.get(0) == first && words.get(1).is_none(),
        Err(_) => false,
    }
}

#[test]
fn words_stand_behind_the_name_and_are_text(rt: HostRuntime) {
    assert!(rt; is_word(rt.alloc(), b"run", Some("run")));
    assert!(rt; is_word(rt.alloc(), b"r\xFFn", None));
}

/// Words that are no command.
const NO_COMMANDS: &[&[&str]] = &[
    &[],
    &["help"],
    &["run", "run"],
    &["Run"],
    &["run", "print"],
    &["print", "run"],
    &["run", "5"],
    &["run", ""],
    &[""],
    &["-"],
    &["5", "gen"],
    // A count is a number from 1 to 100,000, in its one spelling.
    &["gen"],
    &["gen", ""],
    &["gen", "0"],
    &["gen", "007"],
    &["gen", "100001"],
    &["gen", "4294967297"],
    &["gen", "+1"],
    &["gen", "-1"],
    &["gen", "1x"],
    &["gen", "1", "2"],
    // A flag is no word of a command, whatever it says.
    &["--help"],
    &["-h"],
    &["--version"],
    &["--run"],
    &["-r"],
    &["run", "--print"],
    &["-- run"],
    // Only one word `--` is left out.
    &["--"],
    &["--", "--"],
    &["--", "run", "--"],
    &["run", "--", "--"],
    &["--", "--", "run"],
    &["--", "run", "x"],
];

#[test]
fn other_words_are_answered_by_the_usage_line(rt: HostRuntime) {
    for words in NO_COMMANDS {
        assert!(rt;
            comes_to(
                rt.alloc(),
                words,
                b"ix 1\n",
                NO_FAULTS,
                Status::Usage,
                USAGE
            ),
            "{words:?}"
        );
    }
}

#[test]
fn one_word_of_two_dashes_is_left_out(rt: HostRuntime) {
    for words in [["--", "print"], ["print", "--"]] {
        assert!(rt;
            comes_to(
                rt.alloc(),
                &words,
                b"ix 1\n",
                NO_FAULTS,
                Status::Done,
                b"ix 1\n"
            )
        );
    }
}
