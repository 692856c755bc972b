//! The command words as clap reads them: a command, and a count.
ghost use Rattle.std.specs.Prelude.{◌≡◌, IfOk, codes, map, string_bytes};
ghost use Rattle.clap.specs.Words.{app_of, first_value, found_of};
ghost use Rattle.ix_host.specs.command.{Command.{command_of, count_of, counted_command, named_command}, CommandLine.{command_line, read_values}};
ghost use Rattle.ix_model.specs.opening.Valid.{is_within};
ghost use Rattle.ix_text.specs.Bytes.{begins_with};

use crate::arguments::command::Command;
use clap::error::ErrorKind;
use clap::{Arg, ArgAction, ArgMatches};
use ix_label::Form;
use ix_model::NoMemory;
use ix_text::label_in;
use std::alloc::{AllocError, Global};

/// The command that the words are, once at most one word `--` is left out.
pub(crate) fn read_command(alloc: Global, words: &[String]) -> Result<Option<Command>, NoMemory>
    ensures { IfOk result (λ command. command ≡ command_of (map string_bytes words.now)) }
{
    let Ok(line) = command_line(alloc) else {
        return Err(NoMemory);
    };
    match line.try_get_matches_from(words) {
        Ok(matches) => Ok(read_values(&matches)),
        Err(error) if error.kind() == ErrorKind::OutOfMemory => Err(NoMemory),
        Err(_) => Ok(None),
    }
}

/// The line that is read: a command, and a count beside it.
fn command_line<'a>(alloc: Global) -> Result<clap::Command<'a>, AllocError>
    ensures { IfOk result (λ line. app_of line ≡ command_line) }
{
    let command = Arg::new(alloc, "command").action(ArgAction::Set);
    let count = Arg::new(alloc, "count").action(ArgAction::Set);
    clap::Command::new(alloc, "ixone")
        .no_binary_name(true)
        .disable_help_flag(true)
        .disable_version_flag(true)
        .arg(command)?
        .arg(count)
}

/// The command of the values that are there.
fn read_values(matches: &ArgMatches<'_>) -> Option<Command>
    ensures { result ≡ read_values (first_value (found_of matches.now) (codes "command")) (first_value (found_of matches.now) (codes "count")) }
{
    match (matches.get_str("command"), matches.get_str("count")) {
        (Some(word), None) => named_command(word),
        (Some(word), Some(count)) => counted_command(word, count),
        (None, _) => None,
    }
}

/// The command of a word.
fn named_command(word: &str) -> Option<Command>
    ensures { result ≡ named_command word.now }
{
    match word {
        "run" => Some(Command::Run),
        "print" => Some(Command::Print),
        "check" => Some(Command::Check),
        "flow" => Some(Command::Flow),
        "save" => Some(Command::Save),
        "load" => Some(Command::Load),
        _ => None,
    }
}

/// The command of a word and a count, or a label.
fn counted_command(word: &str, more: &str) -> Option<Command>
    ensures { result ≡ counted_command word.now more.now }
{
    match word {
        "gen" => match count_of(more) {
            Some(n) => Some(Command::Gen(n)),
            None => None,
        },
        "twin" => match label_in(Form::Two, more.as_bytes()) {
            Some(label) => Some(Command::Twin(label)),
            None => None,
        },
        _ => None,
    }
}

/// The count of a word: a decimal number from 1 to 100,000, without a sign and without zeros before it.
fn count_of(word: &str) -> Option<u32>
    ensures { result ≡ count_of word.now }
{
    if !begins_with_digit(word.as_bytes()) {
        return None;
    }
    let Ok(n) = word.parse::<u32>() else {
        return None;
    };
    if n <= 100_000 { Some(n) } else { None }
}

/// Whether the first byte is a digit from 1 to 9.
fn begins_with_digit(word: &[u8]) -> bool
    ensures { result ≡ begins_with (λ b. is_within 49 57 b) word.now }
{
    match word.first() {
        Some(b) => b'1' <= *b && *b <= b'9',
        None => false,
    }
}
