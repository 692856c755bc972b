ghost use Rattle.std.specs.{Prelude.{◌≡◌, ◌++◌, ◌∷◌, [], OnOk, OnErr, IfOk, drop, map, slice_get, string_bytes}, Option.{option_copied}};
ghost use Rattle.ix_host.specs.command.{Command.{command_of}, Given.{words_of}};

use crate::arguments::command::Command;
use crate::arguments::command_line::read_command;
use ix_model::NoMemory;
use std::alloc::Global;
use std::env::Args;
use std::io;
use std::marker::Model;

/// The words of a command line, in order. Contracts see the list of their texts.
#[derive(Drop)]
pub struct Words {
    words: Vec<String>,
}

impl Model for Words {
    ghost use Rattle.std.specs.Prelude.{List, ℕ, map, string_bytes};

    ghost Value = { List (List ℕ) };

    ghost view = { λ w. map string_bytes w.words.items };
}

impl Words {
    /// No words. It takes no memory.
    pub fn new(alloc: Global) -> Words
        ensures { result ≡ [] }
    {
        Words {
            words: Vec::new(alloc),
        }
    }

    /// The words that a program is called with, as `std::env::args` tells them: all but the first, which is its name. Where one of
    /// them is not text there are none, which is no command either. `NoMemory` where there was none to keep them.
    pub fn of_program(alloc: Global, args: io::Result<Args>) -> Result<Words, NoMemory>
        ensures { IfOk result (λ words. words ≡ words_of args) }
    {
        match args {
            Ok(args) => Words::behind_first(alloc, args),
            Err(error) if error.kind() == io::ErrorKind::OutOfMemory => Err(NoMemory),
            Err(_) => Ok(Words::new(alloc)),
        }
    }

    /// All words but the first.
    fn behind_first(alloc: Global, args: Args) -> Result<Words, NoMemory>
        ensures { IfOk result (λ words. words ≡ map string_bytes (drop 1 args.rest.items)) }
    {
        let mut words = Vec::new(alloc);
        let mut rest = args;
        rest.next();
        for word in rest {
            if words.push(word).is_err() {
                return Err(NoMemory);
            }
        }
        Ok(Words { words })
    }

    /// Puts a word at the end. Where there is no memory for it the words stay as they were.
    pub fn push(&mut self, word: &str) -> Result<(), NoMemory>
        ensures ok { OnOk result (self.new ≡ self.old ++ word.now ∷ []) }
        ensures err { OnErr result (self.new ≡ self.old) }
    {
        let Ok(word) = String::from_str(*self.words.allocator(), word) else {
            return Err(NoMemory);
        };
        self.words.push(word).map_err(|_| NoMemory)
    }

    /// The word at an index from 0, or `None` exactly past the end.
    pub fn get(&self, i: usize) -> Option<&str>
        ensures { option_copied result ≡ slice_get self.now i }
    {
        self.words.get(i).map(|word| word.as_str())
    }

    /// The command that the words are, once at most one word `--` is left out.
    pub(crate) fn command(&self, alloc: Global) -> Result<Option<Command>, NoMemory>
        ensures { IfOk result (λ command. command ≡ command_of self.now) }
    {
        read_command(alloc, self.words.as_slice())
    }
}
