ghost use Rattle.std.specs.{Prelude.{◌≡◌}, List.{list_all}};
ghost use Rattle.ix_text.specs.{Bytes.{begins_with, is_letter}, Names.{is_reserved, is_script_name, may_stand_in_script_name, name_of}};

use crate::bytes::{is, is_digit, is_letter};
use ix_model::Name;

fn begins_with_letter(word: &[u8]) -> bool
    ensures { result ≡ begins_with is_letter word.now }
{
    match word {
        [] => false,
        [b, ..] => is_letter(*b),
    }
}

fn all_in_name(word: &[u8]) -> bool
    ensures { result ≡ list_all may_stand_in_script_name word.now }
{
    word.iter()
        .all(|b| is_letter(*b) || is_digit(*b) || *b == b'_')
}

/// Whether the word is `all`, `none` or `as`, which are no names.
pub fn is_reserved(word: &[u8]) -> bool
    ensures { result ≡ is_reserved word.now }
{
    is(word, b"all") || is(word, b"none") || is(word, b"as")
}

/// Whether the word is a name in a script or a policy: a small letter, then at most 15 small letters, digits or `_`; not `all`,
/// `none` or `as`.
#[tactic(auto, unfolding(crate::specs::Names::is_script_name))]
pub fn is_script_name(word: &[u8]) -> bool
    ensures { result ≡ is_script_name word.now }
{
    begins_with_letter(word) && word.len() <= 16 && all_in_name(word) && !is_reserved(word)
}

/// The name of a file system, a process, a lane, a descriptor or a user; `None` exactly where the word is none.
#[tactic(auto, unfolding(crate::specs::Names::name_of))]
pub fn name_of(word: &[u8]) -> Option<Name>
    ensures { result ≡ name_of word.now }
{
    if !is_script_name(word) {
        return None;
    }
    match Name::read(word) {
        Some(name) => Some(name),
        None => None,
    }
}
