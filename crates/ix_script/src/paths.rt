ghost use Rattle.std.specs.{Prelude.{◌≡◌, Some, IsSome, is_some}, List.{list_all}};
ghost use Rattle.{ix_model.specs.world.Paths.{path_of}, ix_text.specs.Bytes.{begins}, ix_script.specs.texts.Words.{may_stand_in_path, is_path_word, made_path_of, names_text}};
ghost use Rattle.ix_script.specs.texts.Words as words;

use ix_model::Path;
use ix_text::begins;
use std::marker::Model;

fn all_in_path(word: &[u8]) -> bool
    ensures { result ≡ list_all may_stand_in_path word.now }
{
    word.iter()
        .all(|b| *b >= 33 && *b <= 126 && *b != b'"' && *b != b'\\')
}

/// Whether a word begins with a slash, and the text of its names.
fn parts(word: &[u8]) -> (bool, &[u8])
    ensures absolute { result.0 ≡ begins 47 word.now }
    ensures text { result.1.now ≡ names_text word.now }
{
    match word {
        [b'/', text @ ..] => (true, text),
        _ => (false, word),
    }
}

#[tactic(auto, unfolding(crate::specs::texts::Words::is_path_word))]
pub(crate) fn is_path_word(word: &[u8]) -> bool
    ensures { result ≡ is_path_word word.now }
{
    let (absolute, text) = parts(word);
    !word.is_empty() && all_in_path(word) && Path::read(absolute, text).is_some()
}

#[tactic(auto, unfolding(crate::specs::texts::Words::made_path_of, crate::specs::texts::Words::path_of))]
pub(crate) fn is_made_path(word: &[u8]) -> bool
    ensures { result ≡ is_some (made_path_of word.now) }
{
    begins(b'/', word) && word.len() > 1 && is_path_word(word)
}

/// A path, as a word of a script spells it. It borrows the word, and contracts see the path.
#[derive(Drop)]
pub struct PathWord<'a> {
    word: &'a [u8],
}

impl<'a> Model for PathWord<'a> {
    ghost use Rattle.std.specs.Prelude.{IsTrue};
    ghost use Rattle.ix_model.specs.world.Naming.{PathOf};
    ghost use Rattle.ix_script.specs.texts.Words.{is_path_word, path_in};

    ghost Value = { PathOf };

    ghost view = { λ p. path_in p.word.now };

    ghost invariant = { λ p. IsTrue (is_path_word p.word.now) };
}

impl<'a> PathWord<'a> {
    #[tactic(auto, unfolding(crate::specs::texts::Words::path_of))]
    pub(crate) fn of(word: &'a [u8]) -> PathWord<'a>
        requires { IsSome (words.path_of word.now) }
        ensures { words.path_of word.now ≡ Some result }
    {
        PathWord { word }
    }

    /// The path. It borrows the word: nothing is copied, and nothing looked at but the first byte.
    pub fn path(&self) -> Path<'a>
        ensures { path_of result ≡ self.now }
    {
        let (absolute, text) = parts(self.word);
        Path::from_text(absolute, text)
    }
}

/// An absolute path with a name, as a word of a script spells it. It borrows the word, and contracts see the path.
#[derive(Drop)]
pub struct MadePath<'a> {
    path: PathWord<'a>,
}

impl<'a> Model for MadePath<'a> {
    ghost use Rattle.std.specs.Prelude.{◌≡◌, Some};
    ghost use Rattle.ix_model.specs.world.Naming.{PathOf};
    ghost use Rattle.ix_script.specs.{texts.Spellings.{path_text}, texts.Words.{made_path_of}};

    ghost Value = { PathOf };

    ghost view = { λ p. p.path };

    ghost invariant = { λ p. made_path_of (path_text p.path) ≡ Some p.path };
}

impl<'a> MadePath<'a> {
    pub(crate) fn of(word: &'a [u8]) -> MadePath<'a>
        requires { IsSome (made_path_of word.now) }
        ensures { made_path_of word.now ≡ Some result }
    {
        MadePath {
            path: PathWord::of(word),
        }
    }

    /// The path. It borrows the word.
    pub fn path(&self) -> Path<'a>
        ensures { path_of result ≡ self.now }
    {
        self.path.path()
    }
}
