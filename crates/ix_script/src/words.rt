ghost use Rattle.std.specs.{Prelude.{◌≡◌, ℕ, ◌≤◌, ◌<◌, ◌+◌, ◌^◌, ◌∷◌, [], length, take, drop, IfSome, Some, None, map, nat_lt, set, replicate, if◌then◌else◌}, Option.{option_map_or}};
ghost use Rattle.{ix_script.specs.{lines.Faults.{words_fault}, reader.Readers.{Finds}, reader.Cut.{AreWords, end_from}}, ix_text.specs.Bytes.{is_empty}};
ghost use Rattle.ix_script.specs.texts.Cutting.{after_byte, parts_words, closes, is_open, pieces, words_of, word_at, is_closed};
ghost use Rattle.ix_script.specs.declared.words.Spot.TheVariants as spot;

use crate::fail::Rule;
use ix_text::begins;
use memchr::memchr;
use std::marker::Model;

/// Where in a line a byte stands.
#[derive(Clone, Copy)]
pub(crate) enum Spot {
    /// At the front of a word.
    Front,
    /// In a word, outside quotes.
    Plain,
    Quoted,
    /// Inside quotes, after a backslash.
    Escaped,
}

impl Spot {
    pub fn after(self, b: u8) -> Spot
        ensures { result ≡ after_byte self b }
    {
        match (self, b) {
            (Spot::Front, b'"') | (Spot::Escaped, _) => Spot::Quoted,
            (Spot::Quoted, b'\\') => Spot::Escaped,
            (Spot::Front | Spot::Plain, _) | (Spot::Quoted, b'"') => Spot::Plain,
            (Spot::Quoted, _) => Spot::Quoted,
        }
    }

    pub fn parts_words(self, b: u8) -> bool
        ensures { result ≡ parts_words self b }
    {
        b == b' ' && !matches!(self, Spot::Quoted | Spot::Escaped)
    }

    /// Whether the byte closes the quotes that it stands in.
    pub fn closes(self, b: u8) -> bool
        ensures { result ≡ closes self b }
    {
        matches!(self, Spot::Quoted) && b == b'"'
    }
}

/// How many words a line has, and whether one is empty or has an open quote.
#[derive(Clone, Copy)]
struct Seen {
    count: usize,
    has_empty: bool,
    has_open: bool,
}

/// The words of a line. The first eight are kept; of the others it is known how many there are, and whether they are well formed.
#[derive(Drop)]
pub(crate) struct Words<'a> {
    text: &'a [u8],
    first: [&'a [u8]; 8],
    seen: Seen,
}

impl<'a> Model for Words<'a> {
    ghost use Rattle.std.specs.Prelude.{List, ℕ, map};
    ghost use Rattle.ix_script.specs.{texts.Cutting.{words_of}, reader.Cut.{AreWords}};

    ghost Value = { List (List ℕ) };

    ghost view = { λ w. words_of w.text.now };

    ghost invariant = { λ w. AreWords (words_of w.text.now) (map (λ s. s.now) w.first) w.seen.count w.seen.has_empty w.seen.has_open };
}

/// Where the first word ends that no quotes begin. Most end within a few bytes, before a search for many at a time pays.
fn end_of_plain(text: &[u8]) -> usize
    ensures { result ≡ end_from spot.Plain text.now }
{
    'bytes: for i in 0..text.len() {
        if text[i] == b' ' {
            return i;
        }
        if i == 16 {
            let far = &text[i..];
            return i + memchr(b' ', far).unwrap_or(far.len());
        }
    }
    text.len()
}

/// Where the first word ends that quotes may begin.
fn end_of_quoted(text: &[u8]) -> usize
    ensures { result ≡ end_from spot.Front text.now }
{
    let mut at = Spot::Front;
    'bytes: for (i, b) in text.iter().enumerate() {
        if at.parts_words(*b) {
            return i;
        }
        at = at.after(*b);
    }
    text.len()
}

/// The first word, what stands after the space that ends it, and whether it has an open quote.
fn first_word(text: &[u8]) -> (&[u8], Option<&[u8]>, bool)
    ensures pieces { pieces spot.Front text.now ≡ result.0.now ∷ option_map_or (λ more. pieces spot.Front more.now) result.1 [] }
    ensures fewer { IfSome result.1 (λ more. length more.now < length text.now) }
    ensures open { result.2 ≡ is_open result.0.now }
{
    let quoted = begins(b'"', text);
    let end = if quoted {
        end_of_quoted(text)
    } else {
        end_of_plain(text)
    };
    let word = &text[..end];
    let open = quoted && !is_closed(word);
    if end < text.len() {
        (word, Some(&text[end + 1..]), open)
    } else {
        (word, None, open)
    }
}

/// Whether the quote that closes a word is its last byte.
fn is_closed(word: &[u8]) -> bool
    ensures { result ≡ is_closed spot.Front word.now }
{
    let mut at = Spot::Front;
    'bytes: for (i, b) in word.iter().enumerate() {
        if at.closes(*b) {
            return i + 1 == word.len();
        }
        at = at.after(*b);
    }
    false
}

/// Keeps the first eight words of a line, in places that have no bytes yet, and tells of all.
fn cut_into<'a>(text: &'a [u8], first: &mut [&'a [u8]; 8]) -> Seen
    requires { map (λ s. s.now) first.old ≡ replicate 8 [] }
    ensures { AreWords (words_of text.now) (map (λ s. s.now) first.new) result.count result.has_empty result.has_open }
{
    let mut count = 0;
    let mut has_empty = false;
    let mut has_open = false;
    let len = text.len();
    let mut rest = if len == 0 { None } else { Some(text) };
    'words: while let Some(front) = rest {
        let (word, more, open) = first_word(front);
        if count < 8 {
            first[count] = word;
        }
        count += 1;
        has_empty |= word.is_empty();
        has_open |= open;
        rest = more;
    }
    Seen {
        count,
        has_empty,
        has_open,
    }
}

impl<'a> Words<'a> {
    pub fn none() -> Words<'a>
        ensures { result ≡ [] }
    {
        Words {
            text: &[],
            first: [&[]; 8],
            seen: Seen {
                count: 0,
                has_empty: false,
                has_open: false,
            },
        }
    }

    /// Cuts a line into its words. They are put in their place, since to hand them out would copy them.
    #[inline(always)]
    pub fn cut(&mut self, text: &'a [u8])
        ensures { self.new ≡ words_of text.now }
    {
        self.first = [&[]; 8];
        self.seen = cut_into(text, &mut self.first);
        self.text = text;
    }

    pub fn len(&self) -> usize
        ensures { result ≡ length self.now }
    {
        self.seen.count
    }

    /// The word at a place from 0; no bytes where there is none.
    pub fn get(&self, i: usize) -> &'a [u8]
        requires { i < 8 }
        ensures { result.now ≡ word_at self.now i }
    {
        self.first[i]
    }

    /// Rules 4 and 5.
    #[tactic(auto, unfolding(crate::specs::lines::Faults::words_fault))]
    pub fn check(&self) -> Result<(), Rule>
        ensures { Finds result (words_fault self.now) }
    {
        if self.seen.has_empty {
            return Err(Rule::EMPTY_WORD);
        }
        if self.seen.has_open {
            return Err(Rule::OPEN_QUOTE);
        }
        Ok(())
    }
}
