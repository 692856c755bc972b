ghost use Rattle.std.specs.Prelude.{◌≡◌, ◌<◌, Some, IfSome, IsSome, is_some, ◌≤◌, ◌∷◌, [], length, take, unwrap_or, None, ℕ, ◌+◌, replicate, OnOk};
ghost use Rattle.{std.specs.{List.{list_all}, Option.{option_map_or}}, ix_script.specs.{lines.Said.{payload_within}, reader.Readers.{IsFault}, texts.PayloadBytes.{bytes_in}, texts.Spelled.{Spells}}};
ghost use Rattle.ix_script.specs.texts.Payloads.{digit_of, pair_of, two_digits, escape_step, ends, escaped_byte, after_bytes, pairs_of, quoted_from, times_from, payload_of};
ghost use Rattle.ix_script.specs.declared.payload.Escape.TheVariants as escape;
ghost use Rattle.ix_script.specs.lines.Kinds as kind;

use crate::fail::Rule;
use crate::values::{is_numeral, place_of, value};
use ix_model::NoMemory;
use ix_text::{begins, is_digit};
use std::marker::Model;

/// The value of a hexadecimal digit: a letter's low bits say how far it is from the letter before `a`.
#[tactic(auto, unfolding(crate::specs::texts::Payloads::digit_of))]
fn digit(b: u8) -> Option<u8>
    ensures digit { result ≡ digit_of b }
    ensures low { IfSome result (λ n. n < 16) }
{
    if is_digit(b) || b >= b'a' && b <= b'f' || b >= b'A' && b <= b'F' {
        Some(b % 16 + 9 * (b / 64))
    } else {
        None
    }
}

#[tactic(auto, unfolding(crate::specs::texts::Payloads::pair_of))]
pub(crate) fn pair(high: u8, low: u8) -> Option<u8>
    ensures { result ≡ pair_of high low }
{
    let high = digit(high)?;
    let low = digit(low)?;
    Some(high * 16 + low)
}

pub(crate) fn two_digits(text: &[u8]) -> Option<u8>
    ensures { result ≡ two_digits text.now }
{
    match text {
        [high, low] => pair(*high, *low),
        _ => None,
    }
}

/// Where in quotes a byte stands.
#[derive(Clone, Copy)]
pub(crate) enum Escape {
    /// Where it stands for itself.
    Plain,
    /// After a backslash.
    Begun,
    /// Where the first of two digits stands.
    High,
    /// After this first digit.
    Low(u8),
}

/// The byte that a backslash and this byte stand for.
#[tactic(auto, unfolding(crate::specs::texts::Payloads::escaped_byte))]
pub(crate) fn escaped(b: u8) -> Option<u8>
    ensures { result ≡ escaped_byte b }
{
    match b {
        b'\\' | b'"' => Some(b),
        b'n' => Some(b'\n'),
        _ => None,
    }
}

impl Escape {
    pub fn ends(self, b: u8) -> bool
        ensures { result ≡ ends self b }
    {
        matches!(self, Escape::Plain) && b == b'"'
    }

    /// Where the next byte stands, and the byte that is read with this one; `None` where this one may not stand.
    #[tactic(auto, unfolding(crate::specs::texts::Payloads::escape_step))]
    pub fn after(self, b: u8) -> Option<(Escape, Option<u8>)>
        ensures { result ≡ escape_step self b }
    {
        match self {
            Escape::Plain if b == b'\\' => Some((Escape::Begun, None)),
            Escape::Plain => Some((Escape::Plain, Some(b))),
            Escape::Begun if b == b'x' => Some((Escape::High, None)),
            Escape::Begun => Some((Escape::Plain, Some(escaped(b)?))),
            Escape::High => Some((Escape::Low(b), None)),
            Escape::Low(high) => Some((Escape::Plain, Some(pair(high, b)?))),
        }
    }
}

/// How bytes are spelled.
#[derive(Clone, Copy)]
pub(crate) enum Spelling<'a> {
    /// By pairs of digits.
    Pairs(&'a [u8]),
    /// By what stands in quotes, up to the quote that ends the text.
    Quoted(&'a [u8]),
    /// So often that byte.
    Times(u32, u8),
}

/// The first byte that is spelled in quotes, and the text after it.
#[tactic(auto, unfolding(crate::specs::texts::Payloads::quoted_from, crate::specs::texts::Payloads::escape_step))]
fn first_of_quoted(text: &[u8]) -> Option<(u8, &[u8])>
    requires { IsSome (quoted_from escape.Plain text.now) }
    ensures { quoted_from escape.Plain text.now ≡ option_map_or (λ p. after_bytes (p.0 ∷ []) (quoted_from escape.Plain p.1.now)) result (Some []) }
{
    match text {
        [] | [b'"', ..] => None,
        [b'\\', b'x', high, low, more @ ..] => Some((pair(*high, *low)?, more)),
        [b'\\', b, more @ ..] => Some((escaped(*b)?, more)),
        [b, more @ ..] => Some((*b, more)),
    }
}

/// The value of a byte that is known to be a hexadecimal digit: nothing is tested, so that many are worked out at once.
#[tactic(auto, unfolding(crate::specs::texts::Payloads::digit_of))]
fn digit_value(b: u8) -> u8
    requires { IsSome (digit_of b) }
    ensures value { digit_of b ≡ Some result }
    ensures low { result < 16 }
{
    (b % 16 + 9 * (b / 64)) % 16
}

/// Puts the bytes that pairs of digits spell at the front of a buffer. No index is tested, since the count is that of both.
fn decode_pairs(text: &[u8], buf: &mut [u8])
    requires spelled { IsSome (pairs_of text.now) }
    requires room { length (unwrap_or (pairs_of text.now) []) ≤ length buf.old }
    ensures front { take (length (unwrap_or (pairs_of text.now) [])) buf.new ≡ unwrap_or (pairs_of text.now) [] }
    ensures len { length buf.new ≡ length buf.old }
{
    let (twos, _) = text.as_chunks::<2>();
    let count = twos.len().min(buf.len());
    'bytes: for i in 0..count {
        let two = twos[i];
        buf[i] = digit_value(two[0]) * 16 + digit_value(two[1]);
    }
}

/// Puts the bytes that stand in quotes, which are so many, at the front of a buffer.
#[inline(never)]
fn decode_quoted(text: &[u8], count: usize, buf: &mut [u8])
    requires spelled { IsSome (quoted_from escape.Plain text.now) }
    requires count { count ≡ length (unwrap_or (quoted_from escape.Plain text.now) []) }
    requires room { count ≤ length buf.old }
    ensures front { take count buf.new ≡ unwrap_or (quoted_from escape.Plain text.now) [] }
    ensures len { length buf.new ≡ length buf.old }
{
    let mut rest = text;
    'bytes: for i in 0..count {
        let (byte, more) = first_of_quoted(rest).unwrap();
        buf[i] = byte;
        rest = more;
    }
}

/// The bytes that a word of a script spells, at most so many. It borrows the word, and contracts see the list of the bytes.
#[derive(Drop)]
pub struct Payload<'a, const MOST: u32> {
    spelling: Spelling<'a>,
    len: u32,
}

impl<'a, const MOST: u32> Model for Payload<'a, MOST> {
    ghost use Rattle.std.specs.Prelude.{List, ℕ};
    ghost use Rattle.ix_script.specs.texts.PayloadBytes.{IsPayload, bytes_in};

    ghost Value = { List ℕ };

    ghost view = { λ p. bytes_in p.spelling };

    ghost invariant = { λ p. IsPayload MOST p.spelling p.len };
}

/// Whether each is a hexadecimal digit. Each is looked at, also after one that is none, so that many are looked at at once.
#[tactic(auto, using(std::proofs::lemmas::List::Folds::list_all_more))]
fn are_digits(text: &[u8]) -> bool
    ensures { result ≡ list_all (λ b. is_some (digit_of b)) text.now }
{
    let mut all = true;
    for b in text {
        all &= digit(*b).is_some();
    }
    all
}

fn pairs(text: &[u8]) -> Result<(Spelling<'_>, usize), Rule>
    ensures { (most : ℕ) → Spells most result (pairs_of text.now) }
{
    if text.len() % 2 == 0 && are_digits(text) {
        Ok((Spelling::Pairs(text), text.len() / 2))
    } else {
        Err(Rule::BAD_PAYLOAD)
    }
}

/// What is spelled in quotes, up to the quote that ends the text.
fn quoted(text: &[u8]) -> Result<(Spelling<'_>, usize), Rule>
    ensures { (most : ℕ) → Spells most result (quoted_from escape.Plain text.now) }
{
    let mut count = 0;
    let mut at = Escape::Plain;
    'bytes: for (i, b) in text.iter().enumerate() {
        if at.ends(*b) {
            return if i + 1 == text.len() {
                Ok((Spelling::Quoted(text), count))
            } else {
                Err(Rule::BAD_PAYLOAD)
            };
        }
        let Some((next, byte)) = at.after(*b) else {
            return Err(Rule::BAD_PAYLOAD);
        };
        count += usize::from(byte.is_some());
        at = next;
    }
    Err(Rule::BAD_PAYLOAD)
}

/// A byte that stands as often as a number says, at most so often.
#[tactic(auto, unfolding(crate::specs::texts::Payloads::times_from, crate::specs::texts::Spelled::spelling_fault))]
fn times(most: u32, count: &[u8], digits: &[u8]) -> Result<(Spelling<'static>, usize), Rule>
    ensures { Spells most result (times_from count.now digits.now) }
{
    let byte = two_digits(digits).ok_or(Rule::BAD_PAYLOAD)?;
    if !is_numeral(count) {
        return Err(Rule::BAD_PAYLOAD);
    }
    match value(count) {
        Some(n) if n <= most => Ok((Spelling::Times(n, byte), n as usize)),
        _ => Err(Rule::LONG_PAYLOAD),
    }
}

/// How a word spells bytes, and how many: at most so many where a number says it.
#[tactic(auto, unfolding(crate::specs::texts::Payloads::payload_of, crate::specs::texts::Payloads::times_of, crate::specs::texts::Spelled::spelling_fault))]
fn spelling_of(most: u32, word: &[u8]) -> Result<(Spelling<'_>, usize), Rule>
    ensures { Spells most result (payload_of word.now) }
{
    if begins(b'"', word) {
        return quoted(&word[1..]);
    }
    if begins(b'x', word) {
        return pairs(&word[1..]);
    }
    let star = place_of(b'*', word).ok_or(Rule::BAD_PAYLOAD)?;
    times(most, &word[..star], &word[star + 1..])
}

/// The bytes of a payload, at most so many: the first rule that it breaks.
#[tactic(auto, unfolding(crate::specs::texts::Spelled::spelling_fault, crate::specs::lines::Kinds::places_fault, crate::specs::lines::Kinds::first_broken))]
pub(crate) fn payload_fault(most: u32, word: &[u8]) -> Option<Rule>
    ensures { IsFault result ((kind.Payload most, word.now) ∷ []) }
{
    match spelling_of(most, word) {
        Ok((_, len)) if len > most as usize => Some(Rule::LONG_PAYLOAD),
        Ok(_) => None,
        Err(rule) => Some(rule),
    }
}

impl<'a, const MOST: u32> Payload<'a, MOST> {
    pub(crate) fn of(word: &'a [u8]) -> Payload<'a, MOST>
        requires { IsSome (payload_within MOST word.now) }
        ensures { payload_within MOST word.now ≡ Some result }
    {
        let (spelling, len) = if begins(b'x', word) {
            (Spelling::Pairs(&word[1..]), word.len() / 2)
        } else {
            spelling_of(MOST, word).unwrap()
        };
        Payload {
            spelling,
            len: len as u32,
        }
    }

    /// How many bytes there are.
    pub fn len(&self) -> usize
        ensures len { result ≡ length self.now }
        ensures few { result ≤ MOST }
    {
        self.len as usize
    }

    /// The byte that the word says so often, and how often, where it is n*HH.
    pub(crate) fn times(&self) -> Option<(usize, u8)>
        ensures { IfSome result (λ t. self.now ≡ replicate t.0 t.1) }
    {
        match self.spelling {
            Spelling::Times(n, byte) => Some((n as usize, byte)),
            _ => None,
        }
    }

    /// Puts the bytes at the front of a buffer, which it asks to have room for all of them.
    pub fn decode(&self, buf: &mut [u8])
        requires { length self.now ≤ length buf.old }
        ensures front { take (length self.now) buf.new ≡ self.now }
        ensures len { length buf.new ≡ length buf.old }
    {
        match self.spelling {
            Spelling::Pairs(text) => decode_pairs(text, buf),
            Spelling::Quoted(text) => decode_quoted(text, self.len(), buf),
            Spelling::Times(_, byte) => buf[..self.len()].fill(byte),
        }
    }

    /// Puts all bytes into a buffer, in place of those that it has.
    pub(crate) fn decode_into(&self, buffer: &mut Vec<u8>) -> Result<(), NoMemory>
        ensures { OnOk result (buffer.new.items ≡ self.now) }
    {
        buffer.resize(self.len(), 0)?;
        self.decode(buffer.as_mut_slice());
        Ok(())
    }
}
