ghost use Rattle.std.specs.Prelude.{◌≡◌, ◌++◌, [], OnOk, ◌≤◌, ◌<◌, ◌==◌, codes, drop, length, IsTrue, ◌-◌, Some, None, false, take, IfOk, IfSome, IsSome, unwrap_or, ℕ};
ghost use Rattle.{std.specs.List.{list_all}, ix_text.specs.{Bytes.{begins}, Spellings.{hex_pair}}};
ghost use Rattle.ix_script.specs.{scripts.Canonical.{line_text, canonical, canonical_from}, scripts.Packed.{IsLine, line_in}, lines.Said.{payload_within}, texts.Cutting.{is_skipped, pieces, word_at}};
ghost use Rattle.ix_script.specs.declared.words.Spot.TheVariants as spot;
ghost use Rattle.ix_script.specs.texts.Spellings.{pairs_text, times_text, stands_quoted, quoted_byte, quoted_text, once, payload_text};

use crate::packed::has_one_spelling;
use crate::payload::{Payload, two_digits};
use crate::rules::is_skipped;
use crate::script::Script;
use crate::values::{begins_with_digit, place_of, value};
use crate::words::Words;
use itoa::Buffer;
use ix_label::Form as LabelForm;
use ix_model::NoMemory;
use ix_text::{begins, hex_pair};
use std::alloc::Global;

pub(crate) fn push(out: &mut Vec<u8>, bytes: &[u8]) -> Result<(), NoMemory>
    ensures { OnOk result (out.new.items ≡ out.old.items ++ bytes.now) }
{
    out.extend_from_slice(bytes)?;
    Ok(())
}

fn pairs(out: &mut Vec<u8>, bytes: &[u8]) -> Result<(), NoMemory>
    ensures { OnOk result (out.new.items ≡ out.old.items ++ pairs_text bytes.now) }
{
    push(out, b"x")?;
    for byte in bytes {
        push(out, &hex_pair(*byte))?;
    }
    Ok(())
}

fn times(out: &mut Vec<u8>, n: usize, byte: u8) -> Result<(), NoMemory>
    ensures { OnOk result (out.new.items ≡ out.old.items ++ times_text n byte) }
{
    let mut digits = Buffer::new();
    push(out, digits.format(n).as_bytes())?;
    push(out, b"*")?;
    push(out, &hex_pair(byte))
}

fn stands_quoted(byte: u8) -> bool
    ensures { result ≡ stands_quoted byte }
{
    (b' '..=b'~').contains(&byte) && byte != b'"' && byte != b'\\'
}

#[tactic(auto, unfolding(crate::specs::texts::Spellings::quoted_byte))]
fn quoted_byte(out: &mut Vec<u8>, byte: u8) -> Result<(), NoMemory>
    ensures { OnOk result (out.new.items ≡ out.old.items ++ quoted_byte byte) }
{
    match byte {
        b'"' | b'\\' => push(out, &[b'\\', byte]),
        b'\n' => push(out, b"\\n"),
        _ if stands_quoted(byte) => push(out, &[byte]),
        _ => {
            push(out, b"\\x")?;
            push(out, &hex_pair(byte))
        }
    }
}

fn quoted(out: &mut Vec<u8>, bytes: &[u8]) -> Result<(), NoMemory>
    ensures { OnOk result (out.new.items ≡ out.old.items ++ quoted_text bytes.now) }
{
    push(out, b"\"")?;
    for byte in bytes {
        quoted_byte(out, *byte)?;
    }
    push(out, b"\"")
}

/// How many bytes a byte takes in quotes.
#[tactic(auto, unfolding(crate::specs::texts::Spellings::quoted_byte))]
fn quoted_byte_len(byte: u8) -> u8
    ensures len { result ≡ length (quoted_byte byte) }
    ensures few { result ≤ 4 }
{
    match byte {
        b'"' | b'\\' | b'\n' => 2,
        _ if stands_quoted(byte) => 1,
        _ => 4,
    }
}

fn quoted_len(bytes: &[u8]) -> u128
    ensures { result ≡ length (quoted_text bytes.now) }
{
    let mut len = 2;
    for byte in bytes {
        len += u128::from(quoted_byte_len(*byte));
    }
    len
}

fn times_len(n: usize, byte: u8) -> u128
    ensures { result ≡ length (times_text n byte) }
{
    let mut digits = Buffer::new();
    digits.format(n).len() as u128 + 3
}

fn are_all(byte: u8, bytes: &[u8]) -> bool
    ensures { result ≡ list_all (λ c. c == byte) bytes.now }
{
    bytes.iter().all(|b| *b == byte)
}

/// The byte that these are over and over; `None` also where there is none.
#[tactic(auto, using(crate::proofs::back::Shortest::once_first))]
fn repeated(bytes: &[u8]) -> Option<u8>
    ensures { result ≡ once bytes.now }
{
    match bytes {
        [first, rest @ ..] if are_all(*first, rest) => Some(*first),
        _ => None,
    }
}

/// Whether each stands in quotes as it is. Each is looked at, also after one that doesn't, so that many are looked at at once.
#[tactic(auto, using(std::proofs::lemmas::List::Folds::list_all_more))]
fn are_plain(bytes: &[u8]) -> bool
    ensures { result ≡ list_all stands_quoted bytes.now }
{
    let mut all = true;
    for byte in bytes {
        all &= stands_quoted(*byte);
    }
    all
}

/// Whether the quotes are the shortest spelling, and the bytes stand there as they are.
#[tactic(auto, using(crate::proofs::back::Shortest::plain_quotes))]
fn are_plainly_quoted(bytes: &[u8]) -> bool
    ensures { IsTrue result → codes "\"" ++ (bytes.now ++ codes "\"") ≡ payload_text bytes.now }
{
    bytes.len() >= 2 && repeated(bytes).is_none() && are_plain(bytes)
}

/// The bytes in their shortest spelling; of equally short ones the pairs come first, then n*HH.
fn shortest_text(out: &mut Vec<u8>, bytes: &[u8]) -> Result<(), NoMemory>
    ensures { OnOk result (out.new.items ≡ out.old.items ++ payload_text bytes.now) }
{
    if are_plainly_quoted(bytes) {
        push(out, b"\"")?;
        push(out, bytes)?;
        return push(out, b"\"");
    }
    let by_pairs = bytes.len() as u128 * 2 + 1;
    let in_quotes = quoted_len(bytes);
    if let Some(byte) = repeated(bytes) {
        let by_times = times_len(bytes.len(), byte);
        if by_times < by_pairs && by_times <= in_quotes {
            return times(out, bytes.len(), byte);
        }
    }
    if in_quotes < by_pairs {
        return quoted(out, bytes);
    }
    pairs(out, bytes)
}

/// The byte of a payload n*HH, where that is shorter than the pairs, and no longer than quotes, whatever the byte is.
fn byte_of_times(word: &[u8]) -> Option<u8>
    requires { IsSome (payload_within 1048576 word.now) }
    ensures { IfSome result (λ byte. (2 ≤ length word.now) × (payload_text (unwrap_or (payload_within 1048576 word.now) []) ≡ take (length word.now - 2) word.now ++ hex_pair byte)) }
{
    if !begins_with_digit(word) {
        return None;
    }
    let count = value(&word[..word.len() - 3]).unwrap() as usize;
    if word.len() > count + 2 || word.len() > count * 2 {
        return None;
    }
    two_digits(&word[word.len() - 2..])
}

/// A line of that text whose last word is a payload, with the shortest spelling of it. A byte over and over is put there once.
fn write_payload(
    out: &mut Vec<u8>,
    buffer: &mut Vec<u8>,
    text: &[u8],
    word: &[u8],
) -> Result<(), NoMemory>
    requires last { length word.now ≤ length text.now }
    requires known { IsSome (payload_within 1048576 word.now) }
    ensures { OnOk result (out.new.items ≡ out.old.items ++ (take (length text.now - length word.now) text.now ++ payload_text (unwrap_or (payload_within 1048576 word.now) []))) }
{
    push(out, &text[..text.len() - word.len()])?;
    if let Some(byte) = byte_of_times(word) {
        push(out, &word[..word.len() - 2])?;
        return push(out, &hex_pair(byte));
    }
    Payload::<1_048_576>::of(word).decode_into(buffer)?;
    shortest_text(out, buffer.as_slice())
}

/// What stands behind so many words, none of which has quotes, and their spaces.
fn behind_words(text: &[u8], count: usize) -> &[u8]
    requires plain { (i : ℕ) → i < count → begins 34 (word_at (pieces spot.Front text.now) i) ≡ false }
    requires more { count < length (pieces spot.Front text.now) }
    ensures { pieces spot.Front result.now ≡ drop count (pieces spot.Front text.now) }
{
    let mut rest = text;
    'words: for _ in 0..count {
        let end = place_of(b' ', rest).unwrap();
        rest = &rest[end + 1..];
    }
    rest
}

/// The canonical text of a line of that text, without a line feed: the text itself, but for a payload and a skipped line.
fn write_line(
    out: &mut Vec<u8>,
    buffer: &mut Vec<u8>,
    labels: LabelForm,
    text: &[u8],
) -> Result<(), NoMemory>
    requires { IsLine labels text.now }
    ensures { OnOk result (out.new.items ≡ out.old.items ++ line_text labels (line_in labels text.now)) }
{
    if has_one_spelling(text) {
        return push(out, text);
    }
    if is_skipped(text) {
        return Ok(());
    }
    if begins(b'w', text) {
        return write_payload(out, buffer, text, behind_words(text, 3));
    }
    let mut words = Words::none();
    words.cut(text);
    write_payload(out, buffer, text, words.get(6))
}

/// About how many bytes of a text are put together at once.
const PART: usize = 65_536;

/// Puts the canonical text of the lines from an index on, from 0, behind what is there, up to the line with which that becomes
/// 64 KiB longer or to the last; answers the index behind that line. `NoMemory` where there was none for it.
pub fn write_part(
    alloc: Global,
    out: &mut Vec<u8>,
    script: &Script<'_>,
    first: usize,
) -> Result<usize, NoMemory>
    requires { first ≤ length script.now }
    ensures text { IfOk result (λ end. out.new.items ++ canonical_from script.now end ≡ out.old.items ++ canonical_from script.now first) }
    ensures more { first < length script.now → IfOk result (λ end. first < end) }
    ensures within { IfOk result (λ end. end ≤ length script.now) }
{
    let lines = script.lines();
    let full = out.len().saturating_add(PART);
    let mut buffer = Vec::new(alloc);
    'lines: for index in first..lines.len() {
        let text = lines.text_at(index).unwrap();
        write_line(out, &mut buffer, lines.form(), text)?;
        out.push(b'\n')?;
        if out.len() >= full {
            return Ok(index + 1);
        }
    }
    Ok(lines.len())
}

/// The canonical text of a script. It holds no more memory than a little besides that text.
pub fn write(alloc: Global, script: &Script<'_>) -> Result<Vec<u8>, NoMemory>
    ensures { IfOk result (λ text. text.items ≡ canonical script.now) }
{
    let mut text = Vec::with_capacity(alloc, script.lines().room())?;
    let mut first = 0;
    'parts: while first < script.lines().len() {
        first = write_part(alloc, &mut text, script, first)?;
    }
    Ok(text)
}
