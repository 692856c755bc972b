ghost use Rattle.std.specs.{Prelude.{◌≡◌, ℕ, ◌≤◌, ◌<◌, ◌+◌, List, ◌∷◌, IfSome}, Int.RustNames.{bit_and}};
ghost use Rattle.ix_text.specs.{Spellings.{letters}, Privs.{bits_from, privs_of}};

use crate::bytes::{begins, is};
use bitflags::Flags;
use ix_model::PrivSet;

/// The set of the privileges that these bits stand for. Bits outside the five stand for none, and are dropped.
#[tactic(auto, unfolding(bitflags::specs::Sets::known_from))]
pub fn set_of_bits(bits: u8) -> PrivSet
    ensures five { result.0 ≡ bit_and bits 31 }
    ensures within { bits < 32 → result.0 ≡ bits }
{
    PrivSet::from_bits_truncate(bits)
}

/// The bits with that of the letter, where the word begins with it, and what follows it.
fn after_letter(bits: u8, letter: u8, bit: u8, word: &[u8]) -> (u8, &[u8])
    requires { bits + bit < 256 }
    ensures goes_on { (more : List (ℕ × ℕ)) → bits_from result.0 more result.1.now ≡ bits_from bits ((letter, bit) ∷ more) word.now }
    ensures most { result.0 ≤ bits + bit }
{
    if begins(letter, word) {
        (bits + bit, &word[1..])
    } else {
        (bits, word)
    }
}

fn bits(word: &[u8]) -> Option<u8>
    ensures bits { result ≡ bits_from 0 letters word.now }
    ensures five { IfSome result (λ bits. bits < 32) }
{
    let (down, rest) = after_letter(0, b'D', 1, word);
    let (to_priv, rest) = after_letter(down, b'P', 2, rest);
    let (to_ceil, rest) = after_letter(to_priv, b'C', 4, rest);
    let (to_thaw, rest) = after_letter(to_ceil, b'T', 8, rest);
    let (all, rest) = after_letter(to_thaw, b'L', 16, rest);
    rest.is_empty().then_some(all)
}

/// The set of privileges that the word spells: a dash, or some of the letters D, P, C, T and L of DOWN, PRIV, CEIL, THAW and LOG,
/// in this order; `None` exactly where it spells none.
#[tactic(auto, unfolding(crate::specs::Privs::privs_of))]
pub fn privs_of(word: &[u8]) -> Option<PrivSet>
    ensures { result ≡ privs_of word.now }
{
    if is(word, b"-") {
        return Some(PrivSet::empty());
    }
    if word.is_empty() {
        return None;
    }
    let bits = bits(word)?;
    Some(set_of_bits(bits))
}
