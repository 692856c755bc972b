ghost use Rattle.std.specs.Prelude.{◌≡◌, ◌++◌, ◌+◌, ◌<◌, ◌≤◌};
ghost use Rattle.arrayvec.specs.ArrayVec.{array_vec_len};
ghost use Rattle.ix_text.specs.Spellings.{hex_pair, letter_in, mode_text, privs_text, state_text};

use arrayvec::ArrayVec;
use bitflags::Flags;
use ix_model::{Mode, PrivSet};

/// A set of privileges: a dash, or the letters D, P, C, T and L of DOWN, PRIV, CEIL, THAW and LOG, in this order.
#[tactic(auto, unfolding(crate::specs::Spellings::privs_text))]
pub fn privs_text(set: PrivSet) -> ArrayVec<u8, 5>
    ensures { result.items ≡ privs_text set }
{
    let mut text = ArrayVec::new();
    if set.is_empty() {
        text.push(b'-');
        return text;
    }
    push_letter(&mut text, set, PrivSet::DOWN, b'D');
    push_letter(&mut text, set, PrivSet::PRIV, b'P');
    push_letter(&mut text, set, PrivSet::CEIL, b'C');
    push_letter(&mut text, set, PrivSet::THAW, b'T');
    push_letter(&mut text, set, PrivSet::LOG, b'L');
    text
}

/// A privilege's letter, where the set has the privilege.
fn push_letter(text: &mut ArrayVec<u8, 5>, set: PrivSet, privilege: PrivSet, letter: u8)
    requires { array_vec_len text.old < 5 }
    ensures text { text.new.items ≡ text.old.items ++ letter_in set (letter, privilege.0) }
    ensures more { array_vec_len text.new ≤ array_vec_len text.old + 1 }
{
    if set.contains(privilege) {
        text.push(letter);
    }
}

/// What an open entry serves for: `r`, `w` or `rw`.
pub fn mode_word(mode: Mode) -> &'static [u8]
    ensures { result.now ≡ mode_text mode }
{
    match mode {
        Mode::Read => b"r",
        Mode::Write => b"w",
        Mode::Both => b"rw",
    }
}

/// Whether a label is frozen: `frozen` or `free`.
pub fn state_word(frozen: bool) -> &'static [u8]
    ensures { result.now ≡ state_text frozen }
{
    if frozen { b"frozen" } else { b"free" }
}

/// A byte as two small hexadecimal digits, the higher one first.
pub fn hex_pair(byte: u8) -> [u8; 2]
    ensures { result ≡ hex_pair byte }
{
    let digits = b"0123456789abcdef";
    [digits[(byte / 16) as usize], digits[(byte % 16) as usize]]
}
