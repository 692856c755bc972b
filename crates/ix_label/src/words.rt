ghost use Rattle.std.specs.{Prelude.{◌≡◌, ◌<◌, ℕ, length, slice_index, bit_or, bit_and}, Int.{bit_not, w64}};
ghost use Rattle.ix_label.specs.{Words.{AreWords}, Scanning.{FirstBit}};

use std::array;

/// The words whose bits are 1 in one or both of two.
pub(crate) fn union(a: &[u64; 8], b: &[u64; 8]) -> [u64; 8]
    ensures count { length result ≡ 8 }
    ensures words { (k : ℕ) → k < 8 → slice_index result k ≡ bit_or (slice_index a.now k) (slice_index b.now k) }
{
    array::from_fn(|k| a[k] | b[k])
}

/// The words whose bits are 1 in both of two.
pub(crate) fn intersection(a: &[u64; 8], b: &[u64; 8]) -> [u64; 8]
    ensures count { length result ≡ 8 }
    ensures words { (k : ℕ) → k < 8 → slice_index result k ≡ bit_and (slice_index a.now k) (slice_index b.now k) }
{
    array::from_fn(|k| a[k] & b[k])
}

/// The words whose bits are 1 where those of the others are 0.
pub(crate) fn complement(a: &[u64; 8]) -> [u64; 8]
    ensures count { length result ≡ 8 }
    ensures words { (k : ℕ) → k < 8 → slice_index result k ≡ bit_not w64 (slice_index a.now k) }
{
    array::from_fn(|k| !a[k])
}

/// The first bit at or above `from` that is 1, looked for word by word.
pub(crate) fn first_bit(words: &[u64; 8], from: u16) -> Option<u16>
    requires { AreWords words.now }
    ensures { FirstBit words.now from result }
{
    if from >= 512 {
        return None;
    }
    let ahead = words[from as usize / 64] >> (from % 64);
    if ahead != 0 {
        return Some(from + ahead.trailing_zeros() as u16);
    }
    'words: for k in from as usize / 64 + 1..8 {
        if words[k] != 0 {
            return Some(k as u16 * 64 + words[k].trailing_zeros() as u16);
        }
    }
    None
}
