ghost use Rattle.std.specs.Prelude.{◌≡◌, ◌+◌, ◌-◌, ◌<◌, ◌≤◌, ◌==◌, ◌&&◌, ◌||◌, nat_le, nat_lt, ℕ, length, IfOk};
ghost use Rattle.std.specs.Int.{bit_at};
ghost use Rattle.ix_label.specs.Category.{has, leq};
ghost use Rattle.ix_image.specs.{Labelled.{label_in}, Meant.{Gives}, Reading.{label_below_at}};

use crate::fault::Fault;
use crate::fields::bytes_at;
use crate::rules::ABOVE_CEILING;
use ix_label::{Label, Steps};
use std::marker::Brand;
use std::sync::ledger::{Blank, Ledger};

/// How many bytes a label has.
pub const LABEL_LEN: usize = 64;

/// The label of 64 bytes: category `c` is bit `c % 8` of byte `c / 8`, where bit 0 is the least.
pub fn label_in(bytes: &[u8]) -> Label
    requires { length bytes.now ≡ 64 }
    ensures { result ≡ label_in bytes.now }
{
    let mut label = Label::bottom();
    for i in 0..64 {
        if bytes[i] != 0 {
            label = with_byte(label, 8 * i as u16, bytes[i]);
        }
    }
    label
}

/// The label with the categories of one byte, the least of which is the first.
fn with_byte(label: Label, first: u16, byte: u8) -> Label
    requires { first + 8 ≤ 512 }
    ensures { (q : ℕ) → has result q ≡ (has label q || (nat_le first q && nat_lt q (first + 8) && bit_at byte (q - first) == 1)) }
{
    let mut more = label;
    for bit in 0..8 {
        if (byte >> bit) & 1 == 1 {
            more = more.with(first + bit);
        }
    }
    more
}

/// The bytes of a label at or below a ceiling.
#[tactic(auto, unfolding(crate::specs::Reading::label_below_at, crate::specs::Reading::label_at))]
pub fn label_below_at<'a>(ceiling: &Label, bytes: &'a [u8]) -> Result<(&'a [u8], &'a [u8]), Fault>
    ensures read { Gives (λ x. (label_in x.0.now, x.1.now)) result (label_below_at ceiling.now bytes.now) }
    ensures long { IfOk result (λ x. length x.0.now ≡ 64) }
{
    let (label, rest) = bytes_at(LABEL_LEN, bytes)?;
    if is_below(&label_in(label), ceiling) {
        Ok((label, rest))
    } else {
        Err(Fault::here(ABOVE_CEILING, bytes))
    }
}

/// Whether each category of a label is in the other, where nobody is told of the look.
fn is_below(label: &Label, ceiling: &Label) -> bool
    ensures { result ≡ leq label.now ceiling.now }
{
    is_below_counted::<Brand>(label, ceiling, Blank::new(1))
}

/// The same, with the look counted under a ledger.
fn is_below_counted<L: Ledger>(label: &Label, ceiling: &Label, blank: Blank) -> bool
    requires name { blank.name ≡ L.name }
    requires parts { blank.parts ≡ L.parts }
    requires some { 0 < L.parts }
    ensures { result ≡ leq label.now ceiling.now }
{
    let mut steps = Steps::<L>::new(blank);
    label.leq(ceiling, &mut steps)
}
