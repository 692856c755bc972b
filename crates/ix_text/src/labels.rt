ghost use Rattle.std.specs.{Prelude.{◌≡◌, ◌+◌, ◌<◌, ◌++◌, ◌∷◌, [], length, take, OnOk}, Fmt.{decimal}};
ghost use Rattle.ix_label.specs.Spelling.{spelling, item, items, runs};
ghost use Rattle.ix_text.specs.{Items.{separator}, Labels.{label_in}};

use itoa::Buffer;
use ix_label::{Form, Label, Steps};
use ix_model::NoMemory;
use std::marker::Brand;
use std::sync::ledger::{Blank, Ledger};

/// The label that the word spells in the form; `None` exactly where it spells none.
pub fn label_in(form: Form, word: &[u8]) -> Option<Label>
    ensures { result ≡ label_in form word.now }
{
    match Label::read(form, word) {
        Ok(label) => {
            label.is_label();
            Some(label)
        }
        Err(_) => None,
    }
}

/// Writes a label at the end, in its one spelling of the form: at most 2,048 bytes. No looks at labels are counted.
/// In form One that of a narrow label alone can be read again.
///
/// After `NoMemory` what stood there stands there still, and maybe a part of the spelling after it.
#[inline(always)]
pub fn push_label(out: &mut Vec<u8>, form: Form, label: &Label) -> Result<(), NoMemory>
    ensures stays { take (length out.old.items) out.new.items ≡ out.old.items }
    ensures text { OnOk result (out.new.items ≡ out.old.items ++ spelling form label.now) }
{
    push_spelling::<Brand>(out, form, label, Blank::new(1))
}

/// The same, with a counter of its own.
#[inline(always)]
#[tactic(auto, unfolding(ix_label::specs::Spelling::spelling))]
fn push_spelling<L: Ledger>(
    out: &mut Vec<u8>,
    form: Form,
    label: &Label,
    blank: Blank,
) -> Result<(), NoMemory>
    requires name { blank.name ≡ L.name }
    requires parts { blank.parts ≡ L.parts }
    requires some { 0 < L.parts }
    ensures stays { take (length out.old.items) out.new.items ≡ out.old.items }
    ensures text { OnOk result (out.new.items ≡ out.old.items ++ spelling form label.now) }
{
    let mut steps = Steps::<L>::new(blank);
    if label.same(&Label::bottom(), &mut steps) {
        return push_byte(out, b'-');
    }
    if label.same(&Label::all_of(form), &mut steps) {
        return push_byte(out, b'*');
    }
    push_runs(out, label, &mut steps)
}

/// The items of the longest runs. It stands apart, so that a label of no category is written fast.
#[inline(never)]
fn push_runs<L: Ledger>(
    out: &mut Vec<u8>,
    label: &Label,
    steps: &mut Steps<L>,
) -> Result<(), NoMemory>
    ensures stays { take (length out.old.items) out.new.items ≡ out.old.items }
    ensures text { OnOk result (out.new.items ≡ out.old.items ++ items (runs label.now)) }
{
    let mut from = 0;
    'runs: while let Some((first, last)) = label.run_from(from, steps) {
        push_item(out, from, first, last)?;
        from = last + 1;
    }
    Ok(())
}

/// A run of categories as one item, after a comma unless it is the first: that is looked for from 0 on.
#[tactic(auto, using(crate::proofs::Items::stays_twice))]
fn push_item(out: &mut Vec<u8>, from: u16, first: u16, last: u16) -> Result<(), NoMemory>
    ensures stays { take (length out.old.items) out.new.items ≡ out.old.items }
    ensures text { OnOk result (out.new.items ≡ out.old.items ++ (separator from ++ item (first, last))) }
{
    if from > 0 {
        push_byte(out, b',')?;
    }
    push_run(out, first, last)
}

/// A run of categories: its number, or the first and the last.
#[tactic(auto, using(crate::proofs::Items::stays_twice), unfolding(ix_label::specs::Spelling::item))]
fn push_run(out: &mut Vec<u8>, first: u16, last: u16) -> Result<(), NoMemory>
    ensures stays { take (length out.old.items) out.new.items ≡ out.old.items }
    ensures text { OnOk result (out.new.items ≡ out.old.items ++ item (first, last)) }
{
    push_number(out, first)?;
    if first == last {
        return Ok(());
    }
    push_byte(out, b'-')?;
    push_number(out, last)
}

/// A number in decimal. One of a single digit takes a short way, which stands where it is called.
#[inline(always)]
#[tactic(auto, using(std::proofs::lemmas::Fmt::decimal_digit))]
fn push_number(out: &mut Vec<u8>, n: u16) -> Result<(), NoMemory>
    ensures stays { take (length out.old.items) out.new.items ≡ out.old.items }
    ensures text { OnOk result (out.new.items ≡ out.old.items ++ decimal n) }
{
    if n < 10 {
        return push_byte(out, b'0' + n as u8);
    }
    push_digits(out, n)
}

/// A number of any size.
#[inline(never)]
fn push_digits(out: &mut Vec<u8>, n: u16) -> Result<(), NoMemory>
    ensures stays { take (length out.old.items) out.new.items ≡ out.old.items }
    ensures text { OnOk result (out.new.items ≡ out.old.items ++ decimal n) }
{
    let mut digits = Buffer::new();
    match out.extend_from_slice(digits.format(n).as_bytes()) {
        Ok(()) => Ok(()),
        Err(_) => Err(NoMemory),
    }
}

/// One byte at the end.
#[inline(always)]
fn push_byte(out: &mut Vec<u8>, byte: u8) -> Result<(), NoMemory>
    ensures stays { take (length out.old.items) out.new.items ≡ out.old.items }
    ensures text { OnOk result (out.new.items ≡ out.old.items ++ byte ∷ []) }
{
    match out.push(byte) {
        Ok(()) => Ok(()),
        Err(_) => Err(NoMemory),
    }
}
