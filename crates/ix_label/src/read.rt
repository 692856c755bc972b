ghost use Rattle.std.specs.Prelude.{◌≡◌, ◌+◌, ◌<◌, ◌≤◌, ◌↔◌, ℕ, true, IsTrue, slice_get, length, IfOk, MatchOption, codes, false};
ghost use Rattle.std.specs.{List.{list_all, prefix_len}, Result.{result_err}, Char.{is_ascii_digit}, Str.Parse.{digits_value}};
ghost use Rattle.ix_label.specs.{Category.{Categories, IsLabel}, Forms.{Fits, greatest, whole_run}, Spelling.{spelling}};
ghost use Rattle.ix_label.specs.{Faults.{digits, is_bad, is_text, fault_of}, Reading.{NumberRead, BeginsItem, ItemRead, ItemsRead, order_fault, IsValueOf}};

use crate::fault::LabelFault;
use crate::form::Form;
use crate::label::Label;

/// A number of a text, and the place after its last digit.
#[derive(Clone, Copy)]
struct Number {
    value: u16,
    end: usize,
}

/// An item of a text: the first and the last category of its run, and the place after it.
#[derive(Clone, Copy)]
struct Item {
    first: u16,
    last: u16,
    end: usize,
}

impl Label {
    /// The label that the text spells in the form, or the text's first fault.
    ///
    /// Each label has at most one spelling in a form, the text that [`text_into`](Label::text_into) writes, and
    /// only that is read.
    pub fn read(form: Form, text: &[u8]) -> Result<Label, LabelFault>
        ensures fault { result_err result ≡ fault_of form text.now }
        ensures fits { IfOk result (λ l. Fits form l) }
        ensures ok { IfOk result (λ l. text.now ≡ spelling form l) }
        ensures spelled { (s : Categories) → IsLabel s → Fits form s → text.now ≡ spelling form s → result ≡ Ok s }
    {
        if text.is_empty() {
            Err(LabelFault::Empty)
        } else if text == b"-".as_slice() {
            Ok(Label::bottom())
        } else if text == b"*".as_slice() {
            Ok(Label::all_of(form))
        } else if form.is_whole_run(text) {
            Err(LabelFault::NotLongest { at: 0 })
        } else {
            read_items(form, text)
        }
    }
}

/// Reads the items of a text that is none of the four that [`Label::read`] knows.
fn read_items(form: Form, text: &[u8]) -> Result<Label, LabelFault>
    requires { is_text text.now (whole_run form) ≡ false }
    ensures { ItemsRead form text.now result }
{
    let mut label = Label::bottom();
    let mut last = None;
    let mut at = 0;
    'items: loop {
        let item = read_item(form, text, at, last)?;
        label = label.with_run(item.first, item.last);
        if item.end == text.len() {
            return Ok(label);
        }
        if !stands_at(text, item.end, b',') {
            return Err(LabelFault::BadNumber { at: item.end });
        }
        last = Some(item.last);
        at = item.end + 1;
    }
}

/// Reads the item that begins at `at`, after an item that ended with the number `last`.
fn read_item(form: Form, text: &[u8], at: usize, last: Option<u16>) -> Result<Item, LabelFault>
    requires place { BeginsItem text.now at last }
    requires not_all { is_text text.now (whole_run form) ≡ false }
    ensures { ItemRead form text.now at last result }
{
    let first = read_number(form, text, at)?;
    check_order(last, first.value, at)?;
    if !stands_at(text, first.end, b'-') {
        return Ok(Item {
            first: first.value,
            last: first.value,
            end: first.end,
        });
    }
    let second = read_number(form, text, first.end + 1)?;
    if second.value <= first.value {
        return Err(LabelFault::NotAscending { at: first.end + 1 });
    }
    Ok(Item {
        first: first.value,
        last: second.value,
        end: second.end,
    })
}

/// Whether that byte stands at `at`.
fn stands_at(text: &[u8], at: usize, byte: u8) -> bool
    ensures { IsTrue result ↔ (slice_get text.now at ≡ Some byte) }
{
    text.get(at).copied() == Some(byte)
}

/// Whether an item may begin with `first` at `at`, after an item that ended with `last`.
#[tactic(auto, unfolding(crate::specs::Reading::order_fault))]
fn check_order(last: Option<u16>, first: u16, at: usize) -> Result<(), LabelFault>
    ensures { result_err result ≡ order_fault last first at }
{
    match last {
        None => Ok(()),
        Some(last) => {
            if first <= last {
                Err(LabelFault::NotAscending { at })
            } else if first == last + 1 {
                Err(LabelFault::NotLongest { at })
            } else {
                Ok(())
            }
        }
    }
}

/// Reads the number that is due at `at`.
fn read_number(form: Form, text: &[u8], at: usize) -> Result<Number, LabelFault>
    requires { at ≤ length text.now }
    ensures { NumberRead form text.now at result }
{
    let (_, ahead) = text.split_at(at);
    let digits = leading_digits(ahead);
    if is_bad(digits) {
        return Err(LabelFault::BadNumber { at });
    }
    match value_of(form, digits) {
        Some(value) => Ok(Number {
            value,
            end: at + digits.len(),
        }),
        None => Err(LabelFault::OutOfRange { at }),
    }
}

/// Whether the digits are no number: none, or more than one that begin with 0.
#[tactic(auto, unfolding(crate::specs::Faults::is_bad))]
fn is_bad(digits: &[u8]) -> bool
    ensures { result ≡ is_bad digits.now }
{
    digits.is_empty() || (digits.len() > 1 && digits[0] == b'0')
}

/// The digits that the bytes begin with.
fn leading_digits(bytes: &[u8]) -> &[u8]
    ensures { result.now ≡ digits bytes.now }
{
    let (digits, _) = bytes.split_at(digit_count(bytes));
    digits
}

/// How many digits the bytes begin with.
fn digit_count(bytes: &[u8]) -> usize
    ensures { result ≡ prefix_len is_ascii_digit bytes.now }
{
    bytes.iter().take_while(|b| b.is_ascii_digit()).count()
}

/// The number that the digits write, if it is not above the form's greatest.
fn value_of(form: Form, digits: &[u8]) -> Option<u16>
    requires { list_all is_ascii_digit digits.now ≡ true }
    ensures { MatchOption result (greatest form < digits_value 10 digits.now) (IsValueOf form digits.now) }
{
    let greatest = form.greatest();
    let mut value = 0;
    for digit in digits {
        value = value * 10 + (digit - b'0') as u16;
        if value > greatest {
            return None;
        }
    }
    Some(value)
}
