ghost use Rattle.std.specs.Prelude.{◌≡◌, ◌≤◌, ◌-◌, ◌++◌, ◌∷◌, [], length, take, codes, OnOk};
ghost use Rattle.ix_label.specs.Spelling.{spelling};
ghost use Rattle.ix_label.specs.declared.form.Form.TheVariants as form;
ghost use Rattle.ix_model.specs.history.History.{History};
ghost use Rattle.ix_flow.specs.{Lines.{end_line, piece_line, place_text}, Lowerings.{label_of}, Reads.{piece_of}, Sides.{origin_at}};
ghost use Rattle.ix_flow.specs.Tracking.{AreFalls, IsUnder};

use crate::falls::Falls;
use crate::labels::Labels;
use crate::piece::Piece;
use crate::source::Source;
use crate::telling::Read;
use itoa::{Buffer, Integer};
use ix_label::{Form, Label};
use ix_model::NoMemory;
use ix_text::push_label;

/// Bytes at the end of a text.
fn push(out: &mut Vec<u8>, text: &[u8]) -> Result<(), NoMemory>
    ensures stays { take (length out.old.items) out.new.items ≡ out.old.items }
    ensures text { OnOk result (out.new.items ≡ out.old.items ++ text.now) }
{
    match out.extend_from_slice(text) {
        Ok(()) => Ok(()),
        Err(_) => Err(NoMemory),
    }
}

/// A number in decimal, and a byte after it.
#[tactic(auto, using(ix_text::proofs::Items::stays_twice))]
fn push_number<I: Integer>(out: &mut Vec<u8>, n: I, then: u8) -> Result<(), NoMemory>
    ensures stays { take (length out.old.items) out.new.items ≡ out.old.items }
    ensures text { OnOk result (out.new.items ≡ out.old.items ++ (I.text n ++ then ∷ [])) }
{
    let mut digits = Buffer::new();
    push(out, digits.format(n).as_bytes())?;
    push(out, &[then])
}

/// The label that a byte was written under, and the first place since at which the object was let down, and the line's end.
#[tactic(auto, using(ix_text::proofs::Items::stays_twice))]
fn push_under(out: &mut Vec<u8>, label: &Label, fall: Option<u32>) -> Result<(), NoMemory>
    ensures stays { take (length out.old.items) out.new.items ≡ out.old.items }
    ensures text { OnOk result (out.new.items ≡ out.old.items ++ (spelling form.Two label.now ++ codes " " ++ place_text fall ++ codes "\n")) }
{
    push_label(out, Form::Two, label)?;
    match fall {
        Some(place) => {
            push(out, b" ")?;
            push_number(out, place, b'\n')
        }
        None => push(out, b" -\n"),
    }
}

/// The line of a piece of what an entry read.
///
/// After `NoMemory` what stood there stands there still, and maybe a part of the line after it.
#[tactic(auto, using(ix_text::proofs::Items::stays_twice))]
pub fn push_piece(
    out: &mut Vec<u8>,
    labels: &Labels,
    falls: &Falls,
    read: &Read,
    piece: &Piece,
) -> Result<(), NoMemory>
    requires first { read.now.from ≤ piece.now.number }
    ensures stays { take (length out.old.items) out.new.items ≡ out.old.items }
    ensures text { (h : History) → IsUnder labels.now.all.items piece.now.source (label_of h (origin_at piece.now.source piece.now.number)) → AreFalls falls.now h
        → OnOk result (out.new.items ≡ out.old.items ++ piece_line h read.now.place read.now.object.0 (piece_of (piece.now.number - read.now.from) piece.now)) }
{
    push_number(out, read.place, b' ')?;
    push_number(out, piece.number - read.from, b' ')?;
    push_number(out, piece.count, b' ')?;
    match piece.source {
        Source::Write {
            place,
            start,
            label,
        } => {
            push(out, b"write ")?;
            push_number(out, place, b' ')?;
            push_number(out, piece.number.saturating_sub(start), b' ')?;
            push_under(out, &labels.get(label), falls.first(read.object, place))
        }
        Source::File { object, label } => {
            push(out, b"file ")?;
            push_number(out, object, b' ')?;
            push_number(out, piece.number, b' ')?;
            push_under(out, &labels.get(label), falls.first(read.object, 0))
        }
        Source::Gap => push(out, b"gap\n"),
    }
}

/// The last line: how many entries gave bytes, and how many lines there are.
///
/// After `NoMemory` what stood there stands there still, and maybe a part of the line after it.
#[tactic(auto, using(ix_text::proofs::Items::stays_twice))]
pub fn push_end(out: &mut Vec<u8>, reads: u64, lines: u64) -> Result<(), NoMemory>
    ensures stays { take (length out.old.items) out.new.items ≡ out.old.items }
    ensures text { OnOk result (out.new.items ≡ out.old.items ++ end_line (record { reads = reads; lines = lines })) }
{
    push(out, b"end ")?;
    push_number(out, reads, b' ')?;
    push_number(out, lines, b'\n')
}
