ghost use Rattle.std.specs.{Prelude.{◌≡◌, ◌≤◌, ◌+◌, ◌++◌, List, length, take, IfOk, OnOk}, List.{flat_map}};
ghost use Rattle.ix_model.specs.history.History.{History};
ghost use Rattle.ix_flow.specs.{Lines.{piece_line, pieces_from}, Origins.{Origin}, Reads.{IsWithin, between}, Sides.{IsLike}, Tracking.{AreFalls, AreLabelled}};

use crate::falls::Falls;
use crate::labels::Labels;
use crate::lines::push_piece;
use crate::side::Side;
use ix_model::{NoMemory, Obj};

/// What an entry read of a side.
#[derive(Clone, Copy)]
pub struct Read {
    /// The place of the entry.
    pub place: u32,
    /// The object that it read from.
    pub object: Obj,
    /// The number of the first byte in the side, and how many bytes there are.
    pub from: u32,
    pub count: u32,
}

/// Writes the lines of a read, as far as its bytes are there, and gives how many lines there are.
///
/// After `NoMemory` what stood there stands there still, and maybe a part of the lines after it.
#[tactic(auto, using(ix_text::proofs::Items::stays_twice))]
pub fn tell(
    side: &Side,
    labels: &Labels,
    falls: &Falls,
    read: &Read,
    out: &mut Vec<u8>,
) -> Result<u32, NoMemory>
    ensures stays { take (length out.old.items) out.new.items ≡ out.old.items }
    ensures text { (h : History) (origins : List Origin) → IsWithin read.now side.now → IsLike side.now origins → AreLabelled labels.now.all.items h side.now → AreFalls falls.now h
        → OnOk result (out.new.items ≡ out.old.items ++ flat_map (piece_line h read.now.place read.now.object.0) (pieces_from 0 (between side.now.front read.now.from (read.now.from + read.now.count) origins))) }
    ensures lines { (origins : List Origin) → IsWithin read.now side.now → IsLike side.now origins
        → IfOk result (λ n. n ≡ length (pieces_from 0 (between side.now.front read.now.from (read.now.from + read.now.count) origins))) }
{
    let mut number = read.from.max(side.front());
    let to = read.from.saturating_add(read.count).min(side.end());
    let mut lines = 0;
    while number < to {
        let piece = side.piece(number, to);
        push_piece(out, labels, falls, read, &piece)?;
        number += piece.count;
        lines += 1;
    }
    Ok(lines)
}
