ghost use Rattle.std.specs.Prelude.{◌≡◌, ◌≤◌, ◌<◌, ◌+◌, ◌∷◌, ℕ, List};
ghost use Rattle.ix_flow.specs.{Origins.{Origin}, Lines.{pieces_from}, Sides.{IsLike, source_in}, Reads.{between, piece_of}};

use crate::side::Side;
use crate::source::Source;

/// Bytes in a row of what was read.
#[derive(Clone, Copy)]
pub struct Piece {
    /// The number of the first of them in the side, and how many there are.
    pub number: u32,
    pub count: u32,
    /// Where the first came from: the others follow it.
    pub source: Source,
}

impl Side {
    /// The longest piece from one number on and before another, of the bytes that are there.
    pub(crate) fn piece(&self, number: u32, to: u32) -> Piece
        requires from { self.now.front ≤ number }
        requires some { number < to }
        requires to { to ≤ self.now.end }
        ensures number { result.number ≡ number }
        ensures some { 0 < result.count }
        ensures within { number + result.count ≤ to }
        ensures source { result.source ≡ source_in self.now.runs.entries number }
        ensures longest { (k : ℕ) (origins : List Origin) → IsLike self.now origins → pieces_from k (between self.now.front number to origins)
            ≡ piece_of k result ∷ pieces_from (k + result.count) (between self.now.front (number + result.count) to origins) }
    {
        let source = self.source(number);
        let mut until = self.next(number, to);
        while until < to && self.source(until).same_origin(source) {
            until = self.next(until, to);
        }
        Piece {
            number,
            count: until - number,
            source,
        }
    }
}
