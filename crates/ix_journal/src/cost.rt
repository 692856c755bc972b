ghost use Rattle.std.specs.Prelude.{◌≡◌, ◌≤◌};
ghost use Rattle.ix_model.specs.history.{Calls.{op_of}, Cost.{cost_of, cost_of_words}};

use crate::words::{Words, words_in};
use ix_model::Call;

/// What an entry costs besides its words.
pub const ENTRY: u64 = 128;

/// What a call costs: 128, and its words, which are the bytes that it writes, or for each name of its paths the length and
/// one more.
#[tactic(auto, unfolding(ix_model::specs::history::Cost::cost_of))]
pub fn cost_of(call: &Call<'_>) -> u64
    ensures { result ≡ cost_of (op_of call.now) }
{
    ENTRY + cost_of_words(call)
}

fn cost_of_words(call: &Call<'_>) -> u64
    ensures cost { result ≡ cost_of_words (op_of call.now) }
    ensures fits { result ≤ 9223372036854775807 }
{
    match words_in(call) {
        Words::None => 0,
        Words::Bytes(bytes) => bytes.len() as u64,
        Words::Path(path) => path.cost(),
        Words::Paths(first, second) => first.cost() + second.cost(),
    }
}
