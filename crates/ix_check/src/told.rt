ghost use Rattle.std.specs.Prelude.{◌≡◌, ◌≢◌, ℕ, List, ◌∷◌, ◌++◌, [], MatchOption};
ghost use Rattle.ix_script.specs.lines.Before.{lanes_of};
ghost use Rattle.ix_judging.specs.Names.{starts, told_from};
ghost use Rattle.ix_check.specs.Plans.{mark};

use itoa::write_digits;
use ix_script::Script;

/// What stands behind these bytes, where a text begins with them.
fn behind<'a>(text: &'a [u8], front: &[u8]) -> Option<&'a [u8]>
    ensures { MatchOption result ((rest : List ℕ) → text.now ≢ front.now ++ rest) (λ rest. text.now ≡ front.now ++ rest.now) }
{
    text.strip_prefix(front)
}

/// Whether a text begins with a lane's name and a space.
fn names_lane(text: &[u8], name: &[u8]) -> bool
    ensures { result ≡ starts (name.now ++ 32 ∷ []) text.now }
{
    match behind(text, name) {
        Some(rest) => behind(rest, b" ").is_some(),
        None => false,
    }
}

/// The seat of the lane with whose name a text begins, a space behind it.
fn seat_named(script: &Script<'_>, text: &[u8]) -> Option<u32>
    ensures { result ≡ told_from 0 [] (lanes_of script.now) text.now }
{
    for seat in 0..script.len() {
        let Some(name) = script.lane(seat) else {
            return None;
        };
        if names_lane(text, name) {
            return Some(seat);
        }
    }
    None
}

/// What stands behind the place of an entry and a space, where a line begins with them.
#[tactic(auto, using(ix_report::proofs::Pairs::decimal_fits))]
fn behind_place(line: &[u8], place: u32) -> Option<&[u8]>
    ensures { MatchOption result ((rest : List ℕ) → line.now ≢ mark place ++ rest) (λ rest. line.now ≡ mark place ++ rest.now) }
{
    let mut room = [b' '; 21];
    let start = write_digits(u64::from(place), &mut room, 20);
    behind(line, &room[start..])
}

/// The seat of the lane that a line names behind the place of its entry, where it begins so.
pub fn told_seat(script: &Script<'_>, place: u32, line: &[u8]) -> Option<u32>
    ensures { result ≡ told_from 0 (mark place) (lanes_of script.now) line.now }
{
    match behind_place(line, place) {
        Some(text) => seat_named(script, text),
        None => None,
    }
}
