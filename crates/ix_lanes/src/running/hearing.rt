ghost use Rattle.std.specs.Prelude.{◌≡◌, ◌<◌, ◌≤◌, ℕ, IfNone, IfSome, length};
ghost use Rattle.ix_asking.specs.Asking.{Came, IsDue, came_as, first, heard};
ghost use Rattle.ix_script.specs.declared.line.Line.{Line};
ghost use Rattle.ix_lanes.specs.{asking.Asked.{Names, Numbers}, running.Left.{IsHeard, part_left}};

use crate::asking::handed::{Handed, handed_in, who_in};
use crate::running::part::Part;
use ix_asking::{Asks, Copying, Step};
use ix_model::Reply;

/// Lets what asks for calls hear the answer to its next one. `Some` is what came of all, where nothing more is asked for.
#[inline(never)]
fn hear_on<A: Asks>(asks: &mut A, reply: &Reply, bytes: &[u8]) -> Option<A::Came>
    requires due { IsDue (first (A.asking asks.old)) }
    requires few { length bytes.now ≤ 4096 }
    ensures asking { A.asking asks.new ≡ heard (A.asking asks.old) (record { reply = reply.now; bytes = bytes.now }) }
    ensures fewer { A.most asks.new < A.most asks.old }
    ensures on { IfNone result (IsDue (first (A.asking asks.new))) }
    ensures came { IfSome result (λ came. came_as A.came (first (A.asking asks.new)) ≡ Came came) }
{
    asks.hear(reply, bytes);
    match asks.next() {
        Step::Came(came) => Some(came),
        Step::Call { .. } => None,
    }
}

/// Lets a line hear the answer to its next call. `Some` is what comes of it for its names, where it asks for nothing more.
#[inline(always)]
pub fn heard(
    part: &mut Part<'_>,
    copying: &mut Copying,
    reply: &Reply,
    bytes: &[u8],
) -> Option<Handed>
    requires due { (header : Numbers) × (names : Names) × (n : ℕ) × (l : Line) × IsDue (first (part_left header names n l copying.old part.old)) }
    requires few { length bytes.now ≤ 4096 }
    ensures { (header : Numbers) (names : Names) (n : ℕ) (l : Line) → IsDue (first (part_left header names n l copying.old part.old))
        → IsHeard header names n l copying.old part.old copying.new part.new (record { reply = reply.now; bytes = bytes.now }) result }
{
    match part {
        Part::Over => unreachable!(),
        Part::Command(_) => Some(handed_in(reply)),
        Part::Copy => match hear_on(copying, reply, bytes) {
            Some(()) => Some(Handed::Nothing),
            None => None,
        },
        Part::Priv(server) => match hear_on(server, reply, bytes) {
            Some(_) => Some(Handed::Nothing),
            None => None,
        },
        Part::Login(server) => match hear_on(server, reply, bytes) {
            Some(outcome) => Some(who_in(&outcome)),
            None => None,
        },
    }
}
