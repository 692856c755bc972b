//! What the seats of lanes learn of each other before and after a phase.
ghost use Rattle.std.specs.Prelude.{◌≡◌, ◌≢◌, ◌<◌, ◌≤◌, ◌++◌, length};
ghost use Rattle.ix_parallel.specs.Meeting.{FirstLearns, LearnOfFirst, MayMeet, Meets, SameKernel};

use crate::watch::Watched;
use ix_lanes::Lane;

/// A seat of a kernel, which takes over what another has seen of the history.
trait Learner {
    ghost use Rattle.std.specs.Prelude.{◌≡◌};

    /// The first may learn of the second.
    ghost may_meet: { Self → Self → Type 0 };

    /// The first comes to the third state when it learns of the second.
    ghost learns: { Self → Self → Self → Type 0 };

    /// Takes over what another seat has seen; that one stays as it is.
    fn meet(&mut self, other: &mut Self)
        requires { may_meet self.old other.old }
        ensures learns { learns self.old other.old self.new }
        ensures other { other.new ≡ other.old };
}

impl<'a, R, W> Learner for Lane<'_, Watched<'a, R, W>> {
    ghost use Rattle.std.specs.Prelude.{◌≡◌};
    ghost use Rattle.ix_parallel.specs.Meeting.{LearnsOf};

    ghost may_meet = { λ one other. one.sys.kernel ≡ other.sys.kernel };

    ghost learns = { λ one other after. LearnsOf one other after };

    fn meet(&mut self, other: &mut Self) {
        self.sys.meet(&mut other.sys);
    }
}

/// Lets one of these meet the first behind them.
fn meet_behind<T: Learner>(front: &mut [T], back: &mut [T], one: usize)
    requires within { (one < length front.old) × (0 < length back.old) }
    requires may { MayMeet T.may_meet one (length front.old) (front.old ++ back.old) }
    ensures { Meets T.learns one (length front.old) (front.old ++ back.old) (front.new ++ back.new) }
{
    front[one].meet(&mut back[0]);
}

/// Lets the first behind these meet one of them.
fn meet_before<T: Learner>(front: &mut [T], back: &mut [T], other: usize)
    requires within { (other < length front.old) × (0 < length back.old) }
    requires may { MayMeet T.may_meet (length front.old) other (front.old ++ back.old) }
    ensures { Meets T.learns (length front.old) other (front.old ++ back.old) (front.new ++ back.new) }
{
    back[0].meet(&mut front[other]);
}

/// Lets one meet a later one.
fn meet_later<T: Learner>(all: &mut [T], one: usize, other: usize)
    requires within { (one < other) × (other < length all.old) }
    requires may { MayMeet T.may_meet one other all.old }
    ensures { Meets T.learns one other all.old all.new }
{
    let (front, back) = all.split_at_mut(other);
    meet_behind(front, back, one)
}

/// Lets one meet an earlier one.
fn meet_earlier<T: Learner>(all: &mut [T], one: usize, other: usize)
    requires within { (other < one) × (one < length all.old) }
    requires may { MayMeet T.may_meet one other all.old }
    ensures { Meets T.learns one other all.old all.new }
{
    let (front, back) = all.split_at_mut(one);
    meet_before(front, back, other)
}

/// Lets one meet another.
fn meet_two<T: Learner>(all: &mut [T], one: usize, other: usize)
    requires within { (one < length all.old) × (other < length all.old) × (one ≢ other) }
    requires may { MayMeet T.may_meet one other all.old }
    ensures { Meets T.learns one other all.old all.new }
{
    if one < other {
        meet_later(all, one, other);
    } else {
        meet_earlier(all, one, other);
    }
}

/// Lets the seat of each of these lanes but the first meet that of the first lane: it has then seen what that has. It takes no more steps than
/// there are lanes.
pub fn learn_of_first<'a, R, W>(lanes: &mut [Lane<'_, Watched<'a, R, W>>], parts: &[bool; 64])
    requires few { length lanes.old ≤ 64 }
    requires kernel { SameKernel lanes.old }
    ensures { LearnOfFirst parts.now (length lanes.old) lanes.old lanes.new }
{
    for one in 1..lanes.len() {
        if parts[one] {
            meet_two(lanes, one, 0);
        }
    }
}

/// Lets the seat of the first lane meet that of each of these: it has then seen what they have. It takes no more steps than there are lanes.
pub fn first_learns<'a, R, W>(lanes: &mut [Lane<'_, Watched<'a, R, W>>], parts: &[bool; 64])
    requires few { length lanes.old ≤ 64 }
    requires kernel { SameKernel lanes.old }
    ensures { FirstLearns parts.now (length lanes.old) lanes.old lanes.new }
{
    for other in 1..lanes.len() {
        if parts[other] {
            meet_two(lanes, 0, other);
        }
    }
}
