ghost use Rattle.std.specs.Prelude.{◌≡◌, ◌+◌, ◌*◌, ◌<◌, ◌≤◌, ℕ, length, IfSome, IfNone, if◌then◌else◌};
ghost use Rattle.ix_label.specs.declared.form.Form.{Form};
ghost use Rattle.ix_policing.specs.{Differing.{are_deciders, difference_at, differ, AllowsMore, AllowsNoMore, AreAlike, Differ, IsFirst, IsFirstAt, IsFirstOfRule}, Spelled.{AreSpelled, IsSpelled}};
ghost use Rattle.ix_policing.specs.Unnamed.{unnamed_user, IsUnnamed};

use crate::common::greatest;
use crate::outcome::{Outcome, Ruling};
use crate::unnamed::unnamed_user;
use ix_label::Steps;
use ix_model::Name;
use ix_policy::{Policy, Request};
use std::sync::ledger::Ledger;

/// A request that two policies decide differently, and how each does.
#[derive(Clone, Copy)]
pub struct Difference {
    pub request: Request,
    pub first: Ruling,
    pub second: Ruling,
}

/// Which differences are sought.
#[derive(Clone, Copy, Debug, PartialEq, Eq)]
pub enum Sought {
    /// All. Two sessions differ also by their ceilings and their licences.
    Every,
    /// Those where the second policy allows what the first denies.
    Allowed,
}

impl Sought {
    /// Whether two outcomes differ as is sought.
    fn differ<L: Ledger>(self, first: &Outcome, second: &Outcome, steps: &mut Steps<L>) -> bool
        ensures differ { result ≡ differ self first.now second.now }
        ensures looks { steps.old ≤ steps.new }
        ensures cost { steps.new ≤ steps.old + 1 }
    {
        match self {
            Sought::Every => !first.same(second, steps),
            Sought::Allowed => first.is_denied() && !second.is_denied(),
        }
    }
}

/// The difference on a request, if the two rulings are those on it.
fn difference_on<L: Ledger>(
    first: &Policy,
    second: &Policy,
    found: &Difference,
    steps: &mut Steps<L>,
) -> Option<Difference>
    ensures difference { result ≡ (if are_deciders first.now second.now found.now.first.rule found.now.second.rule found.now.request then Some found.now else None) }
    ensures looks { steps.old ≤ steps.new }
    ensures cost { steps.new ≤ steps.old + (length first.now + length second.now) }
{
    let own = first.decide(&found.request, steps).rule;
    if own != found.first.rule {
        return None;
    }
    let other = second.decide(&found.request, steps).rule;
    if other != found.second.rule {
        return None;
    }
    Some(*found)
}

/// The difference where the rules of these numbers decide, of the first policy and of the second; 0 stands for no rule. It is on the
/// greatest request that they do. The other user is that of `unnamed_user`; it is found once for all pairs of rules.
#[tactic(auto, unfolding(crate::specs::Differing::difference_at))]
pub fn difference_at<L: Ledger>(
    first: &Policy,
    second: &Policy,
    sought: Sought,
    numbers: (u32, u32),
    other: &Name,
    steps: &mut Steps<L>,
) -> Option<Difference>
    ensures difference { result ≡ difference_at sought first.now second.now other.now numbers.0 numbers.1 }
    ensures looks { steps.old ≤ steps.new }
    ensures cost { steps.new ≤ steps.old + (length first.now + length second.now + 2) }
{
    let (own, theirs) = (first.numbered(numbers.0), second.numbered(numbers.1));
    let (outcome, other_outcome) = (Outcome::of(own), Outcome::of(theirs));
    if !sought.differ(&outcome, &other_outcome, steps) {
        return None;
    }
    match greatest(own, theirs, other, steps) {
        None => None,
        Some(request) => {
            let found = Difference {
                request,
                first: Ruling {
                    rule: numbers.0,
                    outcome,
                },
                second: Ruling {
                    rule: numbers.1,
                    outcome: other_outcome,
                },
            };
            difference_on(first, second, &found, steps)
        }
    }
}

/// The first difference where that rule of the first policy decides; 0 stands for none of its rules.
fn difference_of_rule<L: Ledger>(
    first: &Policy,
    second: &Policy,
    sought: Sought,
    number: u32,
    other: &Name,
    steps: &mut Steps<L>,
) -> Option<Difference>
    ensures some { IfSome result (IsFirstOfRule sought first.now second.now other.now number) }
    ensures none { IfNone result ((l : ℕ) → l < length second.now + 1 → difference_at sought first.now second.now other.now number l ≡ None) }
    ensures looks { steps.old ≤ steps.new }
    ensures cost { steps.new ≤ steps.old + (length second.now + 1) * (length first.now + length second.now + 2) }
{
    for theirs in 0..second.rules().len() as u32 + 1 {
        let numbers = (number, theirs);
        if let Some(found) = difference_at(first, second, sought, numbers, other, steps) {
            return Some(found);
        }
    }
    None
}

/// The first difference that is sought.
fn first_difference<L: Ledger>(
    first: &Policy,
    second: &Policy,
    sought: Sought,
    steps: &mut Steps<L>,
) -> Option<Difference>
    ensures some { IfSome result (IsFirstAt sought first.now second.now) }
    ensures none { IfNone result ((k : ℕ) → k < length first.now + 1 → (l : ℕ) → l < length second.now + 1
        → difference_at sought first.now second.now (unnamed_user first.now second.now) k l ≡ None) }
    ensures unnamed { IsUnnamed (unnamed_user first.now second.now) first.now }
    ensures other_unnamed { IsUnnamed (unnamed_user first.now second.now) second.now }
    ensures cost { steps.new ≤ steps.old + (length first.now + 1) * ((length second.now + 1) * (length first.now + length second.now + 2)) }
{
    let other = unnamed_user(first, second);
    for number in 0..first.rules().len() as u32 + 1 {
        if let Some(found) = difference_of_rule(first, second, sought, number, &other, steps) {
            return Some(found);
        }
    }
    None
}

/// A request of a client that the two policies decide differently; `None` exactly where there is none. Two sessions differ also by
/// their ceilings and their licences. It is the greatest request that its two rules decide, and no earlier pair of rules has one.
///
/// It decides at most 257 times 257 requests under each, and takes no memory.
pub fn find_difference<L: Ledger>(
    first: &Policy,
    second: &Policy,
    steps: &mut Steps<L>,
) -> Option<Difference>
    ensures some { IfSome result (Differ first.now second.now) }
    ensures first { IfSome result (IsFirst Sought.Every first.now second.now) }
    ensures none { IfNone result (AreAlike first.now second.now) }
    ensures spelled { (form : Form) → AreSpelled form first.now → AreSpelled form second.now → IfSome result (λ d. IsSpelled form d.request) }
    ensures cost { steps.new ≤ steps.old + (length first.now + 1) * ((length second.now + 1) * (length first.now + length second.now + 2)) }
{
    first_difference(first, second, Sought::Every, steps)
}

/// A request of a client that the second policy allows and the first denies; `None` exactly where there is none. It is the greatest
/// request that its two rules decide, and no earlier pair of rules has one.
pub fn find_allowed<L: Ledger>(
    first: &Policy,
    second: &Policy,
    steps: &mut Steps<L>,
) -> Option<Difference>
    ensures some { IfSome result (AllowsMore first.now second.now) }
    ensures first { IfSome result (IsFirst Sought.Allowed first.now second.now) }
    ensures none { IfNone result (AllowsNoMore first.now second.now) }
    ensures spelled { (form : Form) → AreSpelled form first.now → AreSpelled form second.now → IfSome result (λ d. IsSpelled form d.request) }
    ensures cost { steps.new ≤ steps.old + (length first.now + 1) * ((length second.now + 1) * (length first.now + length second.now + 2)) }
{
    first_difference(first, second, Sought::Allowed, steps)
}
