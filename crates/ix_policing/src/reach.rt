ghost use Rattle.std.specs.Prelude.{◌≡◌, ◌+◌, ◌<◌, ◌≤◌, length};
ghost use Rattle.ix_policing.specs.{Reaching.{reach_at, DeadExactly, IsReach}, Unnamed.{unnamed_user}};

use crate::common::greatest;
use crate::unnamed::unnamed_user;
use ix_label::Steps;
use ix_model::Name;
use ix_policy::{Policy, Request};
use std::sync::ledger::Ledger;

/// Whether a rule ever decides what a client asks.
#[derive(Clone, Copy)]
pub enum Reach {
    /// It decides this request, and no greater one.
    Decides(Request),
    /// It decides none: the rule of this number stands before it, and alone covers it.
    Shadowed(u32),
    /// It decides none: it is on grants of no privilege, and nobody asks for none.
    GrantsNothing,
}

/// Whether the rule of that number, from 1, ever decides what a client asks. It takes at most one step for each rule, and one more.
pub fn reach_of<L: Ledger>(policy: &Policy, rule: u32, steps: &mut Steps<L>) -> Reach
    requires from_one { 0 < rule }
    requires there { rule ≤ length policy.now }
    ensures is { result ≡ reach_at policy.now (unnamed_user policy.now policy.now) rule }
    ensures reach { IsReach policy.now rule result }
    ensures dead { DeadExactly policy.now rule }
    ensures cost { steps.new ≤ steps.old + length policy.now + 1 }
{
    reach_at(policy, &unnamed_user(policy, policy), rule, steps)
}

/// The same, where the other user is that of `unnamed_user`; it is found once for all rules of a policy.
#[tactic(auto, unfolding(crate::specs::Reaching::reach_at))]
pub fn reach_at<L: Ledger>(policy: &Policy, other: &Name, rule: u32, steps: &mut Steps<L>) -> Reach
    ensures reach { result ≡ reach_at policy.now other.now rule }
    ensures looks { steps.old ≤ steps.new }
    ensures cost { steps.new ≤ steps.old + length policy.now + 1 }
{
    let own = policy.numbered(rule);
    match greatest(own, own, other, steps) {
        None => Reach::GrantsNothing,
        Some(request) => {
            let verdict = policy.decide(&request, steps);
            if verdict.rule == rule {
                Reach::Decides(request)
            } else {
                Reach::Shadowed(verdict.rule)
            }
        }
    }
}
