ghost use Rattle.std.specs.Prelude.{◌≡◌, ◌+◌, ◌≤◌, length, IfSome, IfNone};
ghost use Rattle.ix_policing.specs.Granting.{widest_grant, widest_of, GrantsNowhere, IsWidest};

use ix_label::{Label, Steps};
use ix_model::PrivSet;
use ix_policy::{Policy, Request, Rule};
use std::sync::ledger::Ledger;

/// The greatest label at which that rule grants these privileges; `None` exactly where it grants them at no label. It takes at most
/// one step for each rule.
pub fn widest_grant<L: Ledger>(
    policy: &Policy,
    rule: u32,
    want: PrivSet,
    steps: &mut Steps<L>,
) -> Option<Label>
    ensures widest { result ≡ widest_grant policy.now rule want }
    ensures some { IfSome result (IsWidest policy.now rule want) }
    ensures none { IfNone result (GrantsNowhere policy.now rule want) }
    ensures looks { steps.old ≤ steps.new }
    ensures cost { steps.new ≤ steps.old + length policy.now }
{
    match policy.numbered(rule) {
        None => None,
        Some(own) => widest_of(policy, rule, own, want, steps),
    }
}

/// The same, where that is the rule of that number.
fn widest_of<L: Ledger>(
    policy: &Policy,
    rule: u32,
    own: &Rule,
    want: PrivSet,
    steps: &mut Steps<L>,
) -> Option<Label>
    ensures widest { result ≡ widest_of policy.now rule want (Some own.now) }
    ensures looks { steps.old ≤ steps.new }
    ensures cost { steps.new ≤ steps.old + length policy.now }
{
    if !own.allow {
        return None;
    }
    let label = own.clear;
    if policy.decide(&Request::Grant { label, want }, steps).rule == rule {
        Some(label)
    } else {
        None
    }
}
