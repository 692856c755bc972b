ghost use Rattle.std.specs.{Prelude.{◌≡◌, ◌+◌, ◌≤◌, length, option_map}, Option.{option_copied}};
ghost use Rattle.ix_policy.specs.Deciding.{numbered};
ghost use Rattle.ix_policing.specs.Outcomes.{is_denied, outcome_of, ruling, same_outcome};

use ix_label::{Label, Steps};
use ix_model::{Name, PrivSet};
use ix_policy::{Act, Policy, Request, Rule};
use std::sync::ledger::Ledger;

/// What comes of a request.
#[derive(Clone, Copy)]
pub enum Outcome {
    Denied,
    /// The process gets what it wants.
    Granted,
    /// A session is opened, with this ceiling and these licences.
    Opened { ceiling: Label, licences: PrivSet },
}

/// The rule that decides a request, or 0 where none does, and what comes of the request.
#[derive(Clone, Copy)]
pub struct Ruling {
    pub rule: u32,
    pub outcome: Outcome,
}

impl Outcome {
    /// What comes of a request that this rule decides; where none does, it is denied.
    pub fn of(rule: Option<&Rule>) -> Outcome
        ensures { result ≡ outcome_of (option_copied rule.entry) }
    {
        match rule {
            None => Outcome::Denied,
            Some(rule) => Outcome::under(rule),
        }
    }

    fn under(rule: &Rule) -> Outcome
        ensures { result ≡ outcome_of (Some rule.now) }
    {
        if !rule.allow {
            return Outcome::Denied;
        }
        match rule.act {
            Act::Grant => Outcome::Granted,
            Act::Session => Outcome::Opened {
                ceiling: rule.clear,
                licences: rule.privs,
            },
        }
    }

    /// Whether nothing is given.
    pub fn is_denied(&self) -> bool
        ensures { result ≡ is_denied self.now }
    {
        matches!(self, Outcome::Denied)
    }

    /// Whether the two are the same. Where the ceilings decide, that is one step.
    pub fn same<L: Ledger>(&self, other: &Outcome, steps: &mut Steps<L>) -> bool
        ensures same { result ≡ same_outcome self.now other.now }
        ensures looks { steps.old ≤ steps.new }
        ensures cost { steps.new ≤ steps.old + 1 }
    {
        match (self, other) {
            (Outcome::Denied, Outcome::Denied) => true,
            (Outcome::Granted, Outcome::Granted) => true,
            (
                Outcome::Opened { ceiling, licences },
                Outcome::Opened {
                    ceiling: other_ceiling,
                    licences: other_licences,
                },
            ) => licences == other_licences && ceiling.same(other_ceiling, steps),
            _ => false,
        }
    }
}

/// Which rule decides a request, and what comes of it. It takes at most one step for each rule.
#[tactic(auto, unfolding(crate::specs::Outcomes::outcome))]
pub fn ruling_on<L: Ledger>(policy: &Policy, request: &Request, steps: &mut Steps<L>) -> Ruling
    ensures ruling { result ≡ ruling policy.now request.now }
    ensures looks { steps.old ≤ steps.new }
    ensures cost { steps.new ≤ steps.old + length policy.now }
{
    let rule = policy.decide(request, steps).rule;
    let outcome = Outcome::of(policy.numbered(rule));
    Ruling { rule, outcome }
}

/// The ruling on a session of that user at the label of the rule of that number, from 1; `None` exactly where there is no such rule.
pub fn session_ruling<L: Ledger>(
    policy: &Policy,
    user: &Name,
    rule: u32,
    steps: &mut Steps<L>,
) -> Option<Ruling>
    ensures ruling { result ≡ option_map (λ r. ruling policy.now (Request.Session user.now r.clear)) (numbered policy.now rule) }
    ensures looks { steps.old ≤ steps.new }
    ensures cost { steps.new ≤ steps.old + length policy.now }
{
    match policy.clear(rule) {
        None => None,
        Some(label) => {
            let request = Request::Session { user: *user, label };
            Some(ruling_on(policy, &request, steps))
        }
    }
}
