ghost use Rattle.std.specs.Prelude.{◌≡◌, ◌<◌};
ghost use Rattle.ix_policy.specs.Deciding.{decide};

use ix_label::Steps;
use ix_policy::{Policy, Request, Verdict};
use std::marker::Brand;
use std::sync::ledger::{Blank, Ledger};

/// What the policy decides on the request. No looks at labels are counted.
pub fn decided(policy: &Policy, request: &Request) -> Verdict
    ensures { result ≡ decide policy.now request.now }
{
    decided_counting::<Brand>(policy, request, Blank::new(1))
}

/// The same, with a counter of its own.
fn decided_counting<L: Ledger>(policy: &Policy, request: &Request, blank: Blank) -> Verdict
    requires name { blank.name ≡ L.name }
    requires parts { blank.parts ≡ L.parts }
    requires some { 0 < L.parts }
    ensures { result ≡ decide policy.now request.now }
{
    let mut steps = Steps::<L>::new(blank);
    policy.decide(request, &mut steps)
}
