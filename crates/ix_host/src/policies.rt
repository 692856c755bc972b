//! The policy of a script.
ghost use Rattle.std.specs.Prelude.{◌≡◌, IfOk};
ghost use Rattle.ix_host.specs.Policies.{IsPolicy};

use ix_model::NoMemory;
use ix_policy::{Policy, PolicyFault};
use ix_script::Script;
use std::alloc::Global;

/// What the policy of a script comes to.
#[derive(Drop)]
pub enum ScriptPolicy {
    /// Its rules; `None` where the script has no policy.
    Rules(Option<Policy>),
    /// It is refused. This is the number of its line.
    Refused(u32),
}

/// Reads the policy of a script, if it has one. `NoMemory` where there was none for its rules.
#[tactic(auto, unfolding(crate::specs::Policies::policy_refusal, ix_lanes::specs::asking::Ruled::rules_told))]
pub fn policy_of(alloc: Global, script: &Script<'_>) -> Result<ScriptPolicy, NoMemory>
    ensures { IfOk result (λ policy. IsPolicy script.now policy) }
{
    let Some((line, text)) = script.policy() else {
        return Ok(ScriptPolicy::Rules(None));
    };
    match Policy::read(alloc, script.form(), text) {
        Ok(policy) => Ok(ScriptPolicy::Rules(Some(policy))),
        Err(PolicyFault::NoMemory) => Err(NoMemory),
        Err(_) => Ok(ScriptPolicy::Refused(line)),
    }
}
