//! One of two runs.
ghost use Rattle.std.{specs.Prelude.{◌≡◌, ℕ, None, IfOk}, proofs.Common.{option_map}};
ghost use Rattle.ix_model.specs.world.World.{World};
ghost use Rattle.ix_lanes.specs.{asking.Ruled.{rules_told}, histories.Serial.{first_names, serial_from}, running.Serially.{entries_left}};

use ix_lanes::SerialCalls;
use ix_model::NoMemory;
use ix_policy::Policy;
use ix_script::Script;
use std::alloc::Global;

/// One of two runs: its script, and what that has still to ask for.
#[derive(Drop)]
pub struct Side<'a> {
    pub script: &'a Script<'a>,
    pub calls: SerialCalls<'a>,
}

impl<'a> Side<'a> {
    /// The run of a script before its first call, by the script's policy, if it has one.
    pub fn new(
        alloc: Global,
        script: &'a Script<'a>,
        policy: Option<&'a Policy>,
    ) -> Result<Side<'a>, NoMemory>
        requires policy { option_map (λ p. p.now) policy ≡ rules_told script.now }
        ensures script { IfOk result (λ side. side.script.now ≡ script.now) }
        ensures asks { IfOk result (λ side. side.calls.script ≡ script.now) }
        ensures all { IfOk result (λ side. (w : World) (place : ℕ)
            → entries_left side.calls w place ≡ serial_from script.now w place (first_names script.now) None 1 script.now) }
    {
        Ok(Side {
            script,
            calls: SerialCalls::new(alloc, script, policy)?,
        })
    }
}
