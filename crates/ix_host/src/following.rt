//! Where the bytes came from that the processes of a script read.
ghost use Rattle.std.{specs.Prelude.{◌≡◌, [], IfOk}, proofs.Common.{option_map}};
ghost use Rattle.ix_lanes.specs.asking.Ruled.{rules_told};
ghost use Rattle.ix_script.specs.scripts.Scripts.{config_of};
ghost use Rattle.ix_host.specs.{Traces.{traces}, run.Run.{Ends}};
ghost use Rattle.ix_host.specs.run.Outcome as outcome;

use crate::status::Status;
use crate::streams::outlet::room;
use crate::streams::tracer::Tracer;
use ix_core::Core;
use ix_flow::Tracks;
use ix_io::Sink;
use ix_model::NoMemory;
use ix_policy::Policy;
use ix_script::Script;
use std::alloc::Global;

/// A core without entries, of a script's config.
fn first_core(alloc: Global, script: &Script<'_>) -> Result<Core, NoMemory>
    ensures { IfOk result (λ core. core ≡ record { config = config_of script.now; events = [] }) }
{
    Core::boot(alloc, script.config(alloc)?)
}

/// Runs the lanes of a script one after the other, and writes where the bytes came from that they read, while they do.
pub fn flow<K: Sink>(
    alloc: Global,
    sink: &mut K,
    script: &Script<'_>,
    policy: Option<&Policy>,
) -> Status
    requires policy { option_map (λ p. p.now) policy ≡ rules_told script.now }
    ensures { Ends (outcome.Whole (traces script.now)) result (K.taken sink.old) (K.taken sink.new)
        (K.finished sink.new) (K.faults sink.old) (K.faults sink.new) }
{
    let Ok(mut core) = first_core(alloc, script) else {
        return Status::NoMemory;
    };
    let (Ok(mut tracks), Ok(mut waiting)) = (Tracks::new(alloc, &core), room(alloc)) else {
        return Status::NoMemory;
    };
    Tracer::new(&mut tracks, sink, &mut waiting).trace(alloc, &mut core, script, policy)
}
