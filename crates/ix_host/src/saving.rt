//! The image of the tree of files that the run of a script leaves.
ghost use Rattle.std.{specs.Prelude.{◌≡◌, ◌≤◌, [], length, IfOk}, proofs.Common.{option_map}};
ghost use Rattle.ix_model.specs.history.History.{world_of};
ghost use Rattle.ix_image.specs.{Image.{image_of}, Taken.{tree_on}};
ghost use Rattle.ix_lanes.specs.asking.Ruled.{rules_told};
ghost use Rattle.ix_script.specs.scripts.Scripts.{config_of};
ghost use Rattle.ix_host.specs.{Saved.{image_left}, run.Run.{Ends}};
ghost use Rattle.ix_host.specs.run.Outcome as outcome;

use crate::status::Status;
use crate::streams::outlet::{finish, room, write_full};
use ix_core::{Core, Witness};
use ix_image::Saving;
use ix_io::Sink;
use ix_model::{Call, FsSpec, NoMemory, Pid, Reply};
use ix_policy::Policy;
use ix_script::Script;
use ix_serial::run_on;
use std::alloc::Global;

/// A witness that looks away: of a run whose end alone is told, it knows nothing.
#[derive(Clone, Copy)]
struct Nobody;

impl Witness for Nobody {
    ghost knows = { λ _ _ _. Unit {0} };

    fn see(
        &mut self,
        _core: &Core,
        _line: u32,
        _pid: Pid,
        _seat: u32,
        _call: &Call<'_>,
        _reply: &Reply,
        _bytes: &[u8],
    ) {}
}

/// The file systems of a script's config, and a core without entries of that config.
fn first_core(alloc: Global, script: &Script<'_>) -> Result<(Vec<FsSpec>, Core), NoMemory>
    ensures fss { IfOk result (λ r. r.0.items ≡ (config_of script.now).fss) }
    ensures few { IfOk result (λ r. length r.0.items ≤ 16) }
    ensures core { IfOk result (λ r. r.1 ≡ record { config = config_of script.now; events = [] }) }
{
    let config = script.config(alloc)?;
    let Ok(fss) = Vec::from_slice(alloc, config.fss.as_slice()) else {
        return Err(NoMemory);
    };
    let core = Core::boot(alloc, config)?;
    Ok((fss, core))
}

/// Writes the image of a core's tree on these file systems, piece by piece.
fn tell_image<K: Sink>(alloc: Global, sink: &mut K, fss: &[FsSpec], core: &Core) -> Status
    requires { length fss.now ≤ 16 }
    ensures { Ends (outcome.Whole (image_of (tree_on fss.now (world_of core.now)))) result (K.taken sink.old) (K.taken sink.new)
        (K.finished sink.new) (K.faults sink.old) (K.faults sink.new) }
{
    let Ok(mut waiting) = room(alloc) else {
        return Status::NoMemory;
    };
    let Ok(mut saving) = Saving::new(alloc, fss, core) else {
        return Status::NoMemory;
    };
    'pieces: while !saving.is_written() {
        if saving.write(&mut waiting).is_err() {
            return Status::NoMemory;
        }
        let failure = write_full(sink, &mut waiting);
        if failure.is_some() {
            return finish(sink, waiting.as_slice(), failure);
        }
    }
    finish(sink, waiting.as_slice(), None)
}

/// Runs the lanes of a script one after the other, and writes the image of the tree that is left.
pub fn save<K: Sink>(
    alloc: Global,
    sink: &mut K,
    script: &Script<'_>,
    policy: Option<&Policy>,
) -> Status
    requires policy { option_map (λ p. p.now) policy ≡ rules_told script.now }
    ensures { Ends (outcome.Whole (image_left script.now)) result (K.taken sink.old) (K.taken sink.new)
        (K.finished sink.new) (K.faults sink.old) (K.faults sink.new) }
{
    let Ok((fss, mut core)) = first_core(alloc, script) else {
        return Status::NoMemory;
    };
    match run_on(alloc, &mut core, script, policy, &mut Nobody) {
        Ok(()) => tell_image(alloc, sink, fss.as_slice(), &core),
        Err(NoMemory) => Status::NoMemory,
    }
}
