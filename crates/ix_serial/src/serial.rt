ghost use Rattle.std.{specs.Prelude.{◌≡◌, ◌<◌, [], false, true, IfOk, OnErr, OnOk}, proofs.Common.{option_map}};
ghost use Rattle.ix_script.specs.scripts.Scripts.{config_of};
ghost use Rattle.ix_lanes.specs.{asking.Ruled.{rules_told}, histories.Serial.{serial}, running.Serially.{most_entries}};
ghost use Rattle.ix_core.specs.Seen.{KnowsOn};
ghost use Rattle.ix_serial.specs.Running.{Stands};

use ix_core::{Core, Witness, read_by};
use ix_lanes::SerialCalls;
use ix_model::{Answer, Buf, Call, NoMemory};
use ix_policy::Policy;
use ix_script::Script;
use std::alloc::Global;

/// Makes the next entry of a script's serial run on a core, before a witness, and says whether one was left.
fn step<W: Witness>(
    core: &mut Core,
    calls: &mut SerialCalls<'_>,
    buf: &mut Buf,
    witness: &mut W,
) -> bool
    requires stands { Stands core.old calls.old }
    ensures stands { Stands core.new calls.new }
    ensures script { calls.new.script ≡ calls.old.script }
    ensures seen { KnowsOn W.knows core.old witness.old core.new witness.new }
    ensures fewer { result ≡ true → most_entries calls.new < most_entries calls.old }
    ensures over { result ≡ false → core.new.events ≡ serial calls.old.script }
{
    // A call and an answer are wide: they are looked at where they lie.
    let mut call = Call::MakePipe;
    let Some(caller) = calls.next_call(&mut call) else {
        return false;
    };
    let (seat, line, pid) = (caller.seat, caller.line, caller.pid);
    witness.before(seat, line);
    let Answer::Given(reply) = &core.call(seat, line, pid, &call, buf) else {
        unreachable!()
    };
    let bytes = read_by(reply, buf);
    witness.see(core, line, pid, seat, &call, reply, bytes);
    calls.hear(reply, bytes);
    true
}

/// Makes the serial run of a script, its lines in order, before a witness, on a core of the script's config without entries. The
/// journal has room for all: `NoMemory` is of the names that lines give alone, and nothing was run then.
pub fn run_on<W: Witness>(
    alloc: Global,
    core: &mut Core,
    script: &Script<'_>,
    policy: Option<&Policy>,
    witness: &mut W,
) -> Result<(), NoMemory>
    requires policy { option_map (λ p. p.now) policy ≡ rules_told script.now }
    requires new { core.old ≡ record { config = config_of script.now; events = [] } }
    ensures serial { OnOk result (core.new ≡ record { config = config_of script.now; events = serial script.now }) }
    ensures seen { OnOk result (KnowsOn W.knows core.old witness.old core.new witness.new) }
    ensures unseen { OnErr result (witness.new ≡ witness.old) }
{
    let mut calls = SerialCalls::new(alloc, script, policy)?;
    let mut buf = [0; 4096];
    'entries: while step(core, &mut calls, &mut buf, witness) {}
    Ok(())
}

/// Makes the serial run of a script on a new core, by the script's policy, before a witness. The core has the script's serial history then, and
/// of that the witness knows. The journal has room for all: `NoMemory` is of the core and of the names that lines give alone, and then the
/// witness has seen nothing.
pub fn run_history<W: Witness>(
    alloc: Global,
    script: &Script<'_>,
    policy: Option<&Policy>,
    witness: &mut W,
) -> Result<Core, NoMemory>
    requires policy { option_map (λ p. p.now) policy ≡ rules_told script.now }
    ensures config { IfOk result (λ core. core.config ≡ config_of script.now) }
    ensures serial { IfOk result (λ core. core.events ≡ serial script.now) }
    ensures seen { IfOk result (λ core. KnowsOn W.knows (record { config = config_of script.now; events = [] }) witness.old core witness.new) }
    ensures unseen { OnErr result (witness.new ≡ witness.old) }
{
    let mut core = Core::boot(alloc, script.config(alloc)?)?;
    run_on(alloc, &mut core, script, policy, witness)?;
    Ok(core)
}
