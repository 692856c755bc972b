ghost use Rattle.std.specs.Prelude.{◌≡◌, ◌+◌, ◌<◌, ◌≤◌, [], OnErr, OnOk, take};
ghost use Rattle.ix_model.specs.history.{Calls.{event_of}, Cost.{cost_of, cost_of_history}, History.{next, with_entry}};
ghost use Rattle.ix_script.specs.scripts.{Need.{need}, Scripts.{config_of}};
ghost use Rattle.ix_core.specs.Seen.{KnowsOn};
ghost use Rattle.ix_asking.specs.Runs.{count_in};

use ix_asking::count_in;
use ix_core::{Core, Witness};
use ix_label::Steps;
use ix_model::{Answer, Buf, Entry, NoMemory, Reply};
use ix_script::Script;
use std::alloc::Global;
use std::marker::Brand;
use std::sync::ledger::{Blank, Ledger};

/// Makes an entry for which the journal has room.
pub fn make<L: Ledger>(
    core: &mut Core,
    entry: &Entry<'_>,
    buf: &mut Buf,
    steps: &mut Steps<L>,
) -> Reply
    requires { cost_of_history core.old.events + cost_of (event_of entry.now).op ≤ core.old.config.journal }
    ensures core { core.new ≡ with_entry core.old (event_of entry.now) }
    ensures reply { result ≡ (next core.old (event_of entry.now)).reply }
    ensures few { count_in result ≤ 4096 }
    ensures shown { take (count_in result) buf.new ≡ (next core.old (event_of entry.now)).bytes }
{
    match core.step(entry.seat, entry.line, entry.pid, &entry.call, buf, steps) {
        Answer::Given(reply) => reply,
        Answer::JournalFull { .. } => unreachable!(),
        Answer::NoMemory => unreachable!(),
    }
}

/// Makes the entries of a history once more, on a core that has none, before a witness.
fn replay_on<W: Witness, L: Ledger>(
    history: &Core,
    replay: &mut Core,
    witness: &mut W,
    steps: &mut Steps<L>,
)
    requires bare { replay.old ≡ record { config = history.now.config; events = [] } }
    requires fits { cost_of_history history.now.events ≤ history.now.config.journal }
    ensures { KnowsOn W.knows replay.old witness.old history.now witness.new }
{
    let mut buf = [0; 4096];
    for made in 0..history.len() {
        let Some(entry) = history.entry(made + 1) else {
            unreachable!()
        };
        let reply = make(replay, &entry, &mut buf, steps);
        let bytes = &buf[..count_in(&reply)];
        witness.see(
            replay,
            entry.line,
            entry.pid,
            entry.seat,
            &entry.call,
            &reply,
            bytes,
        );
    }
}

/// The same on a second core, with the looks at labels counted under a ledger.
fn replay_anew<W: Witness, L: Ledger>(
    alloc: Global,
    script: &Script<'_>,
    history: &Core,
    witness: &mut W,
    blank: Blank,
) -> Result<(), NoMemory>
    requires name { blank.name ≡ L.name }
    requires parts { blank.parts ≡ L.parts }
    requires some { 0 < L.parts }
    requires config { history.now.config ≡ config_of script.now }
    requires fits { cost_of_history history.now.events ≤ need script.now }
    ensures seen { OnOk result (KnowsOn W.knows (record { config = config_of script.now; events = [] }) witness.old history.now witness.new) }
    ensures unseen { OnErr result (witness.new ≡ witness.old) }
{
    let mut core = Core::boot(alloc, script.config(alloc)?)?;
    let mut steps = Steps::<L>::new(blank);
    replay_on(history, &mut core, witness, &mut steps);
    Ok(())
}

/// Makes the history that a core of a script's config has once more, before a witness, which knows of all of it then. It takes
/// the memory of a second core; after `NoMemory` the witness has seen nothing.
pub fn replay<W: Witness>(
    alloc: Global,
    script: &Script<'_>,
    history: &Core,
    witness: &mut W,
) -> Result<(), NoMemory>
    requires config { history.now.config ≡ config_of script.now }
    requires fits { cost_of_history history.now.events ≤ need script.now }
    ensures seen { OnOk result (KnowsOn W.knows (record { config = config_of script.now; events = [] }) witness.old history.now witness.new) }
    ensures unseen { OnErr result (witness.new ≡ witness.old) }
{
    replay_anew::<W, Brand>(alloc, script, history, witness, Blank::new(1))
}
