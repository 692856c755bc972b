//! A report on its way out.
ghost use Rattle.std.{specs.Prelude.{◌≡◌, ℕ, ◌≤◌, ◌++◌, List, Option, None, IfOk, length}, proofs.Common.{option_map}};
ghost use Rattle.ix_model.specs.history.{Cost.{cost_of_history}, History.{world_of}};
ghost use Rattle.ix_lanes.specs.{asking.Ruled.{rules_told}, histories.Serial.{serial}};
ghost use Rattle.ix_script.specs.{lines.Before.{form_told}, scripts.{Need.{need}, Scripts.{config_of}}};
ghost use Rattle.ix_report.specs.LineText.{head_line};
ghost use Rattle.ix_replay.specs.report.Report.{closing_text, report_of};
ghost use Rattle.ix_host.specs.run.Outcome as outcome;
ghost use Rattle.ix_host.specs.run.{Run.{Ends}, Outlet.{StandsAt}};

use crate::status::Status;
use crate::streams::outlet::{Failure, finish, room, told, write_full};
use ix_core::{Core, Witness};
use ix_io::Sink;
use ix_label::Form;
use ix_model::{Call, NoMemory, Pid, Reply};
use ix_parallel::{NoWatch, Watch};
use ix_policy::Policy;
use ix_replay::{Closing, push_entry, replay};
use ix_report::head;
use ix_script::Script;
use ix_serial::run_history;
use std::alloc::Global;

/// What tells the report of a script while its entries are made.
#[derive(Drop)]
struct Teller<'a, K: Sink, W> {
    script: &'a Script<'a>,
    sink: &'a mut K,
    /// What is told of each call before it is made.
    watch: &'a W,
    /// What was told and isn't written yet.
    waiting: &'a mut Vec<u8>,
    failure: Option<Failure>,
}

/// The first line of a report in the form, in memory that has room for what is gathered.
fn begun(alloc: Global, form: Form) -> Result<Vec<u8>, NoMemory>
    ensures { IfOk result (λ waiting. waiting.items ≡ head_line form) }
{
    let mut waiting = room(alloc)?;
    head(&mut waiting, form)?;
    Ok(waiting)
}

impl<'a, K: Sink, W> Teller<'a, K, W> {
    /// One to which nothing has happened yet, of what waits to be written.
    fn new(
        script: &'a Script<'a>,
        sink: &'a mut K,
        watch: &'a W,
        waiting: &'a mut Vec<u8>,
    ) -> Teller<'a, K, W>
        ensures script { result.script.now ≡ script.now }
        ensures sink { (result.sink.ghost_name ≡ sink.entry.ghost_name) × (result.sink.now ≡ sink.old) }
        ensures waiting { (result.waiting.ghost_name ≡ waiting.entry.ghost_name) × (result.waiting.now.items ≡ waiting.old.items) }
        ensures begun { result.failure ≡ None }
    {
        Teller {
            script,
            sink,
            watch,
            waiting,
            failure: None,
        }
    }
}

impl<K: Sink, W: Watch> Teller<'_, K, W> {
    /// Tells what closes the report of a history, and finishes.
    fn close(&mut self, history: &Core) -> Status
        ensures same { self.new.sink.ghost_name ≡ self.old.sink.ghost_name }
        ensures ends { (first : Option (List ℕ)) (told : List ℕ) (before : ℕ)
            → StandsAt self.old.failure first (K.taken self.old.sink.now) self.old.waiting.now.items told before (K.faults self.old.sink.now)
            → Ends (outcome.Whole (told ++ closing_text (form_told self.old.script.now) (world_of history.now) (length history.now.events))) result first (K.taken self.new.sink.now)
            (K.finished self.new.sink.now) before (K.faults self.new.sink.now) }
    {
        let mut closing = Closing::new(self.script.form(), history);
        'pieces: while !closing.is_told() {
            if self.failure.is_some() {
                return finish(self.sink, self.waiting.as_slice(), self.failure);
            }
            if closing.tell(self.waiting).is_err() {
                return Status::NoMemory;
            }
            self.failure = write_full(self.sink, self.waiting);
        }
        finish(self.sink, self.waiting.as_slice(), self.failure)
    }

    /// Runs the lanes of the script one after the other, and tells the report of that while it is made.
    fn tell_serial(&mut self, alloc: Global, policy: Option<&Policy>) -> Status
        requires begun { (self.old.failure ≡ None) × (self.old.waiting.now.items ≡ head_line (form_told self.old.script.now)) }
        requires policy { option_map (λ p. p.now) policy ≡ rules_told self.old.script.now }
        ensures same { self.new.sink.ghost_name ≡ self.old.sink.ghost_name }
        ensures ends { Ends (outcome.Whole (report_of self.old.script.now (serial self.old.script.now))) result (K.taken self.old.sink.now) (K.taken self.new.sink.now)
            (K.finished self.new.sink.now) (K.faults self.old.sink.now) (K.faults self.new.sink.now) }
    {
        let script = self.script;
        match run_history(alloc, script, policy, self) {
            Ok(history) => self.close(&history),
            Err(NoMemory) => Status::NoMemory,
        }
    }

    /// Has a history of the script made once more, and tells the report of it.
    fn tell_again(&mut self, alloc: Global, history: &Core) -> Status
        requires begun { (self.old.failure ≡ None) × (self.old.waiting.now.items ≡ head_line (form_told self.old.script.now)) }
        requires config { history.now.config ≡ config_of self.old.script.now }
        requires fits { cost_of_history history.now.events ≤ need self.old.script.now }
        ensures same { self.new.sink.ghost_name ≡ self.old.sink.ghost_name }
        ensures ends { Ends (outcome.Whole (report_of self.old.script.now history.now.events)) result (K.taken self.old.sink.now) (K.taken self.new.sink.now)
            (K.finished self.new.sink.now) (K.faults self.old.sink.now) (K.faults self.new.sink.now) }
    {
        let script = self.script;
        match replay(alloc, script, history, self) {
            Ok(()) => self.close(history),
            Err(NoMemory) => Status::NoMemory,
        }
    }
}

impl<K: Sink, W: Watch> Witness for Teller<'_, K, W> {
    ghost use Rattle.ix_host.specs.run.Teller.{HasTold};

    ghost knows = { λ first h t. (t.sink.ghost_name ≡ first.sink.ghost_name) × (t.script.now ≡ first.script.now)
        × HasTold first.script.now first.waiting.now.items h t.failure (K.taken first.sink.now) (K.taken t.sink.now) t.waiting.now.items (K.faults first.sink.now) (K.faults t.sink.now) };

    fn before(&self, seat: u32, line: u32) {
        self.watch.before(seat, line);
    }

    fn see(
        &mut self,
        core: &Core,
        line: u32,
        pid: Pid,
        seat: u32,
        call: &Call<'_>,
        reply: &Reply,
        bytes: &[u8],
    ) {
        if self.failure.is_some() {
            return;
        }
        let (out, script) = (&mut *self.waiting, self.script);
        let line = push_entry(out, script, core, line, pid, seat, call, reply, bytes);
        self.failure = told(self.sink, self.waiting, line);
    }
}

/// Runs the lanes of a script one after the other, and writes the report of that while it is made. The watch is told of each call before it
/// is made.
pub fn report_serial<K: Sink, W: Watch>(
    alloc: Global,
    sink: &mut K,
    script: &Script<'_>,
    policy: Option<&Policy>,
    watch: &W,
) -> Status
    requires policy { option_map (λ p. p.now) policy ≡ rules_told script.now }
    ensures { Ends (outcome.Whole (report_of script.now (serial script.now))) result (K.taken sink.old) (K.taken sink.new)
        (K.finished sink.new) (K.faults sink.old) (K.faults sink.new) }
{
    let Ok(mut waiting) = begun(alloc, script.form()) else {
        return Status::NoMemory;
    };
    Teller::new(script, sink, watch, &mut waiting).tell_serial(alloc, policy)
}

/// A watch of which nothing is made.
fn nobody<'a>() -> &'a NoWatch {
    &NoWatch
}

/// Writes the report of a history of a script, which is made once more for that.
pub fn report<K: Sink>(alloc: Global, sink: &mut K, script: &Script<'_>, history: &Core) -> Status
    requires config { history.now.config ≡ config_of script.now }
    requires fits { cost_of_history history.now.events ≤ need script.now }
    ensures { Ends (outcome.Whole (report_of script.now history.now.events)) result (K.taken sink.old) (K.taken sink.new)
        (K.finished sink.new) (K.faults sink.old) (K.faults sink.new) }
{
    let Ok(mut waiting) = begun(alloc, script.form()) else {
        return Status::NoMemory;
    };
    Teller::new(script, sink, nobody(), &mut waiting).tell_again(alloc, history)
}
