//! Where bytes came from, on its way out.
ghost use Rattle.std.{specs.Prelude.{◌≡◌, ℕ, [], ◌++◌, List, Option, None}, proofs.Common.{option_map}};
ghost use Rattle.ix_model.specs.history.History.{History};
ghost use Rattle.ix_flow.specs.{Tracking.{AreTracks, counts_of}, Lines.{end_line}};
ghost use Rattle.ix_lanes.specs.asking.Ruled.{rules_told};
ghost use Rattle.ix_script.specs.scripts.Scripts.{config_of};
ghost use Rattle.ix_host.specs.{Traces.{traces}, run.{Run.{Ends}, Outlet.{StandsAt}}};
ghost use Rattle.ix_host.specs.run.Outcome as outcome;

use crate::status::Status;
use crate::streams::outlet::{Failure, finish, told};
use ix_core::{Core, Witness};
use ix_flow::Tracks;
use ix_io::Sink;
use ix_model::{Call, NoMemory, Pid, Reply};
use ix_policy::Policy;
use ix_script::Script;
use ix_serial::run_on;
use std::alloc::Global;

/// What tells where bytes came from while the entries that read them are made.
#[derive(Drop)]
pub struct Tracer<'a, K: Sink> {
    tracks: &'a mut Tracks,
    sink: &'a mut K,
    /// What was told and isn't written yet.
    waiting: &'a mut Vec<u8>,
    failure: Option<Failure>,
}

impl<'a, K: Sink> Tracer<'a, K> {
    /// One to which nothing has happened yet.
    pub fn new(tracks: &'a mut Tracks, sink: &'a mut K, waiting: &'a mut Vec<u8>) -> Tracer<'a, K>
        ensures tracks { (result.tracks.ghost_name ≡ tracks.entry.ghost_name) × (result.tracks.now ≡ tracks.old) }
        ensures sink { (result.sink.ghost_name ≡ sink.entry.ghost_name) × (result.sink.now ≡ sink.old) }
        ensures waiting { (result.waiting.ghost_name ≡ waiting.entry.ghost_name) × (result.waiting.now.items ≡ waiting.old.items) }
        ensures begun { result.failure ≡ None }
    {
        Tracer {
            tracks,
            sink,
            waiting,
            failure: None,
        }
    }
}

impl<K: Sink> Tracer<'_, K> {
    /// Runs the lanes of a script one after the other on a core without entries, for which the tracks stand, and tells where the bytes came from
    /// that they read.
    pub fn trace(
        &mut self,
        alloc: Global,
        core: &mut Core,
        script: &Script<'_>,
        policy: Option<&Policy>,
    ) -> Status
        requires begun { (self.old.failure ≡ None) × (self.old.waiting.now.items ≡ []) }
        requires tracks { AreTracks self.old.tracks.now core.old }
        requires core { core.old ≡ record { config = config_of script.now; events = [] } }
        requires policy { option_map (λ p. p.now) policy ≡ rules_told script.now }
        ensures same { self.new.sink.ghost_name ≡ self.old.sink.ghost_name }
        ensures ends { Ends (outcome.Whole (traces script.now)) result (K.taken self.old.sink.now) (K.taken self.new.sink.now)
            (K.finished self.new.sink.now) (K.faults self.old.sink.now) (K.faults self.new.sink.now) }
    {
        match run_on(alloc, core, script, policy, self) {
            Ok(()) => self.close(),
            Err(NoMemory) => Status::NoMemory,
        }
    }

    /// Tells the last line, of a history whose lines were told, and finishes.
    fn close(&mut self) -> Status
        ensures same { self.new.sink.ghost_name ≡ self.old.sink.ghost_name }
        ensures ends { (first : Option (List ℕ)) (told : List ℕ) (before : ℕ) (h : History)
            → (self.old.failure ≡ None → AreTracks self.old.tracks.now h)
            → StandsAt self.old.failure first (K.taken self.old.sink.now) self.old.waiting.now.items told before (K.faults self.old.sink.now)
            → Ends (outcome.Whole (told ++ end_line (counts_of h))) result first (K.taken self.new.sink.now) (K.finished self.new.sink.now) before (K.faults self.new.sink.now) }
    {
        if self.failure.is_some() {
            return finish(self.sink, self.waiting.as_slice(), self.failure);
        }
        if self.tracks.end(self.waiting).is_err() {
            return Status::NoMemory;
        }
        finish(self.sink, self.waiting.as_slice(), self.failure)
    }
}

impl<K: Sink> Witness for Tracer<'_, K> {
    ghost use Rattle.ix_host.specs.run.Tracer.{HasTraced};

    ghost knows = { λ first h t. (t.sink.ghost_name ≡ first.sink.ghost_name)
        × HasTraced t.tracks.now h t.failure (K.taken first.sink.now) (K.taken t.sink.now) t.waiting.now.items (K.faults first.sink.now) (K.faults t.sink.now) };

    fn see(
        &mut self,
        core: &Core,
        _line: u32,
        pid: Pid,
        _seat: u32,
        call: &Call<'_>,
        reply: &Reply,
        _bytes: &[u8],
    ) {
        if self.failure.is_some() {
            return;
        }
        let line = self.tracks.follow(core, pid, call, reply, self.waiting);
        self.failure = told(self.sink, self.waiting, line);
    }
}
