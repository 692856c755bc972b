ghost use Rattle.std.specs.Prelude.{◌≡◌, [], ◌++◌, length, take, drop, min, ◌==◌, ◌-◌, ◌≤◌, ◌<◌, IfOk, IsTrue, None, Some, if◌then◌else◌, slice_get};
ghost use Rattle.std.specs.Option.{option_and_then, option_map};
ghost use Rattle.ix_model.specs.{history.AuditLog.{audit_log}, history.Calls.{op_of, event_of}, history.Cost.{cost_of_history}, history.Made.{entry}};
ghost use Rattle.ix_model.specs.{history.History.{world_of, next}, history.Seats.{made_by, GoesOn}, history.Systems.{made_after, FullFor, Fits, LeavesRest}};
ghost use Rattle.ix_model.specs.{history.Views.{view_of, shown_of, size_at, bytes_inside, names_there}, history.Freshness.{is_fresh}, laws.Sound.{Sound}};
ghost use Rattle.ix_model.specs.{opening.{Opening.{opening_world}, Valid.{is_valid}}, world.{World.{at}, Directories.{IsBehind}, NameRefs.{name_of}}};
ghost use Rattle.ix_model.specs.rows.Walks.{behind};
ghost use Rattle.ix_iso.specs.Noninterference.{Noninterferent};
ghost use Rattle.ix_fcalls.specs.Spots.{view_through};
ghost use Rattle.ix_core.specs.{Marking.{way_of, goes_fresh}, Stepping.{StepsTo, Shows, AnswersAlike, StepsAs, MakesNext}, Stops.{StopsWhereFull}};

use crate::marking::{call_checked, goes_fresh, is_own_label, known, own_label};
use ix_float::Way;
use ix_journal::Journal;
use ix_label::Steps;
use ix_machine::Machine;
use ix_marks::Marks;
use ix_model::{
    Answer, AuditLine, Buf, Call, Config, Entry, Fd, Name, NameRef, NoMemory, Obj, ObjView, Pid,
    PrivSet, ProcView,
};
use ix_open::OpenView;
use std::alloc::Global;
use std::marker::{Brand, Model};
use std::sync::ledger::{Blank, Ledger};

/// A machine with the config that it started from, the journal of the history that led to it, and the marks of the descriptors
/// that are fresh after it.
///
/// Contracts see the config and the history: the core stands for the world to which they lead. All memory is taken by
/// [`boot`](Core::boot).
#[derive(Drop)]
pub struct Core {
    config: Config,
    machine: Machine,
    journal: Journal,
    marks: Marks,
}

impl Model for Core {
    ghost use Rattle.std.specs.Coded.{codes};
    ghost use Rattle.ix_label.specs.contracts.label.Label as label_type;
    ghost use Rattle.ix_model.specs.history.History.{History};
    ghost use Rattle.ix_core.specs.Marking.{IsKept};

    ghost Value = { History };

    ghost coded = { Prim.hlevel (codes, label_type.the_row.coded) };

    ghost view = { λ c. record { config = c.config; events = c.journal.events } };

    ghost invariant = { λ c. IsKept c.machine c.journal c.marks (record { config = c.config; events = c.journal.events }) };
}

impl Core {
    /// A core without entries, of a valid config. It keeps the config, and takes all memory that there will be, the
    /// journal's with it; after `NoMemory` the config is dropped.
    pub fn boot(alloc: Global, config: Config) -> Result<Core, NoMemory>
        requires { IsTrue (is_valid config) }
        ensures { IfOk result (λ c. c ≡ record { config = config; events = [] }) }
    {
        let machine = Machine::boot(alloc, &config)?;
        let journal = Journal::new(alloc, config.journal)?;
        let limits = config.limits;
        let marks = Marks::new(alloc, limits.procs, machine.objects(), limits.opens)?;
        Ok(Core {
            config,
            machine,
            journal,
            marks,
        })
    }

    /// Makes a call: `Given` is the machine's reply, and the call is the next entry of the history. A read's bytes are
    /// then at the front of the buffer, and the rest of it stays. `JournalFull` comes exactly where the entry's cost and
    /// the cost of the entries before it are above the config's journal; nothing has changed then, and the call wasn't
    /// made. `NoMemory` never comes. A reply is a refusal, or what the call's row passes, within its bounds.
    ///
    /// A read through a descriptor that is [`fresh`](Core::fresh) for reading looks at no label, nor does a write through one
    /// that is fresh for writing.
    ///
    /// What a process at or below a label is told is the same in each run whose history agrees with the core's own at that
    /// label, from the config's opening world or one alike to it, as long as no entry lets something down across the label.
    pub fn step<L: Ledger>(
        &mut self,
        seat: u32,
        line: u32,
        pid: Pid,
        call: &Call<'_>,
        buf: &mut Buf,
        steps: &mut Steps<L>,
    ) -> Answer
        ensures step { StepsTo result self.old self.new buf.old buf.new (record { seat = seat; line = line; pid = pid.0; op = op_of call.now }) }
        ensures shown { Shows result buf.new (next self.old (record { seat = seat; line = line; pid = pid.0; op = op_of call.now })).bytes }
        ensures fits { Fits (op_of call.now) result }
        ensures rest { LeavesRest result buf.old buf.new }
        ensures alike { AnswersAlike result self.old (record { seat = seat; line = line; pid = pid.0; op = op_of call.now }) buf.old buf.new }
        ensures noninterference { Noninterferent (opening_world self.new.config) self.new.events }
        ensures fresh { IsTrue (goes_fresh self.old pid.0 (op_of call.now)) → steps.new ≡ steps.old }
    {
        if !self.journal.takes(call) {
            return Answer::JournalFull {
                used: self.journal.used(),
                need: Journal::cost(call),
                cap: self.journal.cap(),
            };
        }
        let place = self.journal.len() + 1;
        self.journal.keep(seat, line, pid, call);
        let (machine, marks) = (&mut self.machine, &mut self.marks);
        if goes_fresh(marks, pid, call) {
            return Answer::Given(known(machine, marks, place, pid, call, buf));
        }
        if is_own_label(call) {
            return Answer::Given(own_label(machine, marks, place, pid, call, buf));
        }
        Answer::Given(call_checked(machine, marks, place, pid, call, buf, steps))
    }

    /// Makes a call as [`step`](Core::step) does, and nobody counts its looks at labels.
    ///
    /// The seat has then made one entry more, with the reply and the bytes in the buffer, where there is a reply; the history
    /// goes on by its entries alone. A full journal alone stops the call, and says what it costs.
    pub fn call(&mut self, seat: u32, line: u32, pid: Pid, call: &Call<'_>, buf: &mut Buf) -> Answer
        ensures step { StepsAs result self.old self.new (entry seat line pid (op_of call.now)) buf.old buf.new }
        ensures next { MakesNext result self.old self.new (entry seat line pid (op_of call.now)) buf.new }
        ensures made { made_by seat self.new ≡ made_after result (entry seat line pid (op_of call.now)) buf.new (made_by seat self.old) }
        ensures on { GoesOn seat self.old self.new }
        ensures full { FullFor (op_of call.now) result }
        ensures stops { StopsWhereFull result self.new }
        ensures costs { cost_of_history self.old.events ≤ cost_of_history self.new.events }
    {
        step_uncounted::<Brand>(self, seat, line, pid, call, buf, Blank::new(1))
    }

    /// Whether a descriptor of a process is fresh for that way: the process read through it and was given bytes, or wrote
    /// through it and was told how many, and since then neither did a call close it, nor change the label of the process, of
    /// the object behind it or of its open entry. `false` where the process or the descriptor is none. It looks for the
    /// process in one bucket, and else takes constant time.
    pub fn fresh(&self, pid: Pid, fd: Fd, way: Way) -> bool
        ensures { result ≡ is_fresh (opening_world self.now.config) self.now.events pid.0 fd.0 (way_of way) }
    {
        self.marks.fresh(pid, fd, way)
    }

    /// The entry at a place of the history, from 1; `None` exactly where there is none.
    pub fn entry(&self, place: u32) -> Option<Entry<'_>>
        ensures { option_map event_of result ≡ (if place == 0 then None else slice_get self.now.events (place - 1)) }
    {
        self.journal.entry(place)
    }

    /// How many entries the history has. The world to which they lead is sound.
    pub fn len(&self) -> u32
        ensures len { result ≡ length self.now.events }
        ensures few { result ≤ 6800000 }
        ensures sound { Sound (world_of self.now) }
    {
        self.journal.len()
    }

    /// What a report says of the object of a number; `None` exactly where there is no such object.
    pub fn object(&self, n: u32) -> Option<ObjView>
        ensures { result ≡ option_map view_of (at (world_of self.now).frame.objects n) }
    {
        self.machine.object_view(n)
    }

    /// The open entry behind a descriptor of a process, with its offset; `None` exactly where the pid is of no living process
    /// or that has no such descriptor.
    pub fn opened(&self, pid: Pid, fd: Fd) -> Option<OpenView>
        ensures { result ≡ option_map (view_through (world_of self.now)) (behind (world_of self.now).frame pid.0 fd.0) }
    {
        self.machine.opened(pid, fd)
    }

    /// How much there is at an end of an object: the length of a file, at end 0, or what that end of a pipe can read. `None`
    /// exactly where no such file or pipe lives, or it has no such end.
    pub fn size(&self, obj: Obj, end: u8) -> Option<u64>
        ensures { result ≡ size_at (world_of self.now) obj.0 end }
    {
        self.machine.size(obj, end)
    }

    /// Copies the bytes of a file from an offset on into the front of `out`, and answers their number; none where no file
    /// lives under that number.
    pub fn inside(&self, obj: Obj, at: u64, out: &mut [u8]) -> usize
        ensures count { result ≡ min (length out.old) (length (bytes_inside (world_of self.now) obj.0 at)) }
        ensures out { out.new ≡ take result (bytes_inside (world_of self.now) obj.0 at) ++ drop result out.old }
    {
        self.machine.inside(obj, at, out)
    }

    /// The name at an index of a directory, from 0 in order of making, with its object; `None` exactly where no such
    /// directory lives or the index is at or past its count. It costs a step for each name before it.
    pub fn named(&self, dir: Obj, index: u32) -> Option<(Name, Obj)>
        ensures { option_map (λ e. (e.0, e.1.0)) result ≡ option_and_then (λ names. slice_get names index) (names_there (world_of self.now).frame.objects dir.0) }
    {
        self.machine.named(dir, index)
    }

    /// The name behind one that a directory has, in order of making; `None` behind the last, and where no such directory
    /// lives. It costs the same wherever the name stands.
    pub fn named_after(&self, dir: Obj, name: &NameRef<'_>) -> Option<(Name, Obj)>
        ensures next { (names : _) → names_there (world_of self.now).frame.objects dir.0 ≡ Some names → IsBehind names (name_of name.now) (option_map (λ e. (e.0, e.1.0)) result) }
        ensures nowhere { names_there (world_of self.now).frame.objects dir.0 ≡ None → result ≡ None }
    {
        self.machine.named_after(dir, name)
    }

    /// How many names a directory has; `None` exactly where no such directory lives.
    pub fn names(&self, dir: Obj) -> Option<u32>
        ensures { result ≡ option_map length (names_there (world_of self.now).frame.objects dir.0) }
    {
        self.machine.names(dir)
    }

    /// The capabilities and the licences of an object; `None` exactly where no such object lives.
    pub fn privs(&self, obj: Obj) -> Option<(PrivSet, PrivSet)>
        ensures { result ≡ option_map (λ x. (x.cap, x.lic)) (at (world_of self.now).frame.objects obj.0) }
    {
        self.machine.privs(obj)
    }

    /// How many numbers of objects there are: all inodes and all pipes.
    pub fn objects(&self) -> u32
        ensures { result ≡ length (world_of self.now).frame.objects }
    {
        self.machine.objects()
    }

    /// What a report says of a process, living or ended; `None` exactly where the pid has no record.
    pub fn process(&self, pid: Pid) -> Option<ProcView>
        ensures { result ≡ option_map shown_of (at (world_of self.now).frame.processes pid.0) }
    {
        self.machine.process_view(pid)
    }

    /// The pid that the next process has. It is above every pid.
    pub fn next_pid(&self) -> Pid
        ensures { result.0 ≡ length (world_of self.now).frame.processes }
    {
        self.machine.next_pid()
    }

    /// The line of the audit log at an index, from 0; `None` exactly at or past its length.
    pub fn log_line(&self, index: u32) -> Option<AuditLine>
        ensures { result ≡ slice_get (world_of self.now).frame.log index }
    {
        self.machine.log_line(index)
    }

    /// How many lines the audit log has. They are those of the licensed acts of the history, in order.
    pub fn log_len(&self) -> u32
        ensures len { result ≡ length (world_of self.now).frame.log }
        ensures licensed { (world_of self.now).frame.log ≡ audit_log (opening_world self.now.config) 1 self.now.events }
    {
        self.machine.log_len()
    }
}

/// A step, with the looks counted under a ledger of the caller's choice, who is not told how many they were.
fn step_uncounted<L: Ledger>(
    core: &mut Core,
    seat: u32,
    line: u32,
    pid: Pid,
    call: &Call<'_>,
    buf: &mut Buf,
    blank: Blank,
) -> Answer
    requires name { blank.name ≡ L.name }
    requires parts { blank.parts ≡ L.parts }
    requires some { 0 < L.parts }
    ensures { StepsAs result core.old core.new (entry seat line pid (op_of call.now)) buf.old buf.new }
{
    let mut steps = Steps::<L>::new(blank);
    core.step(seat, line, pid, call, buf, &mut steps)
}
