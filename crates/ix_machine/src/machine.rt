ghost use Rattle.std.specs.{Prelude.{◌≡◌, ◌<◌, ◌-◌, ◌^◌, IsTrue, IfOk, length, slice_get}, Option.{option_map}};
ghost use Rattle.ix_model.specs.{opening.{Opening.{opening_world}, Valid.{is_valid}}, world.World.{at}, rows.Walks.{nothing}};
ghost use Rattle.ix_model.specs.history.Views.{view_of, shown_of};
ghost use Rattle.ix_tables.specs.Views.{object_by};

use crate::boot::opened;
use ix_audit::Log;
use ix_fcalls::Files;
use ix_label::Steps;
use ix_model::{AuditLine, Config, NoMemory, Obj, ObjView, Pid, ProcView};
use ix_proc::Procs;
use ix_tables::ObjectRow;
use std::alloc::Global;
use std::marker::Model;
use std::sync::ledger::Ledger;

/// The machine: files, processes and the audit log. Contracts see the world that they are.
///
/// All memory is taken by [`boot`](Machine::boot).
#[derive(Drop)]
pub struct Machine {
    pub(crate) files: Files,
    pub(crate) procs: Procs,
    pub(crate) log: Log,
}

impl Model for Machine {
    ghost use Rattle.std.specs.Coded.{codes};
    ghost use Rattle.ix_label.specs.contracts.label.Label as label_type;
    ghost use Rattle.ix_model.specs.world.World.{World};
    ghost use Rattle.ix_machine.specs.Joined.{joined, AreJoined};

    ghost Value = { World };

    ghost coded = { Prim.hlevel (codes, label_type.the_row.coded) };

    ghost view = { λ m. joined m.files m.procs m.log };

    ghost invariant = { λ m. AreJoined m.files m.procs m.log };
}

impl Machine {
    /// The machine that a config describes. It takes all memory that there will be.
    pub fn boot(alloc: Global, config: &Config) -> Result<Machine, NoMemory>
        requires { IsTrue (is_valid config.now) }
        ensures { IfOk result (λ m. m ≡ opening_world config.now) }
    {
        let files = Files::new(alloc, config)?;
        let procs = opened(alloc, config.limits.procs, config.procs.as_slice())?;
        let log = Log::new(alloc, config.limits.log)?;
        Ok(Machine { files, procs, log })
    }

    /// What a report says of the object of a number; `None` exactly where there is none.
    pub fn object_view(&self, n: u32) -> Option<ObjView>
        ensures { result ≡ option_map view_of (at self.now.frame.objects n) }
    {
        match self.files.object(Obj(n)) {
            Some(x) => Some(view_of(&x)),
            None => None,
        }
    }

    /// How many numbers of objects there are: all inodes and all pipes.
    pub fn objects(&self) -> u32
        ensures { result ≡ length self.now.frame.objects }
    {
        self.files.objects()
    }

    /// What a report says of a process, living or ended; `None` exactly where the pid has no record.
    pub fn process_view(&self, pid: Pid) -> Option<ProcView>
        ensures { result ≡ option_map shown_of (at self.now.frame.processes pid.0) }
    {
        self.procs.look(pid)
    }

    /// The pid that the next process has. It is above every pid.
    pub fn next_pid(&self) -> Pid
        ensures { result.0 ≡ length self.now.frame.processes }
    {
        self.procs.next_pid()
    }

    /// The line of the log at an index, from 0; `None` exactly at or past its length.
    pub fn log_line(&self, index: u32) -> Option<AuditLine>
        ensures { result ≡ slice_get self.now.frame.log index }
    {
        self.log.line(index)
    }

    /// How many lines the log has.
    pub fn log_len(&self) -> u32
        ensures { result ≡ length self.now.frame.log }
    {
        self.log.len()
    }
}

/// What a report says of an object of which that is told.
fn view_of(x: &ObjectRow) -> ObjView
    ensures { result ≡ view_of (object_by nothing x.now) }
{
    ObjView {
        kind: x.kind,
        label: x.float.label,
        frozen: x.float.frozen,
    }
}
