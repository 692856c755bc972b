ghost use Rattle.std.{specs.Prelude.{◌≡◌, Some}, proofs.Common.{option_map}};
ghost use Rattle.ix_label.specs.Category.{bottom};
ghost use Rattle.ix_model.specs.{history.{AuditLog.{label_at, object_of_path, of_process}, Calls.{op_of}, Views.{size_at}}, rows.Walks.{behind}};
ghost use Rattle.ix_model.specs.world.Paths.{path_of};
ghost use Rattle.ix_fresh.specs.{Laws.{spot_behind}, Touched.{entry_behind, entry_target, label_of_entry, object_behind, target}};
ghost use Rattle.ix_fcalls.specs.Spots.{spot_in, view_through};

use crate::machine::Machine;
use ix_fcalls::Outcome;
use ix_label::{Label, Steps};
use ix_model::{Call, Fd, Obj, Path, Pid};
use ix_open::OpenView;
use std::sync::ledger::Ledger;

/// What stands behind descriptors, the labels there, and which of them a call may change. Nothing here changes the world.
impl Machine {
    /// The open entry behind a descriptor of a living process, by its number, and the object on which it is; `None` exactly
    /// where there is none.
    pub fn spot(&self, pid: Pid, fd: Fd) -> Option<(u32, Obj)>
        ensures { option_map spot_in result ≡ spot_behind self.now.frame pid.0 fd.0 }
    {
        if !self.lives(pid) {
            return None;
        }
        self.files.spot(self.who(pid), fd)
    }

    /// The open entry behind a descriptor of a living process, with its offset; `None` exactly where there is none.
    pub fn opened(&self, pid: Pid, fd: Fd) -> Option<OpenView>
        ensures { result ≡ option_map (view_through self.now) (behind self.now.frame pid.0 fd.0) }
    {
        if !self.lives(pid) {
            return None;
        }
        self.files.opened(self.who(pid), fd)
    }

    /// How much there is at an end of an object: the length of a file, at end 0, or what that end of a pipe can read.
    /// `None` exactly where no file or pipe is there, or it has no such end.
    pub fn size(&self, obj: Obj, end: u8) -> Option<u64>
        ensures { result ≡ size_at self.now obj.0 end }
    {
        self.files.size(obj, end)
    }

    /// The label of a process, living or ended; bottom where the pid has no record.
    pub fn process_label(&self, pid: Pid) -> Label
        ensures { result ≡ of_process (λ p. p.label) bottom self.now.frame pid.0 }
    {
        match self.procs.look(pid) {
            Some(shown) => shown.label,
            None => Label::bottom(),
        }
    }

    /// The label of the object of a number; bottom where there is none.
    pub fn object_label(&self, obj: Obj) -> Label
        ensures { result ≡ label_at self.now.frame (Some obj.0) }
    {
        self.files.label_of(obj)
    }

    /// The label of the open entry of a number; bottom where there is none.
    pub fn entry_label(&self, id: u32) -> Label
        ensures { result ≡ label_of_entry self.now.frame (Some id) }
    {
        self.files.entry_label(id)
    }

    /// The object whose label a call may change, as it stands before the call: the one behind the descriptor that is written
    /// or cut, or that of the path which is labelled, frozen or given privileges.
    pub fn target<L: Ledger>(&self, pid: Pid, call: &Call<'_>, steps: &mut Steps<L>) -> Option<Obj>
        ensures { option_map (λ o. o.0) result ≡ target self.now.frame pid.0 (op_of call.now) }
    {
        match call {
            Call::WriteFd { fd, .. } => self.object_behind(pid, *fd),
            Call::CutFd { fd, .. } => self.object_behind(pid, *fd),
            Call::SetLabel { path, .. } => self.object_of_path(pid, path, steps),
            Call::Freeze { path } => self.object_of_path(pid, path, steps),
            Call::SetPriv { path, .. } => self.object_of_path(pid, path, steps),
            _ => None,
        }
    }

    /// The open entry whose label a call may change, as it stands before the call: the one that is read, written or sought
    /// through.
    pub fn entry_target(&self, pid: Pid, call: &Call<'_>) -> Option<u32>
        ensures { result ≡ entry_target self.now.frame pid.0 (op_of call.now) }
    {
        match call {
            Call::ReadFd { fd, .. } => self.entry_behind(pid, *fd),
            Call::WriteFd { fd, .. } => self.entry_behind(pid, *fd),
            Call::SeekFd { fd, .. } => self.entry_behind(pid, *fd),
            _ => None,
        }
    }

    /// The object behind a descriptor.
    fn object_behind(&self, pid: Pid, fd: Fd) -> Option<Obj>
        ensures { option_map (λ o. o.0) result ≡ object_behind self.now.frame pid.0 fd.0 }
    {
        match self.spot(pid, fd) {
            Some((_, obj)) => Some(obj),
            None => None,
        }
    }

    /// The open entry behind a descriptor, by its number.
    fn entry_behind(&self, pid: Pid, fd: Fd) -> Option<u32>
        ensures { result ≡ entry_behind self.now.frame pid.0 fd.0 }
    {
        match self.spot(pid, fd) {
            Some((id, _)) => Some(id),
            None => None,
        }
    }

    /// The object that a path of a living process leads to, if it leads to one. No label floats.
    fn object_of_path<L: Ledger>(
        &self,
        pid: Pid,
        path: &Path<'_>,
        steps: &mut Steps<L>,
    ) -> Option<Obj>
        ensures { option_map (λ o. o.0) result ≡ object_of_path self.now.frame pid.0 (path_of path.now) }
    {
        if !self.lives(pid) {
            return None;
        }
        match self.files.walk(self.who(pid), path, steps).outcome {
            Outcome::Found { obj, .. } => Some(obj),
            _ => None,
        }
    }
}
