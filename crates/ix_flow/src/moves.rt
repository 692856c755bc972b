ghost use Rattle.std.specs.{Prelude.{◌≡◌, ◌≤◌, ◌+◌, ◌++◌, ℕ, List, [], true, false, Some, length, take, drop, if◌then◌else◌, OnOk}, Option.{option_map_or}};
ghost use Rattle.ix_label.specs.Category.{Categories};
ghost use Rattle.ix_model.specs.history.Events as op;
ghost use Rattle.ix_model.specs.{history.{History.{History, world_of}, Made.{entry}, Views.{size_at}}, world.{Contents.{on_side}, Naming.{PathOf}, World.{at}}};
ghost use Rattle.ix_model.specs.declared.{audit.Act.TheVariants.{DownFile}, ids.Pid.{Pid}, reply.Reply.{Reply}};
ghost use Rattle.ix_model.specs.world.World as world;
ghost use Rattle.ix_flow.specs.{Following.{Follows, FollowsInto}, Marks.{marks_of}, Tracking.{AreSides, HasEnd}};

use crate::sides::Written;
use crate::telling::{Read, tell};
use crate::tracks::Tracks;
use ix_core::Core;
use ix_model::{Act, Fd, Kind, NoMemory, Obj, Pid, Reply};

/// What single entries move: each of these follows one kind of entry that a core has just made. They are told the entry's place.
impl Tracks {
    /// A read: writes the lines of its bytes, and takes them from a pipe.
    pub(crate) fn read(
        &mut self,
        core: &Core,
        place: u32,
        pid: Pid,
        fd: Fd,
        reply: &Reply,
        out: &mut Vec<u8>,
    ) -> Result<(), NoMemory>
        requires place { place ≡ length core.now.events }
        requires few { place ≤ 6800000 }
        ensures stays { take (length out.old.items) out.new.items ≡ out.old.items }
        ensures follows { OnOk result ((seat line count : ℕ) → FollowsInto self.old self.new core.now reply.now (entry seat line pid (op.ReadFd fd.0 count)) out.old.items out.new.items) }
    {
        let Reply::Bytes(count) = reply else {
            return Ok(());
        };
        let count = *count;
        if count == 0 {
            return Ok(());
        }
        let Some(view) = core.opened(pid, fd) else {
            return Ok(());
        };
        let Some(side) = self.sides.get(view.obj, view.end) else {
            return Ok(());
        };
        let piped = is_pipe(core, view.obj);
        let from = if piped {
            side.front()
        } else {
            view.at.saturating_sub(count)
        };
        let read = Read {
            place,
            object: view.obj,
            from,
            count,
        };
        let lines = tell(side, &self.labels, &self.falls, &read, out)?;
        self.count(lines)?;
        self.take(view.obj, view.end, piped, count)?;
        Ok(())
    }

    /// What was read is no longer in a pipe.
    #[inline(always)]
    fn take(&mut self, obj: Obj, end: u8, piped: bool, count: u32) -> Result<(), NoMemory>
        ensures sides { OnOk result ((labels : List Categories) (past : History) → AreSides self.old.sides labels past (marks_of past) → HasEnd past (marks_of past) obj.0 end piped
            → AreSides self.new.sides labels past (if piped then on_side obj.0 end (drop count) (marks_of past) else marks_of past)) }
        ensures rest { OnOk result (self.new ≡ record self.old { sides = self.new.sides }) }
    {
        if piped {
            self.sides.drain(obj, end, count)?;
        }
        Ok(())
    }

    /// Counts an entry that gave bytes, and its lines.
    fn count(&mut self, lines: u32) -> Result<(), NoMemory>
        ensures { OnOk result (self.new ≡ record self.old { reads = self.old.reads + 1; lines = self.old.lines + lines }) }
    {
        let Some(reads) = self.reads.checked_add(1) else {
            return Err(NoMemory);
        };
        let Some(lines) = self.lines.checked_add(u64::from(lines)) else {
            return Err(NoMemory);
        };
        self.reads = reads;
        self.lines = lines;
        Ok(())
    }

    /// A write.
    pub(crate) fn write(
        &mut self,
        core: &Core,
        place: u32,
        pid: Pid,
        fd: Fd,
        bytes: &[u8],
        reply: &Reply,
    ) -> Result<(), NoMemory>
        requires place { place ≡ length core.now.events }
        requires few { place ≤ 6800000 }
        ensures { OnOk result ((seat line : ℕ) → Follows self.old self.new core.now reply.now (entry seat line pid (op.WriteFd fd.0 bytes.now))) }
    {
        let Reply::Number(_) = reply else {
            return Ok(());
        };
        let Some(view) = core.opened(pid, fd) else {
            return Ok(());
        };
        let Some(writer) = core.process(pid) else {
            return Ok(());
        };
        let Ok(count) = u32::try_from(bytes.len()) else {
            return Err(NoMemory);
        };
        let label = self.labels.of_writer(pid, writer.label)?;
        let written = Written {
            place,
            label,
            count,
        };
        if is_pipe(core, view.obj) {
            let end = 1_u8.saturating_sub(view.end);
            self.sides.append(view.obj, end, written)?;
            return Ok(());
        }
        let offset = view.at.saturating_sub(count);
        self.sides.write(view.obj, view.end, offset, written)?;
        Ok(())
    }

    /// A cut of a file.
    pub(crate) fn cut(
        &mut self,
        core: &Core,
        pid: Pid,
        fd: Fd,
        len: u32,
        reply: &Reply,
    ) -> Result<(), NoMemory>
        requires few { length core.now.events ≤ 6800000 }
        ensures { OnOk result ((seat line : ℕ) → Follows self.old self.new core.now reply.now (entry seat line pid (op.CutFd fd.0 len))) }
    {
        let Reply::Done = reply else {
            return Ok(());
        };
        let Some(view) = core.opened(pid, fd) else {
            return Ok(());
        };
        self.sides.cut(view.obj, view.end, len)?;
        Ok(())
    }

    /// A claim: a path that is whole by it holds nothing.
    pub(crate) fn claim(&mut self, core: &Core, pid: Pid, fd: Fd)
        requires few { length core.now.events ≤ 6800000 }
        ensures { (seat line : ℕ) (reply : Reply) → Follows self.old self.new core.now reply (entry seat line pid (op.Pex fd.0)) }
    {
        let Some(view) = core.opened(pid, fd) else {
            return;
        };
        if is_empty(core, view.obj) {
            self.sides.forget(view.obj);
        }
    }

    /// A call that makes a file or a directory, which holds nothing.
    pub(crate) fn make(&mut self, core: &Core, reply: &Reply) -> Result<(), NoMemory>
        requires few { length core.now.events ≤ 6800000 }
        ensures file { OnOk result ((seat line : ℕ) (pid : Pid) (path : PathOf) → Follows self.old self.new core.now reply.now (entry seat line pid (op.CreateAt path))) }
        ensures dir { OnOk result ((seat line : ℕ) (pid : Pid) (path : PathOf) → Follows self.old self.new core.now reply.now (entry seat line pid (op.MakeDir path))) }
    {
        let Reply::Number(object) = reply else {
            return Ok(());
        };
        let Ok(object) = u32::try_from(*object) else {
            return Err(NoMemory);
        };
        self.sides.forget(Obj(object));
        Ok(())
    }

    /// A call that makes a pipe, which holds nothing.
    pub(crate) fn pipe(&mut self, core: &Core, pid: Pid, reply: &Reply)
        requires few { length core.now.events ≤ 6800000 }
        ensures { (seat line : ℕ) → Follows self.old self.new core.now reply.now (entry seat line pid op.MakePipe) }
    {
        let Reply::Two(first, _) = reply else {
            return;
        };
        let Some(view) = core.opened(pid, *first) else {
            return;
        };
        self.sides.forget(view.obj);
    }

    /// A call that sets an object's label: notes an object that was let down, which the log's last line tells.
    pub(crate) fn relabel(&mut self, core: &Core, place: u32) -> Result<(), NoMemory>
        requires place { place ≡ length core.now.events }
        requires few { place ≤ 6800000 }
        ensures { OnOk result ((seat line : ℕ) (pid : Pid) (path : PathOf) (label : Categories) (reply : Reply) → Follows self.old self.new core.now reply (entry seat line pid (op.SetLabel path label))) }
    {
        let Some(last) = core.log_len().checked_sub(1) else {
            return Ok(());
        };
        let Some(line) = core.log_line(last) else {
            return Ok(());
        };
        if line.place == place && is_lowering(line.act) {
            self.falls.note(Obj(line.target), place)?;
        }
        Ok(())
    }
}

/// Whether an act lowers an object's label.
fn is_lowering(act: Act) -> bool
    ensures lowers { result ≡ true → act ≡ DownFile }
    ensures not { result ≡ false → act ≡ DownFile → ⊥ }
{
    matches!(act, Act::DownFile)
}

/// Whether an object is a pipe in which there is nothing to read.
fn is_empty(core: &Core, object: Obj) -> bool
    ensures empty { result ≡ true → (size_at (world_of core.now) object.0 0 ≡ Some 0) × (size_at (world_of core.now) object.0 1 ≡ Some 0) }
    ensures not { result ≡ false → size_at (world_of core.now) object.0 0 ≡ Some 0 → size_at (world_of core.now) object.0 1 ≡ Some 0 → ⊥ }
{
    matches!(core.size(object, 0), Some(0)) && matches!(core.size(object, 1), Some(0))
}

/// Whether an object is a pipe.
fn is_pipe(core: &Core, object: Obj) -> bool
    ensures { result ≡ option_map_or world.is_pipe (at (world_of core.now).frame.objects object.0) false }
{
    match core.object(object.0) {
        Some(view) => matches!(view.kind, Kind::Pipe),
        None => false,
    }
}
