ghost use Rattle.std.specs.Prelude.{◌≡◌, ◌+◌, ◌++◌, ℕ, [], length, take, IfOk, OnOk};
ghost use Rattle.ix_model.specs.{history.{Calls.{op_of}, History.{world_of}, Made.{entry}}, laws.Sound.{Sound}};
ghost use Rattle.ix_flow.specs.{Lines.{end_line}, Following.{FollowsInto}, Tracking.{AreOpened, AreTracks}};

use crate::falls::Falls;
use crate::labels::Labels;
use crate::lines::push_end;
use crate::side::Side;
use crate::sides::Sides;
use crate::source::Source;
use ix_core::Core;
use ix_model::{Call, NoMemory, Obj, Pid, Reply};
use std::alloc::Global;

/// Where what objects hold came from, after a core's history.
#[derive(Drop)]
pub struct Tracks {
    pub(crate) sides: Sides,
    pub(crate) labels: Labels,
    pub(crate) falls: Falls,
    /// How many entries gave bytes, and how many lines were written of them.
    pub(crate) reads: u64,
    pub(crate) lines: u64,
}

impl Tracks {
    /// Those of a core, which it asks to be without entries: the bytes of each file of the config come from there. `NoMemory` where
    /// there was none: each of these files takes a run and a label at the most.
    pub fn new(alloc: Global, core: &Core) -> Result<Tracks, NoMemory>
        requires { core.now.events ≡ [] }
        ensures { IfOk result (λ t. AreTracks t core.now) }
    {
        // What this says of the core's world is needed.
        core.len();
        let mut tracks = Tracks {
            sides: Sides::new(alloc),
            labels: Labels::new(alloc),
            falls: Falls::new(alloc),
            reads: 0,
            lines: 0,
        };
        for object in 0..core.objects() {
            tracks.open(alloc, core, Obj(object))?;
        }
        Ok(tracks)
    }

    /// What an object of a config holds: a file's bytes came from there.
    fn open(&mut self, alloc: Global, core: &Core, object: Obj) -> Result<(), NoMemory>
        requires first { core.now.events ≡ [] }
        requires sound { Sound (world_of core.now) }
        ensures { OnOk result (AreOpened self.old core.now object.0 → AreOpened self.new core.now (object.0 + 1)) }
    {
        let Some(size) = core.size(object, 0) else {
            return Ok(());
        };
        let Some(view) = core.object(object.0) else {
            return Ok(());
        };
        let Ok(size) = u32::try_from(size) else {
            return Err(NoMemory);
        };
        let label = self.labels.add(view.label)?;
        let source = Source::File {
            object: object.0,
            label,
        };
        let mut side = Side::new(alloc);
        side.fill(size, source)?;
        self.sides.put(object, 0, side)?;
        Ok(())
    }

    /// Follows the entry that a core has just made, and writes the lines of what it read.
    ///
    /// `NoMemory` where there was none for a line, or for what is kept of an entry: what stood there stands there still, and maybe a
    /// part of the lines after it; the tracks stand for no history then, and aren't used again.
    pub fn follow(
        &mut self,
        core: &Core,
        pid: Pid,
        call: &Call<'_>,
        reply: &Reply,
        out: &mut Vec<u8>,
    ) -> Result<(), NoMemory>
        ensures stays { take (length out.old.items) out.new.items ≡ out.old.items }
        ensures follows { OnOk result ((seat line : ℕ) → FollowsInto self.old self.new core.now reply.now (entry seat line pid (op_of call.now)) out.old.items out.new.items) }
    {
        let place = core.len();
        match call {
            Call::ReadFd { fd, .. } => self.read(core, place, pid, *fd, reply, out)?,
            Call::WriteFd { fd, bytes } => self.write(core, place, pid, *fd, bytes, reply)?,
            Call::CutFd { fd, len } => self.cut(core, pid, *fd, *len, reply)?,
            Call::Pex { fd } => self.claim(core, pid, *fd),
            Call::CreateAt { .. } | Call::MakeDir { .. } => self.make(core, reply)?,
            Call::MakePipe => self.pipe(core, pid, reply),
            Call::SetLabel { .. } => self.relabel(core, place)?,
            _ => {}
        }
        Ok(())
    }

    /// Writes the last line: how many entries gave bytes, and how many lines there are.
    ///
    /// `NoMemory` where there was none for it: what stood there stands there still, and maybe a part of the line after it.
    pub fn end(&self, out: &mut Vec<u8>) -> Result<(), NoMemory>
        ensures stays { take (length out.old.items) out.new.items ≡ out.old.items }
        ensures text { OnOk result (out.new.items ≡ out.old.items ++ end_line (record { reads = self.now.reads; lines = self.now.lines })) }
    {
        push_end(out, self.reads, self.lines)
    }
}
