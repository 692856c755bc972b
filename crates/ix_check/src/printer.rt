ghost use Rattle.std.specs.Prelude.{◌≡◌, false, length, IfOk};

use ix_core::{Core, Witness};
use ix_model::{Call, NoMemory, Pid, Reply};
use ix_replay::push_entry;
use ix_script::Script;
use std::alloc::Global;

/// How much room there is for a line; a longer one takes more memory.
const ROOM: usize = 32_768;

/// What prints the line of an entry of a script when it sees it, in the place of what stood there.
#[derive(Drop)]
pub struct Printer<'a> {
    pub script: &'a Script<'a>,
    /// How many entries there were before.
    count: u32,
    pub line: Vec<u8>,
    /// There was no memory for a line.
    pub failed: bool,
}

impl<'a> Printer<'a> {
    /// One that has printed nothing, with room for a line. `NoMemory` where there was none for that room.
    pub fn new(alloc: Global, script: &'a Script<'a>) -> Result<Printer<'a>, NoMemory>
        ensures script { IfOk result (λ printer. printer.script.now ≡ script.now) }
    {
        let line = Vec::with_capacity(alloc, ROOM)?;
        Ok(Printer {
            script,
            count: 0,
            line,
            failed: false,
        })
    }
}

impl Printer<'_> {
    /// Waits for the next entry of a core.
    pub fn wait(&mut self, core: &Core)
        ensures script { self.new.script.now ≡ self.old.script.now }
        ensures count { self.new.count ≡ length core.now.events }
        ensures begun { self.new.failed ≡ false }
    {
        self.count = core.len();
        self.failed = false;
    }
}

impl Witness for Printer<'_> {
    ghost use Rattle.ix_check.specs.Printing.{IsLastLine};

    ghost knows = { λ first h t. (t.script.now ≡ first.script.now) × (t.count ≡ first.count)
        × (t.failed ≡ false → IsLastLine t.script.now t.count h t.line.items) };

    fn see(
        &mut self,
        core: &Core,
        line: u32,
        pid: Pid,
        seat: u32,
        call: &Call<'_>,
        reply: &Reply,
        bytes: &[u8],
    ) {
        self.line.clear();
        let (out, script) = (&mut self.line, self.script);
        let printed = push_entry(out, script, core, line, pid, seat, call, reply, bytes);
        if printed.is_err() {
            self.failed = true;
        }
    }
}
