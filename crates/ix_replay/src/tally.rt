//! What a history comes to, in one line.

ghost use Rattle.std.specs.Prelude.{◌≡◌, List, IfOk};
ghost use Rattle.ix_model.specs.history.Calls.{op_of};
ghost use Rattle.ix_replay.specs.{Summary.{summary_line}, Tallying.{HasSeen, IsSmall, with_reply}};
ghost use Rattle.ix_script.specs.{scripts.Scripts.{config_of}, declared.line.Line.{Line}};

use ix_core::{Core, Witness};
use ix_model::{Call, NoMemory, Pid, Reply};
use ix_report::{Totals, totals_line};
use std::alloc::Global;

/// What the entries of a history come to, added up as they are made: it is a witness of them.
#[derive(Clone, Copy, Debug, PartialEq, Eq)]
pub struct Tally {
    /// How many were refused.
    pub refused: u32,
    /// The bytes that they read.
    pub read: u64,
    /// The bytes that they wrote.
    pub written: u64,
}

impl Tally {
    /// What no entry comes to.
    pub fn new() -> Tally
        ensures { result ≡ record { refused = 0; read = 0; written = 0 } }
    {
        Tally {
            refused: 0,
            read: 0,
            written: 0,
        }
    }

    /// Adds up one entry more, where there is room for what all come to.
    fn add(&mut self, call: &Call<'_>, reply: &Reply)
        ensures { IsSmall (with_reply self.old (op_of call.now) reply.now) → self.new ≡ with_reply self.old (op_of call.now) reply.now }
    {
        match reply {
            Reply::No(_) => self.refused = self.refused.saturating_add(1),
            Reply::Bytes(count) => self.read = self.read.saturating_add(u64::from(*count)),
            Reply::Number(count) => {
                if let Call::WriteFd { .. } = call {
                    self.written = self.written.saturating_add(*count);
                }
            }
            _ => (),
        }
    }
}

impl Witness for Tally {
    ghost use Rattle.ix_replay.specs.Tallying.{HasSeen};

    ghost knows = { λ first h t. HasSeen h t };

    fn see(
        &mut self,
        core: &Core,
        _line: u32,
        _pid: Pid,
        _seat: u32,
        call: &Call<'_>,
        reply: &Reply,
        _bytes: &[u8],
    ) {
        let _count = core.len();
        self.add(call, reply);
    }
}

/// The summary of a history whose entries a tally has seen, where its script was made of so many commands: one line, which says how
/// many entries there are, how many of them were refused, how many bytes they read and wrote, and how many lines the audit log has.
pub fn summary(
    alloc: Global,
    count: u32,
    tally: &Tally,
    history: &Core,
) -> Result<Vec<u8>, NoMemory>
    ensures { IfOk result (λ text. (s : List Line) → history.now.config ≡ config_of s → HasSeen history.now tally.now
        → text.items ≡ summary_line count s history.now.events) }
{
    let totals = Totals {
        entries: history.len(),
        refused: tally.refused,
        read: tally.read,
        written: tally.written,
        lines: history.log_len(),
    };
    let mut text = Vec::new(alloc);
    totals_line(&mut text, count, &totals)?;
    Ok(text)
}
