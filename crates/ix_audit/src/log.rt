ghost use Rattle.std.specs.Prelude.{◌≡◌, ◌≤◌, ◌==◌, ◌∷◌, ◌++◌, [], length, slice_get, nat_lt, IfOk, Ok, Err, if◌then◌else◌};
ghost use Rattle.ix_audit.specs.Lines.{has_room, with_line};

use ix_model::{AuditLine, NoMemory};
use std::alloc::Global;
use std::marker::Model;

/// The log has as many lines as it takes.
#[derive(Debug, Clone, Copy, PartialEq, Eq)]
pub struct LogFull;

/// Lines of an audit log, in the order in which they came. It takes at most `cap` of them.
///
/// Contracts see the lines and the capacity.
#[derive(Drop)]
pub struct Log {
    cap: u32,
    lines: Vec<AuditLine>,
}

impl Model for Log {
    ghost use Rattle.std.specs.{Prelude.{vec_capacity}, Coded.{codes}};
    ghost use Rattle.ix_label.specs.contracts.label.Label as label_type;
    ghost use Rattle.ix_audit.specs.Lines.{Lines, AreLines};

    ghost Value = { Lines };

    ghost coded = { Prim.hlevel (codes, label_type.the_row.coded) };

    ghost view = { λ l. record { cap = l.cap; lines = l.lines.items } };

    ghost invariant = { λ l. AreLines l.cap (vec_capacity l.lines) l.lines.items };
}

impl Log {
    /// A log without lines that takes so many. It reserves the memory of all of them; where that isn't there it answers
    /// `NoMemory`. No other call takes any.
    pub fn new(alloc: Global, cap: u32) -> Result<Log, NoMemory>
        ensures { IfOk result (λ l. l ≡ record { cap = cap; lines = [] }) }
    {
        let lines = Vec::with_capacity(alloc, cap as usize)?;
        Ok(Log { cap, lines })
    }

    /// One line more, at the end. It is refused exactly where the log has as many as it takes, and then nothing changes.
    pub fn push(&mut self, line: AuditLine) -> Result<(), LogFull>
        ensures push { self.new ≡ (if has_room self.old then with_line line self.old else self.old) }
        ensures full { result ≡ (if has_room self.old then Ok tt else Err (record {})) }
    {
        if self.lines.len() >= self.cap as usize {
            return Err(LogFull);
        }
        self.lines.push_reserved(line);
        Ok(())
    }

    /// The line at an index, from 0; `None` exactly at or past the length.
    pub fn line(&self, index: u32) -> Option<AuditLine>
        ensures { result ≡ slice_get self.now.lines index }
    {
        self.lines.get(index as usize).copied()
    }

    /// How many lines it has, at most as many as it takes.
    pub fn len(&self) -> u32
        ensures len { result ≡ length self.now.lines }
        ensures few { result ≤ self.now.cap }
    {
        self.lines.len() as u32
    }

    /// Whether it has as many lines as it takes.
    pub fn full(&self) -> bool
        ensures { result ≡ (length self.now.lines == self.now.cap) }
    {
        self.lines.len() == self.cap as usize
    }
}
