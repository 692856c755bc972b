ghost use Rattle.std.specs.Prelude.{◌≡◌, ◌++◌, OnOk, OnErr};
ghost use Rattle.ix_report.specs.LineText.{counted, totals_line};

use crate::line::Line;
use crate::pieces::push_number;
use ix_model::NoMemory;

/// What a history comes to.
#[derive(Clone, Copy, Debug, PartialEq, Eq)]
pub struct Totals {
    pub entries: u32,
    /// How many of them were refused.
    pub refused: u32,
    /// The bytes that were read.
    pub read: u64,
    /// The bytes that were written.
    pub written: u64,
    /// How many lines the audit log has.
    pub lines: u32,
}

/// Appends the one line of a summary: of how many commands a script was made, and what its history comes to. After
/// `NoMemory` the bytes are as they were.
pub fn totals_line(out: &mut Vec<u8>, commands: u32, totals: &Totals) -> Result<(), NoMemory>
    ensures ok { OnOk result (out.new.items ≡ out.old.items ++ totals_line commands totals.now) }
    ensures err { OnErr result (out.new.items ≡ out.old.items) }
{
    let mut line = Line::begin(out);
    let written = push_totals(&mut line, commands, totals);
    line.end(out, written)
}

/// A number after its word.
fn push_counted(line: &mut Line, word: &[u8], n: u64) -> Result<(), NoMemory>
    ensures stays { line.new.before ≡ line.old.before }
    ensures text { OnOk result (line.new.text ≡ line.old.text ++ counted word.now n) }
{
    line.push(word)?;
    push_number(line, n)
}

/// The line of a summary.
#[tactic(auto, unfolding(crate::specs::LineText::totals_line))]
fn push_totals(line: &mut Line, commands: u32, totals: &Totals) -> Result<(), NoMemory>
    ensures stays { line.new.before ≡ line.old.before }
    ensures text { OnOk result (line.new.text ≡ line.old.text ++ totals_line commands totals.now) }
{
    push_counted(line, b"gen ", u64::from(commands))?;
    push_counted(line, b" entries ", u64::from(totals.entries))?;
    push_counted(line, b" refused ", u64::from(totals.refused))?;
    push_counted(line, b" read ", totals.read)?;
    push_counted(line, b" written ", totals.written)?;
    push_counted(line, b" log ", u64::from(totals.lines))?;
    line.push_byte(b'\n')
}
