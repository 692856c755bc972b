ghost use Rattle.std.specs.{Prelude.{◌≡◌, ◌++◌, OnOk, codes}, Fmt.{decimal}};
ghost use Rattle.ix_check.specs.{Verdicts.{verdict_line}, Judging.{verdict_of}};

use itoa::Buffer;
use ix_model::NoMemory;

/// What is answered of a text that claims to be a report of a script.
#[derive(Clone, Copy, Debug, PartialEq, Eq)]
pub enum Verdict {
    /// It is a report, of so many entries.
    Yes(u32),
    /// It is none, and no report goes on at the line of this number, counted from 1.
    No(u64),
}

/// Appends bytes.
fn push(out: &mut Vec<u8>, bytes: &[u8]) -> Result<(), NoMemory>
    ensures { OnOk result (out.new.items ≡ out.old.items ++ bytes.now) }
{
    out.extend_from_slice(bytes).map_err(|_| NoMemory)
}

/// Appends a word, a number and a line feed.
fn push_number(out: &mut Vec<u8>, word: &[u8], n: u64) -> Result<(), NoMemory>
    ensures { OnOk result (out.new.items ≡ out.old.items ++ (word.now ++ decimal n ++ codes "\n")) }
{
    let mut digits = Buffer::new();
    push(out, word)?;
    push(out, digits.format(n).as_bytes())?;
    push(out, b"\n")
}

/// Appends the line of an answer, with its line feed. After `NoMemory` some of it may stand there.
#[tactic(auto, unfolding(crate::specs::Verdicts::verdict_line))]
pub fn push_verdict(out: &mut Vec<u8>, verdict: Verdict) -> Result<(), NoMemory>
    ensures { OnOk result (out.new.items ≡ out.old.items ++ verdict_line (verdict_of verdict)) }
{
    match verdict {
        Verdict::Yes(entries) => push_number(out, b"yes ", u64::from(entries)),
        Verdict::No(n) => push_number(out, b"no ", n),
    }
}
