ghost use Rattle.std.specs.Prelude.{◌≡◌, ◌≤◌, ◌++◌, length, IfOk, OnOk};
ghost use Rattle.ix_gen.specs.Generated.{beginning, line_at, generated};

use ix_model::NoMemory;
use std::alloc::Global;

/// What every text begins with.
#[tactic(auto, unfolding(crate::specs::Generated::beginning))]
fn beginning() -> &'static [u8]
    ensures { result.now ≡ beginning }
{
    b"ix 1\n\
      limit log 0\n\
      proc a - 0-7 - -\n\
      proc b 3 * - -\n\
      proc c - - - -\n\
      file /x - free - - 64*00\n\
      file /y 5 free - - 64*00\n\
      phase\n\
      lane g\n\
      open a /x rw\n\
      open b /y r\n\
      open c /y r\n"
}

/// The line of the `k`-th command after that, with its line feed.
#[tactic(auto, unfolding(crate::specs::Generated::line_at))]
fn line_at(k: u32) -> &'static [u8]
    ensures { result.now ≡ line_at k }
{
    match k % 6 {
        1 => b"seek a 0 0\n",
        2 => b"write a 0 8*41\n",
        3 => b"seek b 0 0\n",
        4 => b"read b 0 16\n",
        5 => b"read a 0 4\n",
        _ => b"read c 0 8\n",
    }
}

/// Bytes at the end.
fn push(out: &mut Vec<u8>, bytes: &[u8]) -> Result<(), NoMemory>
    ensures { OnOk result (out.new.items ≡ out.old.items ++ bytes.now) }
{
    match out.extend_from_slice(bytes) {
        Ok(()) => Ok(()),
        Err(_) => Err(NoMemory),
    }
}

/// The script of the generator with so many commands, 1 to 100,000, after its beginning: at most 16,777,216 bytes. Only
/// where memory is wanting it answers `NoMemory`.
#[tactic(auto, using(crate::proofs::Told::next_line, crate::proofs::Told::all_lines, crate::proofs::Told::no_line, crate::proofs::Lengths::short_text))]
pub fn text(alloc: Global, count: u32) -> Result<Vec<u8>, NoMemory>
    requires some { 1 ≤ count }
    requires few { count ≤ 100000 }
    ensures text { IfOk result (λ text. text.items ≡ generated count) }
    ensures length { IfOk result (λ text. length text.items ≤ 16777216) }
{
    let mut out = Vec::with_capacity(alloc, 192 + 15 * count as usize)?;
    push(&mut out, beginning())?;
    for k in 1..count + 1 {
        push(&mut out, line_at(k))?;
    }
    Ok(out)
}
