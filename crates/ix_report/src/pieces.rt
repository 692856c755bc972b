ghost use Rattle.std.specs.{Prelude.{◌≡◌, ◌*◌, ◌≤◌, ◌++◌, length, take, OnOk, codes}, Fmt.{decimal}};
ghost use Rattle.ix_model.specs.world.Paths.{path_of};
ghost use Rattle.ix_text.specs.Spellings.{hex_pair, privs_text};
ghost use Rattle.ix_report.specs.{Hex.{hex}, Names.{name_byte, name_text, names_text, path_text}};

use crate::line::Line;
use itoa::{Buffer, write_digits};
use ix_model::{NoMemory, Path, PrivSet};
use ix_text::{hex_pair, privs_text};

/// A number in decimal. One of a single digit takes a short way, which stands where it is called.
#[inline(always)]
#[tactic(auto, using(std::proofs::lemmas::Fmt::decimal_digit))]
pub fn push_number(line: &mut Line, n: u64) -> Result<(), NoMemory>
    ensures stays { line.new.before ≡ line.old.before }
    ensures text { OnOk result (line.new.text ≡ line.old.text ++ decimal n) }
{
    if n < 10 {
        return line.push_byte(b'0' + n as u8);
    }
    push_digits(line, n)
}

/// A number of two digits or more.
#[inline(never)]
#[tactic(auto, using(crate::proofs::Pairs::decimal_two))]
fn push_digits(line: &mut Line, n: u64) -> Result<(), NoMemory>
    requires { 10 ≤ n }
    ensures stays { line.new.before ≡ line.old.before }
    ensures text { OnOk result (line.new.text ≡ line.old.text ++ decimal n) }
{
    if n < 100 {
        let (tens, ones) = (n as u8 / 10, n as u8 % 10);
        return line.push(&[b'0' + tens, b'0' + ones]);
    }
    let mut digits = Buffer::new();
    line.push(digits.format(n).as_bytes())
}

/// A number in decimal and a space after it, written at once.
#[tactic(auto, using(crate::proofs::Pairs::decimal_fits))]
pub fn push_spaced(line: &mut Line, n: u64) -> Result<(), NoMemory>
    ensures stays { line.new.before ≡ line.old.before }
    ensures text { OnOk result (line.new.text ≡ line.old.text ++ (decimal n ++ codes " ")) }
{
    let mut room = [b' '; 21];
    let start = write_digits(n, &mut room, 20);
    line.push(&room[start..])
}

/// Bytes as pairs of small hexadecimal digits, 32 bytes at a time.
#[tactic(auto, using(crate::proofs::Pairs::parts_hex))]
pub fn push_hex(line: &mut Line, bytes: &[u8]) -> Result<(), NoMemory>
    ensures stays { line.new.before ≡ line.old.before }
    ensures text { OnOk result (line.new.text ≡ line.old.text ++ hex bytes.now) }
{
    let mut pairs = [0; 64];
    let mut rest = bytes;
    'parts: while !rest.is_empty() {
        let (part, more) = rest.split_at(rest.len().min(32));
        fill_pairs(&mut pairs, part);
        line.push(&pairs[..2 * part.len()])?;
        rest = more;
    }
    Ok(())
}

/// The pairs of at most 32 bytes, from the front of an array on.
#[tactic(auto, using(crate::proofs::Pairs::take_two))]
fn fill_pairs(pairs: &mut [u8; 64], part: &[u8])
    requires { length part.now ≤ 32 }
    ensures { take (2 * length part.now) pairs.new ≡ hex part.now }
{
    let mut at = 0;
    for byte in part {
        let pair = hex_pair(*byte);
        pairs[at] = pair[0];
        pairs[at + 1] = pair[1];
        at += 2;
    }
}

/// A byte of a name, as it is or escaped.
fn push_name_byte(line: &mut Line, byte: u8) -> Result<(), NoMemory>
    ensures stays { line.new.before ≡ line.old.before }
    ensures text { OnOk result (line.new.text ≡ line.old.text ++ name_byte byte) }
{
    if (0x21..=0x7e).contains(&byte) && byte != b'"' && byte != b'\\' {
        return line.push_byte(byte);
    }
    line.push(b"\\x")?;
    line.push(&hex_pair(byte))
}

/// The bytes of a name, or of names with a slash between each two: those are escaped that don't stand in a path as they are.
pub fn push_escaped(line: &mut Line, text: &[u8]) -> Result<(), NoMemory>
    ensures stays { line.new.before ≡ line.old.before }
    ensures text { OnOk result (line.new.text ≡ line.old.text ++ name_text text.now) }
{
    for byte in text {
        push_name_byte(line, *byte)?;
    }
    Ok(())
}

/// The names of a path with a slash between each two.
#[tactic(auto, using(crate::proofs::Names::names_written))]
fn push_joined(line: &mut Line, path: &Path<'_>) -> Result<(), NoMemory>
    ensures stays { line.new.before ≡ line.old.before }
    ensures text { OnOk result (line.new.text ≡ line.old.text ++ names_text (path_of path.now).names) }
{
    push_escaped(line, path.text())
}

/// A path. The root is a slash, and the relative path of no names a dot.
#[tactic(auto, using(crate::proofs::Names::some_names), unfolding(crate::specs::Names::path_text))]
pub fn push_path(line: &mut Line, path: &Path<'_>) -> Result<(), NoMemory>
    ensures stays { line.new.before ≡ line.old.before }
    ensures text { OnOk result (line.new.text ≡ line.old.text ++ path_text (path_of path.now)) }
{
    if path.absolute() {
        line.push_byte(b'/')?;
        return push_joined(line, path);
    }
    if path.text().is_empty() {
        return line.push_byte(b'.');
    }
    push_joined(line, path)
}

/// A set of privileges: a dash, or letters.
pub fn push_privs(line: &mut Line, set: PrivSet) -> Result<(), NoMemory>
    ensures stays { line.new.before ≡ line.old.before }
    ensures text { OnOk result (line.new.text ≡ line.old.text ++ privs_text set) }
{
    line.push(privs_text(set).as_slice())
}
