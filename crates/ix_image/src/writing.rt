//! The fields of an image, as they are written.
ghost use Rattle.std.specs.Prelude.{◌≡◌, ◌<◌, ◌+◌, ◌≤◌, ◌++◌, length, OnOk};
ghost use Rattle.ix_label.specs.{Category.{has}, Words.{from_bits}};
ghost use Rattle.ix_image.specs.{Labelled.{label_bytes}, Image.{four, name_bytes, file_system_bytes, link_bytes, marks_bytes}, Saving.{start_bytes}};

use crate::marks::Marks;
use bitflags::Flags;
use ix_label::{Label, Steps};
use ix_model::{FsSpec, NoMemory};
use ix_report::Line;
use std::marker::Brand;
use std::sync::ledger::{Blank, Ledger};

/// A number of four bytes, the most significant first.
pub fn push_four(line: &mut Line, number: u32) -> Result<(), NoMemory>
    ensures stays { line.new.before ≡ line.old.before }
    ensures text { OnOk result (line.new.text ≡ line.old.text ++ four number) }
{
    line.push(&number.to_be_bytes())
}

/// A name behind its length.
fn push_name(line: &mut Line, name: &[u8]) -> Result<(), NoMemory>
    requires { length name.now < 256 }
    ensures stays { line.new.before ≡ line.old.before }
    ensures text { OnOk result (line.new.text ≡ line.old.text ++ name_bytes name.now) }
{
    line.push_byte(name.len() as u8)?;
    line.push(name)
}

/// A label.
pub fn push_label(line: &mut Line, label: &Label) -> Result<(), NoMemory>
    ensures stays { line.new.before ≡ line.old.before }
    ensures text { OnOk result (line.new.text ≡ line.old.text ++ label_bytes label.now) }
{
    for k in 0..64 {
        line.push_byte(label_byte(label, 8 * k))?;
    }
    Ok(())
}

/// The byte of eight categories of a label, of which the first is the least bit, where nobody is told of the look.
fn label_byte(label: &Label, first: u16) -> u8
    requires { first + 8 ≤ 512 }
    ensures { result ≡ from_bits (λ i. has label.now (first + i)) 8 }
{
    label_byte_counted::<Brand>(label, first, Blank::new(1))
}

/// The same, with the looks counted under a ledger.
fn label_byte_counted<L: Ledger>(label: &Label, first: u16, blank: Blank) -> u8
    requires small { first + 8 ≤ 512 }
    requires name { blank.name ≡ L.name }
    requires parts { blank.parts ≡ L.parts }
    requires some { 0 < L.parts }
    ensures { result ≡ from_bits (λ i. has label.now (first + i)) 8 }
{
    let mut steps = Steps::<L>::new(blank);
    let mut byte = 0;
    for bit in 0..8 {
        if label.has(first + bit, &mut steps) {
            byte += 1 << bit;
        }
    }
    byte
}

/// The first bytes, and how many file systems there are.
pub fn push_start(line: &mut Line, systems: u32) -> Result<(), NoMemory>
    ensures stays { line.new.before ≡ line.old.before }
    ensures text { OnOk result (line.new.text ≡ line.old.text ++ start_bytes systems) }
{
    line.push(b"IXIMAGE1")?;
    push_four(line, systems)
}

/// A file system.
pub fn push_file_system(line: &mut Line, fs: &FsSpec) -> Result<(), NoMemory>
    ensures stays { line.new.before ≡ line.old.before }
    ensures text { OnOk result (line.new.text ≡ line.old.text ++ file_system_bytes fs.now) }
{
    push_name(line, fs.name.as_bytes())?;
    push_label(line, &fs.ceiling)?;
    push_four(line, fs.blocks)?;
    push_four(line, fs.inodes)
}

/// What stands between an object's number and its label.
pub fn push_marks(line: &mut Line, marks: &Marks) -> Result<(), NoMemory>
    ensures stays { line.new.before ≡ line.old.before }
    ensures text { OnOk result (line.new.text ≡ line.old.text ++ marks_bytes marks.now) }
{
    let (cap, lic) = (marks.cap.bits(), marks.lic.bits());
    line.push(&[u8::from(marks.is_dir), u8::from(marks.frozen), cap, lic])
}

/// A name with the number of its object.
pub fn push_link(line: &mut Line, name: &[u8], object: u32) -> Result<(), NoMemory>
    requires { length name.now < 256 }
    ensures stays { line.new.before ≡ line.old.before }
    ensures text { OnOk result (line.new.text ≡ line.old.text ++ link_bytes (name.now, object)) }
{
    push_name(line, name)?;
    push_four(line, object)
}
