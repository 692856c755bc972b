//! The lines of a list.
ghost use Rattle.std.specs.Prelude.{◌≡◌, ◌++◌, OnOk, OnErr, if◌then◌else◌, codes};
ghost use Rattle.ix_image.specs.{Lines.{file_system_line, node_line, link_line, end_line, kind_text}, Meant.{link_of, node_of}};

use crate::labels::label_in;
use crate::naming::Link;
use crate::node::Node;
use ix_label::Form;
use ix_model::{FsSpec, NoMemory};
use ix_report::{Line, push_escaped, push_number, push_privs};
use ix_text::state_word;

/// Appends the line of a file system. After `NoMemory` the bytes are as they were.
pub fn file_system_line(out: &mut Vec<u8>, fs: &FsSpec) -> Result<(), NoMemory>
    ensures ok { OnOk result (out.new.items ≡ out.old.items ++ file_system_line fs.now) }
    ensures err { OnErr result (out.new.items ≡ out.old.items) }
{
    let mut line = Line::begin(out);
    let written = push_file_system(&mut line, fs);
    line.end(out, written)
}

/// Appends the line of an object. After `NoMemory` the bytes are as they were.
pub fn node_line(out: &mut Vec<u8>, node: &Node<'_>) -> Result<(), NoMemory>
    ensures ok { OnOk result (out.new.items ≡ out.old.items ++ node_line (node_of node.now)) }
    ensures err { OnErr result (out.new.items ≡ out.old.items) }
{
    let mut line = Line::begin(out);
    let written = push_node(&mut line, node);
    line.end(out, written)
}

/// Appends the line of a name in a directory. After `NoMemory` the bytes are as they were.
pub fn link_line(out: &mut Vec<u8>, dir: u32, link: &Link<'_>) -> Result<(), NoMemory>
    ensures ok { OnOk result (out.new.items ≡ out.old.items ++ link_line dir (link_of link.now)) }
    ensures err { OnErr result (out.new.items ≡ out.old.items) }
{
    let mut line = Line::begin(out);
    let written = push_link(&mut line, dir, link);
    line.end(out, written)
}

/// Appends the last line: how many objects and names there are. After `NoMemory` the bytes are as they were.
pub fn end_line(out: &mut Vec<u8>, objects: u64, names: u64) -> Result<(), NoMemory>
    ensures ok { OnOk result (out.new.items ≡ out.old.items ++ end_line objects names) }
    ensures err { OnErr result (out.new.items ≡ out.old.items) }
{
    let mut line = Line::begin(out);
    let written = push_end(&mut line, objects, names);
    line.end(out, written)
}

/// The line of a file system.
#[tactic(auto, unfolding(crate::specs::Lines::file_system_line))]
fn push_file_system(line: &mut Line, fs: &FsSpec) -> Result<(), NoMemory>
    ensures stays { line.new.before ≡ line.old.before }
    ensures text { OnOk result (line.new.text ≡ line.old.text ++ file_system_line fs.now) }
{
    line.push(b"fs ")?;
    push_escaped(line, fs.name.as_bytes())?;
    line.push_byte(b' ')?;
    line.push_label(Form::Two, &fs.ceiling)?;
    line.push_byte(b' ')?;
    push_number(line, u64::from(fs.blocks))?;
    line.push_byte(b' ')?;
    push_number(line, u64::from(fs.inodes))?;
    line.push_byte(b'\n')
}

/// The line of an object.
#[tactic(auto, unfolding(crate::specs::Lines::node_line))]
fn push_node(line: &mut Line, node: &Node<'_>) -> Result<(), NoMemory>
    ensures stays { line.new.before ≡ line.old.before }
    ensures text { OnOk result (line.new.text ≡ line.old.text ++ node_line (node_of node.now)) }
{
    push_number(line, u64::from(node.number))?;
    line.push_byte(b' ')?;
    line.push(kind_word(node))?;
    line.push_byte(b' ')?;
    line.push_label(Form::Two, &label_in(node.label))?;
    line.push_byte(b' ')?;
    line.push(state_word(node.frozen))?;
    line.push_byte(b' ')?;
    push_privs(line, node.cap)?;
    line.push_byte(b' ')?;
    push_privs(line, node.lic)?;
    line.push_byte(b' ')?;
    push_number(line, node.contents.size() as u64)?;
    line.push_byte(b'\n')
}

/// What an object is.
fn kind_word(node: &Node<'_>) -> &'static [u8]
    ensures { result.now ≡ kind_text (node_of node.now) }
{
    if node.contents.is_dir() {
        b"dir"
    } else {
        b"file"
    }
}

/// The line of a name in a directory.
#[tactic(auto, unfolding(crate::specs::Lines::link_line))]
fn push_link(line: &mut Line, dir: u32, link: &Link<'_>) -> Result<(), NoMemory>
    ensures stays { line.new.before ≡ line.old.before }
    ensures text { OnOk result (line.new.text ≡ line.old.text ++ link_line dir (link_of link.now)) }
{
    line.push(b"name ")?;
    push_number(line, u64::from(dir))?;
    line.push_byte(b' ')?;
    push_escaped(line, link.name)?;
    line.push_byte(b' ')?;
    push_number(line, u64::from(link.object))?;
    line.push_byte(b'\n')
}

/// The last line.
#[tactic(auto, unfolding(crate::specs::Lines::end_line))]
fn push_end(line: &mut Line, objects: u64, names: u64) -> Result<(), NoMemory>
    ensures stays { line.new.before ≡ line.old.before }
    ensures text { OnOk result (line.new.text ≡ line.old.text ++ end_line objects names) }
{
    line.push(b"end ")?;
    push_number(line, objects)?;
    line.push_byte(b' ')?;
    push_number(line, names)?;
    line.push_byte(b'\n')
}
