ghost use Rattle.std.specs.{Prelude.{◌≡◌, ◌≤◌, ℕ, ◌++◌, OnOk, OnErr, codes, length}, Option.{option_copied}, Fmt.{decimal}};
ghost use Rattle.ix_model.specs.history.{Calls.{op_of}, Made.{entry}};
ghost use Rattle.ix_report.specs.{CallText.{call_text}, ReplyText.{AreBytesOf}, LineText.{audit_line, entry_line, head_line, object_line, process_line, seen_text, tail_line}};

use crate::calls::{push_call, put_call};
use crate::line::Line;
use crate::pieces::{push_number, push_spaced};
use crate::replies::{push_audit, push_reply, put_reply};
use crate::short::Short;
use crate::words::{kind_word, life_word};
use ix_label::{Form, Label};
use ix_model::{AuditLine, Call, NoMemory, ObjView, Pid, ProcView, Reply};
use ix_text::state_word;

/// Appends the first line. After `NoMemory` the bytes are as they were.
#[tactic(auto, unfolding(crate::specs::LineText::head_line))]
pub fn head(out: &mut Vec<u8>, form: Form) -> Result<(), NoMemory>
    ensures ok { OnOk result (out.new.items ≡ out.old.items ++ head_line form) }
    ensures err { OnErr result (out.new.items ≡ out.old.items) }
{
    let mut line = Line::begin(out);
    let written = match form {
        Form::One => line.push(b"ix 1 report\n"),
        Form::Two => line.push(b"ix 2 report\n"),
    };
    line.end(out, written)
}

/// Appends the line of an entry, whatever its seat: its place in the history, the name of its lane, its line of the script, who
/// calls, the call and the reply, and the label of the caller's record after the entry, where there is one. `bytes` are those
/// that were read, where the reply says that some were; else they don't matter. After `NoMemory` the bytes of
/// `out` are as they were.
#[inline(always)]
pub fn entry_line(
    out: &mut Vec<u8>,
    form: Form,
    place: u32,
    lane: &[u8],
    number: u32,
    pid: Pid,
    call: &Call<'_>,
    reply: &Reply,
    bytes: &[u8],
    label: Option<&Label>,
) -> Result<(), NoMemory>
    requires bytes { AreBytesOf reply.now bytes.now }
    ensures ok { (seat : ℕ) → OnOk result (out.new.items ≡ out.old.items
        ++ entry_line form place lane.now (entry seat number pid (op_of call.now)) reply.now bytes.now (option_copied label.entry)) }
    ensures err { OnErr result (out.new.items ≡ out.old.items) }
{
    let mut line = Line::begin(out);
    let written = push_entry(
        &mut line, form, place, lane, number, pid, call, reply, bytes, label,
    );
    line.end(out, written)
}

/// Appends the line of an object. After `NoMemory` the bytes are as they were.
pub fn object_line(
    out: &mut Vec<u8>,
    form: Form,
    number: u32,
    view: &ObjView,
) -> Result<(), NoMemory>
    ensures ok { OnOk result (out.new.items ≡ out.old.items ++ object_line form number view.now) }
    ensures err { OnErr result (out.new.items ≡ out.old.items) }
{
    let mut line = Line::begin(out);
    let written = push_object(&mut line, form, number, view);
    line.end(out, written)
}

/// Appends the line of a process. After `NoMemory` the bytes are as they were.
pub fn process_line(
    out: &mut Vec<u8>,
    form: Form,
    pid: Pid,
    view: &ProcView,
) -> Result<(), NoMemory>
    ensures ok { OnOk result (out.new.items ≡ out.old.items ++ process_line form pid.0 view.now) }
    ensures err { OnErr result (out.new.items ≡ out.old.items) }
{
    let mut line = Line::begin(out);
    let written = push_process(&mut line, form, pid, view);
    line.end(out, written)
}

/// Appends a line of the audit log. After `NoMemory` the bytes are as they were.
pub fn audit_line(out: &mut Vec<u8>, form: Form, line: &AuditLine) -> Result<(), NoMemory>
    ensures ok { OnOk result (out.new.items ≡ out.old.items ++ audit_line form line.entry.now) }
    ensures err { OnErr result (out.new.items ≡ out.old.items) }
{
    let mut text = Line::begin(out);
    let written = push_audit_line(&mut text, form, line);
    text.end(out, written)
}

/// Appends the last line: how many entries and audit lines there are. After `NoMemory` the bytes are as they were.
pub fn tail(out: &mut Vec<u8>, form: Form, entries: u32, lines: u32) -> Result<(), NoMemory>
    ensures ok { OnOk result (out.new.items ≡ out.old.items ++ tail_line entries lines) }
    ensures err { OnErr result (out.new.items ≡ out.old.items) }
{
    let _ = form;
    let mut line = Line::begin(out);
    let written = push_tail(&mut line, entries, lines);
    line.end(out, written)
}

/// The label of the caller's record, or that there is none.
fn push_seen(line: &mut Line, form: Form, label: Option<&Label>) -> Result<(), NoMemory>
    ensures stays { line.new.before ≡ line.old.before }
    ensures text { OnOk result (line.new.text ≡ line.old.text ++ seen_text form (option_copied label.entry)) }
{
    match label {
        Some(label) => line.push_label(form, label),
        None => line.push(b"none"),
    }
}

/// Where an entry stands, with a space after each: its place in the history, the name of its lane, and its line of the script.
fn push_front(line: &mut Line, place: u32, lane: &[u8], number: u32) -> Result<(), NoMemory>
    ensures stays { line.new.before ≡ line.old.before }
    ensures text { OnOk result (line.new.text ≡ line.old.text
        ++ (decimal place ++ codes " " ++ lane.now ++ codes " " ++ decimal number ++ codes " ")) }
{
    if lane.len() > 32 {
        return push_long_front(line, place, lane, number);
    }
    let mut text = Short::new();
    put_front(&mut text, place, lane, number);
    line.push(text.as_bytes())
}

/// The same before a text.
#[inline(always)]
fn put_front(text: &mut Short, place: u32, lane: &[u8], number: u32)
    requires lane { length lane.now ≤ 32 }
    requires room { length text.old ≤ 128 }
    ensures { text.new ≡ decimal place ++ codes " " ++ lane.now ++ codes " " ++ decimal number ++ codes " " ++ text.old }
{
    text.byte(b' ');
    text.number(number);
    text.byte(b' ');
    text.bytes(lane);
    text.byte(b' ');
    text.number(place);
}

/// Where an entry stands, its call, and the text after it. A short call is written with all of it at once.
#[inline(always)]
fn push_made(
    line: &mut Line,
    form: Form,
    place: u32,
    lane: &[u8],
    number: u32,
    pid: Pid,
    call: &Call<'_>,
    text: &mut Short,
) -> Result<(), NoMemory>
    requires { length text.old ≤ 64 }
    ensures stays { line.new.before ≡ line.old.before }
    ensures text { OnOk result (line.new.text ≡ line.old.text
        ++ (decimal place ++ codes " " ++ lane.now ++ codes " " ++ decimal number ++ codes " " ++ call_text form pid.0 (op_of call.now) ++ text.old)) }
{
    if lane.len() <= 32 && put_call(text, pid, call) {
        put_front(text, place, lane, number);
        return line.push(text.as_bytes());
    }
    push_front(line, place, lane, number)?;
    push_call(line, form, pid, call)?;
    line.push(text.as_bytes())
}

/// The same, of a lane with a long name.
#[inline(never)]
fn push_long_front(line: &mut Line, place: u32, lane: &[u8], number: u32) -> Result<(), NoMemory>
    ensures stays { line.new.before ≡ line.old.before }
    ensures text { OnOk result (line.new.text ≡ line.old.text
        ++ (decimal place ++ codes " " ++ lane.now ++ codes " " ++ decimal number ++ codes " ")) }
{
    push_spaced(line, u64::from(place))?;
    line.push(lane)?;
    line.push_byte(b' ')?;
    push_spaced(line, u64::from(number))
}

/// The line of an entry.
#[inline(always)]
#[tactic(auto, unfolding(crate::specs::LineText::entry_line))]
fn push_entry(
    line: &mut Line,
    form: Form,
    place: u32,
    lane: &[u8],
    number: u32,
    pid: Pid,
    call: &Call<'_>,
    reply: &Reply,
    bytes: &[u8],
    label: Option<&Label>,
) -> Result<(), NoMemory>
    ensures stays { line.new.before ≡ line.old.before }
    ensures text { (seat : ℕ) → OnOk result (line.new.text ≡ line.old.text
        ++ entry_line form place lane.now (entry seat number pid (op_of call.now)) reply.now bytes.now (option_copied label.entry)) }
{
    let mut text = Short::new();
    let told = put_reply(&mut text, reply, bytes);
    push_made(line, form, place, lane, number, pid, call, &mut text)?;
    if !told {
        push_reply(line, form, reply, bytes)?;
        line.push(b" @ ")?;
    }
    push_seen(line, form, label)?;
    line.push_byte(b'\n')
}

/// The line of an object.
#[tactic(auto, unfolding(crate::specs::LineText::object_line))]
fn push_object(line: &mut Line, form: Form, number: u32, view: &ObjView) -> Result<(), NoMemory>
    ensures stays { line.new.before ≡ line.old.before }
    ensures text { OnOk result (line.new.text ≡ line.old.text ++ object_line form number view.now) }
{
    push_number(line, u64::from(number))?;
    line.push_byte(b' ')?;
    line.push(kind_word(view.kind))?;
    line.push_byte(b' ')?;
    line.push_label(form, &view.label)?;
    line.push_byte(b' ')?;
    line.push(state_word(view.frozen))?;
    line.push_byte(b'\n')
}

/// The line of a process.
#[tactic(auto, unfolding(crate::specs::LineText::process_line))]
fn push_process(line: &mut Line, form: Form, pid: Pid, view: &ProcView) -> Result<(), NoMemory>
    ensures stays { line.new.before ≡ line.old.before }
    ensures text { OnOk result (line.new.text ≡ line.old.text ++ process_line form pid.0 view.now) }
{
    line.push_byte(b'p')?;
    push_number(line, u64::from(pid.0))?;
    line.push_byte(b' ')?;
    line.push_label(form, &view.label)?;
    line.push_byte(b' ')?;
    line.push(life_word(view.ended))?;
    line.push_byte(b'\n')
}

/// A line of the audit log.
#[tactic(auto, unfolding(crate::specs::LineText::audit_line))]
fn push_audit_line(line: &mut Line, form: Form, audit: &AuditLine) -> Result<(), NoMemory>
    ensures stays { line.new.before ≡ line.old.before }
    ensures text { OnOk result (line.new.text ≡ line.old.text ++ audit_line form audit.entry.now) }
{
    push_audit(line, form, audit)?;
    line.push_byte(b'\n')
}

/// The last line.
#[tactic(auto, unfolding(crate::specs::LineText::tail_line))]
fn push_tail(line: &mut Line, entries: u32, lines: u32) -> Result<(), NoMemory>
    ensures stays { line.new.before ≡ line.old.before }
    ensures text { OnOk result (line.new.text ≡ line.old.text ++ tail_line entries lines) }
{
    line.push(b"end ")?;
    push_number(line, u64::from(entries))?;
    line.push_byte(b' ')?;
    push_number(line, u64::from(lines))?;
    line.push_byte(b'\n')
}
