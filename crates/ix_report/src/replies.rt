ghost use Rattle.std.specs.{Prelude.{◌≡◌, ◌≤◌, ◌++◌, [], OnOk, codes, false, length, true}, Fmt.{decimal}};
ghost use Rattle.ix_label.specs.declared.form.Form.{Form};
ghost use Rattle.ix_model.specs.rows.Refusals.{number_of};
ghost use Rattle.ix_label.specs.Spelling.{spelling};
ghost use Rattle.ix_report.specs.{Hex.{hex}, Names.{name_text}, RefusalText.{refusal_text}, Words.{act_text, kind_text}, ReplyText.{audit_text, reply_text}};
ghost use Rattle.ix_text.specs.Spellings.{privs_text, state_text};

use crate::line::Line;
use crate::pieces::{push_escaped, push_hex, push_number, push_privs};
use crate::refusals::name_of;
use crate::short::Short;
use crate::words::{act_word, kind_word};
use ix_label::{Form, Label};
use ix_model::{AuditLine, Fd, Kind, Name, NoMemory, Obj, Pid, PrivSet, Refusal, Reply};
use ix_text::state_word;

/// A word, which ends with its space, and a number.
#[inline(always)]
fn push_word_number(line: &mut Line, word: &[u8], n: u64) -> Result<(), NoMemory>
    ensures stays { line.new.before ≡ line.old.before }
    ensures text { OnOk result (line.new.text ≡ line.old.text ++ (word.now ++ decimal n)) }
{
    line.push(word)?;
    push_number(line, n)
}

/// Two sets of privileges, each after a space.
fn push_both_privs(line: &mut Line, cap: PrivSet, lic: PrivSet) -> Result<(), NoMemory>
    ensures stays { line.new.before ≡ line.old.before }
    ensures text { OnOk result (line.new.text ≡ line.old.text ++ (codes " " ++ privs_text cap ++ codes " " ++ privs_text lic)) }
{
    line.push_byte(b' ')?;
    push_privs(line, cap)?;
    line.push_byte(b' ')?;
    push_privs(line, lic)
}

/// The descriptors of a pipe's two ends.
fn push_two(line: &mut Line, first: Fd, second: Fd) -> Result<(), NoMemory>
    ensures stays { line.new.before ≡ line.old.before }
    ensures text { OnOk result (line.new.text ≡ line.old.text ++ (codes " = two " ++ decimal first.0 ++ codes " " ++ decimal second.0)) }
{
    push_word_number(line, b" = two ", u64::from(first.0))?;
    push_word_number(line, b" ", u64::from(second.0))
}

/// How many bytes were read, and the bytes.
fn push_bytes(line: &mut Line, count: u32, bytes: &[u8]) -> Result<(), NoMemory>
    ensures stays { line.new.before ≡ line.old.before }
    ensures text { OnOk result (line.new.text ≡ line.old.text ++ (codes " = bytes " ++ decimal count ++ codes " x" ++ hex bytes.now)) }
{
    push_word_number(line, b" = bytes ", u64::from(count))?;
    line.push(b" x")?;
    push_hex(line, bytes)
}

/// What an object is: its number, kind, size and names.
fn push_object_size(
    line: &mut Line,
    obj: Obj,
    kind: Kind,
    size: u64,
    links: u32,
) -> Result<(), NoMemory>
    ensures stays { line.new.before ≡ line.old.before }
    ensures text { OnOk result (line.new.text ≡ line.old.text
        ++ (codes " = stat " ++ decimal obj.0 ++ codes " " ++ kind_text kind ++ codes " " ++ decimal size ++ codes " " ++ decimal links)) }
{
    push_word_number(line, b" = stat ", u64::from(obj.0))?;
    line.push_byte(b' ')?;
    line.push(kind_word(kind))?;
    push_word_number(line, b" ", size)?;
    push_word_number(line, b" ", u64::from(links))
}

/// Whether a label is frozen, after a space, and two sets of privileges.
fn push_state(line: &mut Line, frozen: bool, cap: PrivSet, lic: PrivSet) -> Result<(), NoMemory>
    ensures stays { line.new.before ≡ line.old.before }
    ensures text { OnOk result (line.new.text ≡ line.old.text
        ++ (codes " " ++ state_text frozen ++ codes " " ++ privs_text cap ++ codes " " ++ privs_text lic)) }
{
    line.push_byte(b' ')?;
    line.push(state_word(frozen))?;
    push_both_privs(line, cap, lic)
}

/// An entry of a directory.
fn push_named(line: &mut Line, name: &Name, obj: Obj) -> Result<(), NoMemory>
    ensures stays { line.new.before ≡ line.old.before }
    ensures text { OnOk result (line.new.text ≡ line.old.text ++ (codes " = entry " ++ name_text name.now ++ codes " " ++ decimal obj.0)) }
{
    line.push(b" = entry ")?;
    push_escaped(line, name.as_bytes())?;
    push_word_number(line, b" ", u64::from(obj.0))
}

/// Who has claimed the other end.
fn push_whole(
    line: &mut Line,
    form: Form,
    pid: Pid,
    label: &Label,
    lic: PrivSet,
) -> Result<(), NoMemory>
    ensures stays { line.new.before ≡ line.old.before }
    ensures text { OnOk result (line.new.text ≡ line.old.text
        ++ (codes " = whole p" ++ decimal pid.0 ++ codes " " ++ spelling form label.now ++ codes " " ++ privs_text lic)) }
{
    push_word_number(line, b" = whole p", u64::from(pid.0))?;
    line.push_byte(b' ')?;
    line.push_label(form, label)?;
    line.push_byte(b' ')?;
    push_privs(line, lic)
}

/// A child that has ended.
fn push_child(line: &mut Line, pid: Pid, status: u8) -> Result<(), NoMemory>
    ensures stays { line.new.before ≡ line.old.before }
    ensures text { OnOk result (line.new.text ≡ line.old.text ++ (codes " = child p" ++ decimal pid.0 ++ codes " " ++ decimal status)) }
{
    push_word_number(line, b" = child p", u64::from(pid.0))?;
    push_word_number(line, b" ", u64::from(status))
}

/// A refusal: its number and its name.
fn push_refusal(line: &mut Line, why: Refusal) -> Result<(), NoMemory>
    ensures stays { line.new.before ≡ line.old.before }
    ensures text { OnOk result (line.new.text ≡ line.old.text ++ (codes " = no " ++ decimal (number_of why) ++ codes " " ++ refusal_text why)) }
{
    push_word_number(line, b" = no ", u64::from(why.number()))?;
    line.push_byte(b' ')?;
    line.push(name_of(why))
}

/// Who acted where, on what.
fn push_act(line: &mut Line, audit: &AuditLine) -> Result<(), NoMemory>
    ensures stays { line.new.before ≡ line.old.before }
    ensures text { OnOk result (line.new.text ≡ line.old.text
        ++ (decimal audit.entry.now.place ++ codes " p" ++ decimal audit.entry.now.pid.0 ++ codes " " ++ act_text audit.entry.now.act
        ++ codes " " ++ decimal audit.entry.now.target)) }
{
    push_number(line, u64::from(audit.place))?;
    push_word_number(line, b" p", u64::from(audit.pid.0))?;
    line.push_byte(b' ')?;
    line.push(act_word(audit.act))?;
    push_word_number(line, b" ", u64::from(audit.target))
}

/// An audit line, without its line feed.
#[tactic(auto, unfolding(crate::specs::ReplyText::audit_text))]
pub fn push_audit(line: &mut Line, form: Form, audit: &AuditLine) -> Result<(), NoMemory>
    ensures stays { line.new.before ≡ line.old.before }
    ensures text { OnOk result (line.new.text ≡ line.old.text ++ audit_text form audit.entry.now) }
{
    push_act(line, audit)?;
    line.push_byte(b' ')?;
    line.push_label(form, &audit.was)?;
    line.push_byte(b' ')?;
    line.push_label(form, &audit.now)?;
    push_both_privs(line, audit.cap, audit.lic)
}

/// A reply after its sign; of one that so many bytes were read, with these bytes.
#[tactic(auto, unfolding(crate::specs::ReplyText::reply_text))]
pub fn push_reply(line: &mut Line, form: Form, reply: &Reply, bytes: &[u8]) -> Result<(), NoMemory>
    ensures stays { line.new.before ≡ line.old.before }
    ensures text { OnOk result (line.new.text ≡ line.old.text ++ (codes " = " ++ reply_text form reply.now bytes.now)) }
{
    match reply {
        Reply::Done => line.push(b" = done"),
        Reply::Number(n) => push_word_number(line, b" = number ", *n),
        Reply::Two(first, second) => push_two(line, *first, *second),
        Reply::Bytes(count) => push_bytes(line, *count, bytes),
        Reply::Stat {
            obj,
            kind,
            size,
            links,
            frozen,
            cap,
            lic,
        } => {
            push_object_size(line, *obj, *kind, *size, *links)?;
            push_state(line, *frozen, *cap, *lic)
        }
        Reply::Lab(label) => {
            line.push(b" = label ")?;
            line.push_label(form, label)
        }
        Reply::Named { name, obj } => push_named(line, name, *obj),
        Reply::Half => line.push(b" = half"),
        Reply::Whole { pid, label, lic } => push_whole(line, form, *pid, label, *lic),
        Reply::LogLine(audit) => {
            line.push(b" = log ")?;
            push_audit(line, form, audit)
        }
        Reply::Child { pid, status } => push_child(line, *pid, *status),
        Reply::No(why) => push_refusal(line, *why),
    }
}

/// Writes a reply after its sign, and the sign of the label that comes next, where the reply is short. Whether it was: if not,
/// nothing is written.
#[inline(always)]
#[tactic(auto, unfolding(crate::specs::ReplyText::reply_text))]
pub fn put_reply(text: &mut Short, reply: &Reply, bytes: &[u8]) -> bool
    requires { text.old ≡ [] }
    ensures put { (form : Form) → result ≡ true → text.new ≡ codes " = " ++ reply_text form reply.now bytes.now ++ codes " @ " }
    ensures stays { result ≡ false → text.new ≡ [] }
    ensures few { length text.new ≤ 64 }
{
    match reply {
        Reply::Done => text.bytes(b" = done @ "),
        Reply::Number(n) => {
            if *n > u64::from(u32::MAX) {
                return false;
            }
            text.bytes(b" @ ");
            text.small(*n as u32);
            text.bytes(b" = number ");
        }
        Reply::Bytes(count) => {
            if bytes.len() > 16 {
                return false;
            }
            text.bytes(b" @ ");
            text.hex(bytes);
            text.bytes(b" x");
            text.small(*count);
            text.bytes(b" = bytes ");
        }
        Reply::No(why) => {
            text.bytes(b" @ ");
            text.bytes(name_of(*why));
            text.byte(b' ');
            text.small(u32::from(why.number()));
            text.bytes(b" = no ");
        }
        _ => return false,
    }
    true
}
