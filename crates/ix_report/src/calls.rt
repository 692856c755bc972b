ghost use Rattle.std.specs.{Prelude.{◌≡◌, ◌+◌, ◌≤◌, ◌++◌, OnOk, codes, false, length, true}, Fmt.{decimal}};
ghost use Rattle.ix_label.specs.declared.form.Form.{Form};
ghost use Rattle.ix_model.specs.{history.Calls.{op_of}, world.Paths.{path_of}};
ghost use Rattle.ix_label.specs.Spelling.{spelling};
ghost use Rattle.ix_report.specs.{Hex.{hex}, Names.{path_text}, Words.{keep_text}, CallText.{call_text}};
ghost use Rattle.ix_text.specs.Spellings.{mode_text, privs_text};

use crate::line::Line;
use crate::pieces::{push_hex, push_number, push_path, push_privs};
use crate::short::Short;
use ix_label::{Form, Label};
use ix_model::{Call, Fd, Keep, Mode, NoMemory, Path, Pid, PrivSet};
use ix_text::mode_word;

/// A command's word, and the caller. The word ends with the `p` of the pid.
#[inline(always)]
fn push_command(line: &mut Line, word: &[u8], pid: Pid) -> Result<(), NoMemory>
    ensures stays { line.new.before ≡ line.old.before }
    ensures text { OnOk result (line.new.text ≡ line.old.text ++ (word.now ++ decimal pid.0)) }
{
    line.push(word)?;
    push_number(line, u64::from(pid.0))
}

/// The same before a text. The word is short.
#[inline(always)]
fn put_command(text: &mut Short, word: &[u8], pid: Pid)
    requires word { length word.now ≤ 16 }
    requires room { length text.old ≤ 166 }
    ensures text { text.new ≡ word.now ++ decimal pid.0 ++ text.old }
    ensures few { length text.new ≤ length text.old + length word.now + 10 }
{
    text.small(pid.0);
    text.bytes(word);
}

/// A command with one number, before a text.
#[inline(always)]
fn put_with_number(text: &mut Short, word: &[u8], pid: Pid, n: u32)
    requires word { length word.now ≤ 16 }
    requires room { length text.old ≤ 155 }
    ensures text { text.new ≡ word.now ++ decimal pid.0 ++ codes " " ++ decimal n ++ text.old }
    ensures few { length text.new ≤ length text.old + length word.now + 21 }
{
    text.small(n);
    text.byte(b' ');
    put_command(text, word, pid);
}

/// A command with a descriptor and a number, before a text.
#[inline(always)]
fn put_with_fd_number(text: &mut Short, word: &[u8], pid: Pid, fd: Fd, n: u32)
    requires word { length word.now ≤ 16 }
    requires room { length text.old ≤ 144 }
    ensures text { text.new ≡ word.now ++ decimal pid.0 ++ codes " " ++ decimal fd.0 ++ codes " " ++ decimal n ++ text.old }
    ensures few { length text.new ≤ length text.old + length word.now + 32 }
{
    text.small(n);
    text.byte(b' ');
    put_with_number(text, word, pid, u32::from(fd.0));
}

/// A command with one number. Its word is short.
fn push_with_number(line: &mut Line, word: &[u8], pid: Pid, n: u32) -> Result<(), NoMemory>
    requires { length word.now ≤ 16 }
    ensures stays { line.new.before ≡ line.old.before }
    ensures text { OnOk result (line.new.text ≡ line.old.text ++ (word.now ++ decimal pid.0 ++ codes " " ++ decimal n)) }
{
    let mut text = Short::new();
    put_with_number(&mut text, word, pid, n);
    line.push(text.as_bytes())
}

/// A command with a descriptor.
fn push_with_fd(line: &mut Line, word: &[u8], pid: Pid, fd: Fd) -> Result<(), NoMemory>
    requires { length word.now ≤ 16 }
    ensures stays { line.new.before ≡ line.old.before }
    ensures text { OnOk result (line.new.text ≡ line.old.text ++ (word.now ++ decimal pid.0 ++ codes " " ++ decimal fd.0)) }
{
    push_with_number(line, word, pid, u32::from(fd.0))
}

/// A command with a descriptor and a number.
fn push_with_fd_number(
    line: &mut Line,
    word: &[u8],
    pid: Pid,
    fd: Fd,
    n: u32,
) -> Result<(), NoMemory>
    requires { length word.now ≤ 16 }
    ensures stays { line.new.before ≡ line.old.before }
    ensures text { OnOk result (line.new.text ≡ line.old.text
        ++ (word.now ++ decimal pid.0 ++ codes " " ++ decimal fd.0 ++ codes " " ++ decimal n)) }
{
    let mut text = Short::new();
    put_with_fd_number(&mut text, word, pid, fd, n);
    line.push(text.as_bytes())
}

/// A command with a path.
fn push_with_path(line: &mut Line, word: &[u8], pid: Pid, path: &Path<'_>) -> Result<(), NoMemory>
    ensures stays { line.new.before ≡ line.old.before }
    ensures text { OnOk result (line.new.text ≡ line.old.text ++ (word.now ++ decimal pid.0 ++ codes " " ++ path_text (path_of path.now))) }
{
    push_command(line, word, pid)?;
    line.push_byte(b' ')?;
    push_path(line, path)
}

/// A command with a label.
fn push_with_label(
    line: &mut Line,
    form: Form,
    word: &[u8],
    pid: Pid,
    label: &Label,
) -> Result<(), NoMemory>
    ensures stays { line.new.before ≡ line.old.before }
    ensures text { OnOk result (line.new.text ≡ line.old.text ++ (word.now ++ decimal pid.0 ++ codes " " ++ spelling form label.now)) }
{
    push_command(line, word, pid)?;
    line.push_byte(b' ')?;
    line.push_label(form, label)
}

/// A command with a set of privileges.
fn push_with_privs(line: &mut Line, word: &[u8], pid: Pid, set: PrivSet) -> Result<(), NoMemory>
    ensures stays { line.new.before ≡ line.old.before }
    ensures text { OnOk result (line.new.text ≡ line.old.text ++ (word.now ++ decimal pid.0 ++ codes " " ++ privs_text set)) }
{
    push_command(line, word, pid)?;
    line.push_byte(b' ')?;
    push_privs(line, set)
}

/// A command with a process.
fn push_with_process(line: &mut Line, word: &[u8], pid: Pid, target: Pid) -> Result<(), NoMemory>
    ensures stays { line.new.before ≡ line.old.before }
    ensures text { OnOk result (line.new.text ≡ line.old.text ++ (word.now ++ decimal pid.0 ++ codes " p" ++ decimal target.0)) }
{
    push_command(line, word, pid)?;
    line.push(b" p")?;
    push_number(line, u64::from(target.0))
}

/// The opening of a path.
fn push_open(line: &mut Line, pid: Pid, path: &Path<'_>, mode: Mode) -> Result<(), NoMemory>
    ensures stays { line.new.before ≡ line.old.before }
    ensures text { OnOk result (line.new.text ≡ line.old.text
        ++ (codes "open p" ++ decimal pid.0 ++ codes " " ++ path_text (path_of path.now) ++ codes " " ++ mode_text mode)) }
{
    push_with_path(line, b"open p", pid, path)?;
    line.push_byte(b' ')?;
    line.push(mode_word(mode))
}

/// The writing of bytes.
fn push_write(line: &mut Line, pid: Pid, fd: Fd, bytes: &[u8]) -> Result<(), NoMemory>
    ensures stays { line.new.before ≡ line.old.before }
    ensures text { OnOk result (line.new.text ≡ line.old.text
        ++ (codes "write p" ++ decimal pid.0 ++ codes " " ++ decimal fd.0 ++ codes " x" ++ hex bytes.now)) }
{
    push_with_fd(line, b"write p", pid, fd)?;
    line.push(b" x")?;
    push_hex(line, bytes)
}

/// The making of a second name.
fn push_link(line: &mut Line, pid: Pid, target: &Path<'_>, path: &Path<'_>) -> Result<(), NoMemory>
    ensures stays { line.new.before ≡ line.old.before }
    ensures text { OnOk result (line.new.text ≡ line.old.text
        ++ (codes "link p" ++ decimal pid.0 ++ codes " " ++ path_text (path_of target.now) ++ codes " " ++ path_text (path_of path.now))) }
{
    push_with_path(line, b"link p", pid, target)?;
    line.push_byte(b' ')?;
    push_path(line, path)
}

/// The telling of a directory's name.
fn push_list(line: &mut Line, pid: Pid, path: &Path<'_>, index: u32) -> Result<(), NoMemory>
    ensures stays { line.new.before ≡ line.old.before }
    ensures text { OnOk result (line.new.text ≡ line.old.text
        ++ (codes "list p" ++ decimal pid.0 ++ codes " " ++ path_text (path_of path.now) ++ codes " " ++ decimal index)) }
{
    push_with_path(line, b"list p", pid, path)?;
    line.push_byte(b' ')?;
    push_number(line, u64::from(index))
}

/// The making of a child.
fn push_fork(line: &mut Line, pid: Pid, keep: Keep) -> Result<(), NoMemory>
    ensures stays { line.new.before ≡ line.old.before }
    ensures text { OnOk result (line.new.text ≡ line.old.text ++ (codes "fork p" ++ decimal pid.0 ++ codes " " ++ keep_text keep)) }
{
    push_command(line, b"fork p", pid)?;
    match keep {
        Keep::All => line.push(b" all"),
        Keep::Nothing => line.push(b" none"),
        Keep::One(fd) => {
            line.push_byte(b' ')?;
            push_number(line, u64::from(fd.0))
        }
    }
}

/// The setting of an object's label.
fn push_set_label(
    line: &mut Line,
    form: Form,
    pid: Pid,
    path: &Path<'_>,
    label: &Label,
) -> Result<(), NoMemory>
    ensures stays { line.new.before ≡ line.old.before }
    ensures text { OnOk result (line.new.text ≡ line.old.text
        ++ (codes "setlabel p" ++ decimal pid.0 ++ codes " " ++ path_text (path_of path.now) ++ codes " " ++ spelling form label.now)) }
{
    push_with_path(line, b"setlabel p", pid, path)?;
    line.push_byte(b' ')?;
    line.push_label(form, label)
}

/// The setting of a file's privileges.
fn push_set_priv(
    line: &mut Line,
    pid: Pid,
    path: &Path<'_>,
    cap: PrivSet,
    lic: PrivSet,
) -> Result<(), NoMemory>
    ensures stays { line.new.before ≡ line.old.before }
    ensures text { OnOk result (line.new.text ≡ line.old.text
        ++ (codes "setpriv p" ++ decimal pid.0 ++ codes " " ++ path_text (path_of path.now)
        ++ codes " " ++ privs_text cap ++ codes " " ++ privs_text lic)) }
{
    push_with_path(line, b"setpriv p", pid, path)?;
    line.push_byte(b' ')?;
    push_privs(line, cap)?;
    line.push_byte(b' ')?;
    push_privs(line, lic)
}

/// The granting of licences.
fn push_grant(line: &mut Line, pid: Pid, target: Pid, set: PrivSet) -> Result<(), NoMemory>
    ensures stays { line.new.before ≡ line.old.before }
    ensures text { OnOk result (line.new.text ≡ line.old.text
        ++ (codes "grant p" ++ decimal pid.0 ++ codes " p" ++ decimal target.0 ++ codes " " ++ privs_text set)) }
{
    push_with_process(line, b"grant p", pid, target)?;
    line.push_byte(b' ')?;
    push_privs(line, set)
}

/// The setting of a process's ceiling.
fn push_ceiling(
    line: &mut Line,
    form: Form,
    pid: Pid,
    target: Pid,
    label: &Label,
) -> Result<(), NoMemory>
    ensures stays { line.new.before ≡ line.old.before }
    ensures text { OnOk result (line.new.text ≡ line.old.text
        ++ (codes "ceiling p" ++ decimal pid.0 ++ codes " p" ++ decimal target.0 ++ codes " " ++ spelling form label.now)) }
{
    push_with_process(line, b"ceiling p", pid, target)?;
    line.push_byte(b' ')?;
    line.push_label(form, label)
}

/// A call: the command's word, the caller, and the arguments in the command's order.
#[tactic(auto, unfolding(crate::specs::CallText::call_text))]
pub fn push_call(line: &mut Line, form: Form, pid: Pid, call: &Call<'_>) -> Result<(), NoMemory>
    ensures stays { line.new.before ≡ line.old.before }
    ensures text { OnOk result (line.new.text ≡ line.old.text ++ call_text form pid.0 (op_of call.now)) }
{
    match call {
        Call::CreateAt { path } => push_with_path(line, b"create p", pid, path),
        Call::OpenAt { path, mode } => push_open(line, pid, path, *mode),
        Call::ReadFd { fd, count } => push_with_fd_number(line, b"read p", pid, *fd, *count),
        Call::WriteFd { fd, bytes } => push_write(line, pid, *fd, bytes),
        Call::CutFd { fd, len } => push_with_fd_number(line, b"cut p", pid, *fd, *len),
        Call::SeekFd { fd, at } => push_with_fd_number(line, b"seek p", pid, *fd, *at),
        Call::DupFd { fd } => push_with_fd(line, b"dup p", pid, *fd),
        Call::CloseFd { fd } => push_with_fd(line, b"close p", pid, *fd),
        Call::MakePipe => push_command(line, b"pipe p", pid),
        Call::MakeDir { path } => push_with_path(line, b"mkdir p", pid, path),
        Call::LinkAt { target, path } => push_link(line, pid, target, path),
        Call::UnlinkAt { path } => push_with_path(line, b"unlink p", pid, path),
        Call::RemoveDir { path } => push_with_path(line, b"rmdir p", pid, path),
        Call::ChangeDir { path } => push_with_path(line, b"chdir p", pid, path),
        Call::StatAt { path } => push_with_path(line, b"stat p", pid, path),
        Call::ListAt { path, index } => push_list(line, pid, path, *index),
        Call::Fork { keep } => push_fork(line, pid, *keep),
        Call::Exec { path } => push_with_path(line, b"exec p", pid, path),
        Call::Exit { status } => push_with_number(line, b"exit p", pid, u32::from(*status)),
        Call::WaitChild => push_command(line, b"wait p", pid),
        Call::LabelOf { path } => push_with_path(line, b"labelof p", pid, path),
        Call::SelfLabel => push_command(line, b"self p", pid),
        Call::SetLabel { path, label } => push_set_label(line, form, pid, path, label),
        Call::SetSelf { label } => push_with_label(line, form, b"setself p", pid, label),
        Call::Freeze { path } => push_with_path(line, b"freeze p", pid, path),
        Call::FreezeSelf => push_command(line, b"freezeself p", pid),
        Call::Thaw { path } => push_with_path(line, b"thaw p", pid, path),
        Call::ThawSelf => push_command(line, b"thawself p", pid),
        Call::SetPriv { path, cap, lic } => push_set_priv(line, pid, path, *cap, *lic),
        Call::DropLic { set } => push_with_privs(line, b"droplic p", pid, *set),
        Call::GrantLic { pid: target, set } => push_grant(line, pid, *target, *set),
        Call::SetCeiling { pid: target, label } => push_ceiling(line, form, pid, *target, label),
        Call::Pex { fd } => push_with_fd(line, b"pex p", pid, *fd),
        Call::Unpex { fd } => push_with_fd(line, b"unpex p", pid, *fd),
        Call::ReadLog { index } => push_with_number(line, b"readlog p", pid, *index),
    }
}

/// Writes a call before a text, where it is one of those that are made most and is short. Whether it was: if not, the text stays.
#[inline(always)]
#[tactic(auto, unfolding(crate::specs::CallText::call_text))]
pub fn put_call(text: &mut Short, pid: Pid, call: &Call<'_>) -> bool
    requires { length text.old ≤ 64 }
    ensures put { (form : Form) → result ≡ true → text.new ≡ call_text form pid.0 (op_of call.now) ++ text.old }
    ensures stays { result ≡ false → text.new ≡ text.old }
    ensures few { length text.new ≤ 128 }
{
    match call {
        Call::ReadFd { fd, count } => put_with_fd_number(text, b"read p", pid, *fd, *count),
        Call::WriteFd { fd, bytes } => {
            if bytes.len() > 16 {
                return false;
            }
            text.hex(bytes);
            text.bytes(b" x");
            put_with_number(text, b"write p", pid, u32::from(fd.0));
        }
        Call::SelfLabel => put_command(text, b"self p", pid),
        _ => return false,
    }
    true
}
