ghost use Rattle.std.specs.{Prelude.{◌≡◌, ◌≤◌, take, true}, Option.{option_map}};
ghost use Rattle.ix_model.specs.history.Calls.{op_of};
ghost use Rattle.ix_model.specs.history.Events as op;
ghost use Rattle.ix_lanes.specs.asking.Asked.{asked, both_bound, bound, made_by, named, number_in, written};
ghost use Rattle.ix_script.specs.lines.Before.{listed, listed_two};
ghost use Rattle.ix_lanes.specs.asking.Places.{given, has_all, has_places, KeepsNames, KeepsPlaces, standing};
ghost use Rattle.ix_asking.specs.Runs.{entry_of};

use crate::asking::bindings::Bindings;
use crate::asking::caller::Caller;
use crate::asking::handed::Handed;
use crate::asking::places::Places;
use ix_model::{Buf, Call, Pid};
use ix_script::{LabelWord, Line, NameWord, PathWord};

/// Puts the bytes that a line writes, where it is a `write` line, at the front of a buffer, and answers how many they are.
#[inline(always)]
pub fn put_written(line: &Line<'_>, buf: &mut Buf) -> usize
    ensures few { result ≤ 4096 }
    ensures bytes { take result buf.new ≡ written line.now }
{
    match line {
        Line::Write { bytes, .. } => {
            let count = bytes.len();
            bytes.decode(buf);
            count
        }
        _ => 0,
    }
}

// A label is wide: the lines that have none are spared the place for it.

/// Puts the call that sets an object's label where it is to lie.
#[inline(never)]
fn set_label<'a>(path: &PathWord<'a>, label: &LabelWord<'_>, call: &mut Call<'a>)
    ensures { op_of call.new ≡ op.SetLabel path.now label.now }
{
    let (path, label) = (path.path(), label.label());
    *call = Call::SetLabel { path, label };
}

/// Puts the call that sets the caller's label where it is to lie.
#[inline(never)]
fn set_self(label: &LabelWord<'_>, call: &mut Call<'_>)
    ensures { op_of call.new ≡ op.SetSelf label.now }
{
    let label = label.label();
    *call = Call::SetSelf { label };
}

/// Puts the call that sets a process's ceiling where it is to lie.
#[inline(never)]
fn set_ceiling(pid: Pid, label: &LabelWord<'_>, call: &mut Call<'_>)
    ensures { op_of call.new ≡ op.SetCeiling pid.0 label.now }
{
    let label = label.label();
    *call = Call::SetCeiling { pid, label };
}

/// Who makes the call that a line of a seat's lane asks for, if it is a command of one call, and that call. It borrows the script's text and
/// these bytes, which are those that the line writes: nothing is copied. A call is wide: it is made where it is to lie.
#[inline(always)]
#[tactic(auto, unfolding(crate::specs::asking::Asked::asked))]
pub fn call_of<'a>(
    header: &Bindings<u32>,
    places: &Places,
    seat: u32,
    number: u32,
    line: &Line<'a>,
    bytes: &'a [u8],
    call: &mut Call<'a>,
) -> Option<Caller>
    requires { bytes.now ≡ written line.now }
    ensures { made_by result call.new ≡ option_map (entry_of seat) (asked header.now (standing places.now) number line.now) }
{
    let proc = match line {
        Line::Create { proc, path } => {
            *call = Call::CreateAt { path: path.path() };
            proc
        }
        Line::Open {
            proc,
            path,
            mode,
            ..
        } => {
            let (path, mode) = (path.path(), *mode);
            *call = Call::OpenAt { path, mode };
            proc
        }
        Line::Read { proc, fd, count } => {
            let (fd, count) = (places.fd(fd), *count);
            *call = Call::ReadFd { fd, count };
            proc
        }
        Line::Write { proc, fd, .. } => {
            let fd = places.fd(fd);
            *call = Call::WriteFd { fd, bytes };
            proc
        }
        Line::Cut { proc, fd, len } => {
            let (fd, len) = (places.fd(fd), *len);
            *call = Call::CutFd { fd, len };
            proc
        }
        Line::Seek { proc, fd, at } => {
            let (fd, at) = (places.fd(fd), *at);
            *call = Call::SeekFd { fd, at };
            proc
        }
        Line::Dup { proc, fd, .. } => {
            *call = Call::DupFd { fd: places.fd(fd) };
            proc
        }
        Line::Close { proc, fd } => {
            *call = Call::CloseFd { fd: places.fd(fd) };
            proc
        }
        Line::Pipe { proc, .. } => {
            *call = Call::MakePipe;
            proc
        }
        Line::Mkdir { proc, path } => {
            *call = Call::MakeDir { path: path.path() };
            proc
        }
        Line::Link { proc, target, path } => {
            let (target, path) = (target.path(), path.path());
            *call = Call::LinkAt { target, path };
            proc
        }
        Line::Unlink { proc, path } => {
            *call = Call::UnlinkAt { path: path.path() };
            proc
        }
        Line::Rmdir { proc, path } => {
            *call = Call::RemoveDir { path: path.path() };
            proc
        }
        Line::Chdir { proc, path } => {
            *call = Call::ChangeDir { path: path.path() };
            proc
        }
        Line::Stat { proc, path } => {
            *call = Call::StatAt { path: path.path() };
            proc
        }
        Line::List { proc, path, index } => {
            let (path, index) = (path.path(), *index);
            *call = Call::ListAt { path, index };
            proc
        }
        Line::Fork { proc, keep, .. } => {
            let keep = places.keep(keep);
            *call = Call::Fork { keep };
            proc
        }
        Line::Exec { proc, path } => {
            *call = Call::Exec { path: path.path() };
            proc
        }
        Line::Exit { proc, status } => {
            let status = (*status).min(255) as u8;
            *call = Call::Exit { status };
            proc
        }
        Line::Wait { proc } => {
            *call = Call::WaitChild;
            proc
        }
        Line::Labelof { proc, path } => {
            *call = Call::LabelOf { path: path.path() };
            proc
        }
        Line::Self_ { proc } => {
            *call = Call::SelfLabel;
            proc
        }
        Line::Setlabel { proc, path, label } => {
            set_label(path, label, call);
            proc
        }
        Line::Setself { proc, label } => {
            set_self(label, call);
            proc
        }
        Line::Freeze { proc, path } => {
            *call = Call::Freeze { path: path.path() };
            proc
        }
        Line::Freezeself { proc } => {
            *call = Call::FreezeSelf;
            proc
        }
        Line::Thaw { proc, path } => {
            *call = Call::Thaw { path: path.path() };
            proc
        }
        Line::Thawself { proc } => {
            *call = Call::ThawSelf;
            proc
        }
        Line::Setpriv {
            proc,
            path,
            cap,
            lic,
        } => {
            let (path, cap, lic) = (path.path(), *cap, *lic);
            *call = Call::SetPriv { path, cap, lic };
            proc
        }
        Line::Droplic { proc, set } => {
            *call = Call::DropLic { set: *set };
            proc
        }
        Line::Grant { proc, to, set } => {
            let (pid, set) = (places.pid(header, to), *set);
            *call = Call::GrantLic { pid, set };
            proc
        }
        Line::Ceiling { proc, of, label } => {
            set_ceiling(places.pid(header, of), label, call);
            proc
        }
        Line::Pex { proc, fd } => {
            *call = Call::Pex { fd: places.fd(fd) };
            proc
        }
        Line::Unpex { proc, fd } => {
            *call = Call::Unpex { fd: places.fd(fd) };
            proc
        }
        Line::Readlog { proc, index } => {
            *call = Call::ReadLog { index: *index };
            proc
        }
        _ => return None,
    };
    Some(Caller {
        seat,
        line: number,
        pid: places.pid(header, proc),
    })
}

/// The descriptor that is handed, or one that no process has.
fn fd_in(handed: &Handed) -> u8
    ensures { result ≡ number_in 255 255 handed.now }
{
    match handed {
        Handed::Number(n) => { if *n > 255 { 255 } else { *n as u8 } }
        _ => 255,
    }
}

/// The pid that is handed, or one that no process has.
fn pid_in(handed: &Handed) -> u32
    ensures { result ≡ number_in 4294967295 0 handed.now }
{
    match handed {
        Handed::Number(n) => { if *n > 4294967295 { 0 } else { *n as u32 } }
        _ => 0,
    }
}

/// Lets a name, if there is one, stand for a number.
#[inline(never)]
fn bind_one<N: Copy>(names: &mut Bindings<Option<N>>, name: &Option<NameWord<'_>>, number: N)
    requires { has_all names.old (listed name.now) ≡ true }
    ensures set { given names.new ≡ bound name.now number (given names.old) }
    ensures keeps { KeepsNames names.old names.new }
{
    if let Some(name) = name {
        names.put(name, Some(number));
    }
}

/// Lets the names of both ends of a pipe, if there are any, stand for what is handed.
#[inline(never)]
fn bind_both(
    fds: &mut Bindings<Option<u8>>,
    two: &Option<(NameWord<'_>, NameWord<'_>)>,
    handed: &Handed,
)
    requires { has_all fds.old (listed_two two.now) ≡ true }
    ensures set { given fds.new ≡ both_bound two.now handed.now (given fds.old) }
    ensures keeps { KeepsNames fds.old fds.new }
{
    if let Some((first_name, second_name)) = two {
        let (first, second) = match handed {
            Handed::Two(first, second) => (first.0, second.0),
            _ => (255, 255),
        };
        fds.put(first_name, Some(first));
        fds.put(second_name, Some(second));
    }
}

/// Lets the names that stand after `as`, if any do, stand for what is handed.
#[inline(always)]
#[tactic(auto, unfolding(crate::specs::asking::Asked::named, crate::specs::asking::Places::has_places))]
pub fn bind(places: &mut Places, line: &Line<'_>, handed: &Handed)
    requires { has_places places.old line.now ≡ true }
    ensures set { standing places.new ≡ named (standing places.old) line.now handed.now }
    ensures keeps { KeepsPlaces places.old places.new }
{
    match line {
        Line::Open { named, .. } => bind_one(&mut places.fds, named, fd_in(handed)),
        Line::Dup { named, .. } => bind_one(&mut places.fds, named, fd_in(handed)),
        Line::Pipe { named, .. } => bind_both(&mut places.fds, named, handed),
        Line::Fork { named, .. } => bind_one(&mut places.procs, named, pid_in(handed)),
        Line::Login { named, .. } => bind_one(&mut places.procs, named, pid_in(handed)),
        _ => {}
    }
}
