ghost use Rattle.std.specs.Prelude.{[]};
ghost use Rattle.ix_report.specs.ReplyText.{AreBytesOf};

use bitflags::Flags;
use ix_label::{Form, Label};
use ix_model::{
    Act, AuditLine, Call, Fd, Keep, Kind, Mode, Name, NoMemory, Obj, ObjView, Path, Pid, PrivSet,
    ProcView, Refusal, Reply,
};
use ix_report::{audit_line, entry_line, head, object_line, process_line, tail};
use std::alloc::Global;
use std::process::Abort;

/// A line of each kind.
fn lines(out: &mut Vec<u8>) -> Result<(), NoMemory> {
    let three = Label::bottom().with(3);
    let read = asking(path(true, b""), false);
    let audit = AuditLine {
        place: 3,
        pid: Pid(3),
        act: Act::DownFile,
        target: 1,
        was: three,
        now: Label::bottom(),
        cap: PrivSet::empty(),
        lic: PrivSet::empty(),
    };
    head(out, Form::Two)?;
    entry_line(
        out,
        Form::Two,
        2,
        b"m",
        7,
        Pid(1),
        &read,
        &Reply::Bytes(2),
        b"hi",
        Some(&three),
    )?;
    entry_line(
        out,
        Form::Two,
        2,
        b"m",
        7,
        Pid(1),
        &read,
        &Reply::No(Refusal::ProcCeiling),
        b"",
        Some(&Label::bottom()),
    )?;
    entry_line(
        out,
        Form::Two,
        3,
        b"m",
        7,
        Pid(1),
        &read,
        &Reply::No(Refusal::NoProcess),
        b"",
        None,
    )?;
    object_line(
        out,
        Form::Two,
        1,
        &ObjView {
            kind: Kind::File,
            label: three,
            frozen: false,
        },
    )?;
    process_line(
        out,
        Form::Two,
        Pid(1),
        &ProcView {
            label: three,
            ended: false,
        },
    )?;
    audit_line(out, Form::Two, &audit)?;
    tail(out, Form::Two, 3, 0)
}

const LINES: &[u8] = b"ix 2 report\n\
    2 m 7 read p1 0 8 = bytes 2 x6869 @ 3\n\
    2 m 7 read p1 0 8 = no 12 ProcCeiling @ -\n\
    3 m 7 read p1 0 8 = no 1 NoProcess @ none\n\
    1 file 3 free\n\
    p1 3 live\n\
    3 p3 downfile 1 3 - - -\n\
    end 3 0\n";

/// The caller's label, or a read. A path is lent with it: else the kit's borrow checker isn't told of that type, and fails.
fn asking(path: Path<'static>, label: bool) -> Call<'static> {
    if label && path.absolute() {
        return Call::SelfLabel;
    }
    Call::ReadFd {
        fd: Fd(0),
        count: 8,
    }
}

/// The line of a reply that no bytes go with.
fn answer(out: &mut Vec<u8>, reply: &Reply) -> Result<(), NoMemory>
    requires { AreBytesOf reply.now [] }
{
    let call = asking(path(true, b""), true);
    entry_line(out, Form::Two, 1, b"m", 7, Pid(1), &call, reply, b"", None)
}

/// A line with each reply that no bytes go with.
fn replies(out: &mut Vec<u8>, name: Name) -> Result<(), NoMemory> {
    let high = Label::bottom().with(2).with(5).with(6);
    let audit = AuditLine {
        place: 13,
        pid: Pid(1),
        act: Act::Grant,
        target: 3,
        was: Label::bottom(),
        now: Label::top(),
        cap: PrivSet::empty(),
        lic: PrivSet::LOG,
    };
    let stat = Reply::Stat {
        obj: Obj(4),
        kind: Kind::Pipe,
        size: 70000,
        links: 2,
        frozen: true,
        cap: PrivSet::DOWN | PrivSet::THAW,
        lic: PrivSet::empty(),
    };
    answer(out, &Reply::Done)?;
    answer(out, &Reply::Number(18446744073709551615))?;
    answer(out, &Reply::Two(Fd(0), Fd(31)))?;
    answer(out, &Reply::Bytes(0))?;
    answer(out, &stat)?;
    answer(out, &Reply::Lab(high))?;
    answer(out, &Reply::Named { name, obj: Obj(9) })?;
    answer(out, &Reply::Half)?;
    answer(
        out,
        &Reply::Whole {
            pid: Pid(3),
            label: high,
            lic: PrivSet::all(),
        },
    )?;
    answer(out, &Reply::LogLine(audit))?;
    answer(
        out,
        &Reply::Child {
            pid: Pid(2),
            status: 255,
        },
    )?;
    answer(out, &Reply::No(Refusal::InUse))
}

const REPLIES: &[u8] = b"1 m 7 self p1 = done @ none\n\
    1 m 7 self p1 = number 18446744073709551615 @ none\n\
    1 m 7 self p1 = two 0 31 @ none\n\
    1 m 7 self p1 = bytes 0 x @ none\n\
    1 m 7 self p1 = stat 4 pipe 70000 2 frozen DT - @ none\n\
    1 m 7 self p1 = label 2,5-6 @ none\n\
    1 m 7 self p1 = entry a\\x22b 9 @ none\n\
    1 m 7 self p1 = half @ none\n\
    1 m 7 self p1 = whole p3 2,5-6 DPCTL @ none\n\
    1 m 7 self p1 = log 13 p1 grant 3 - * - L @ none\n\
    1 m 7 self p1 = child p2 255 @ none\n\
    1 m 7 self p1 = no 38 InUse @ none\n";

/// The path with this text of its names, or one of no names.
fn path(absolute: bool, text: &'static [u8]) -> Path<'static> {
    Path::read(absolute, text).unwrap_or(Path::new(absolute))
}

/// A line with each kind of argument.
fn arguments(out: &mut Vec<u8>) -> Result<(), NoMemory> {
    let calls = [
        Call::OpenAt {
            path: path(true, b"a\\\x7f/!~"),
            mode: Mode::Both,
        },
        Call::WriteFd {
            fd: Fd(1),
            bytes: b"\x00\xfa",
        },
        Call::LinkAt {
            target: path(false, b"!~/!~"),
            path: Path::new(true),
        },
        Call::ListAt {
            path: Path::new(false),
            index: 4,
        },
        Call::Fork {
            keep: Keep::One(Fd(3)),
        },
        Call::SetCeiling {
            pid: Pid(2),
            label: Label::top(),
        },
    ];
    for call in &calls {
        entry_line(
            out,
            Form::Two,
            1,
            b"m",
            7,
            Pid(1),
            call,
            &Reply::Done,
            b"",
            None,
        )?;
    }
    Ok(())
}

const ARGUMENTS: &[u8] = b"1 m 7 open p1 /a\\x5c\\x7f/!~ rw = done @ none\n\
    1 m 7 write p1 1 x00fa = done @ none\n\
    1 m 7 link p1 !~/!~ / = done @ none\n\
    1 m 7 list p1 . 4 = done @ none\n\
    1 m 7 fork p1 3 = done @ none\n\
    1 m 7 ceiling p1 p2 * = done @ none\n";

/// Whether the lines, the replies and the arguments are written so.
fn are_written(alloc: Global) -> Option<[bool; 3]> {
    let name = Name::read(b"a\"b")?;
    let mut out = Vec::new(alloc);
    let all = lines(&mut out).is_ok() && out.as_slice() == LINES;
    out.clear();
    let each = replies(&mut out, name).is_ok() && out.as_slice() == REPLIES;
    out.clear();
    let kinds = arguments(&mut out).is_ok() && out.as_slice() == ARGUMENTS;
    Some([all, each, kinds])
}

#[test]
fn prints_lines_replies_and_arguments(rt: HostRuntime) {
    assert!(rt; are_written(rt.alloc()) == Some([true; 3]));
}
