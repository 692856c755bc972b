ghost use Rattle.std.specs.Prelude.{◌≡◌, ◌<◌, [], IfSome};

use ix_core::Core;
use ix_float::Way;
use ix_label::Steps;
use ix_model::{Answer, Buf, Call, Config, Fd, Mode, Path, Pid, Refusal, Reply};
use ix_script::read;
use std::alloc::Global;
use std::marker::Brand;
use std::process::Abort;
use std::sync::ledger::{Blank, Ledger};

/// A low process with nothing above it, a high one, and a low file.
const TWO_LEVELS: &[u8] = b"ix 1\nproc l - - - -\nproc h 7 * - -\nfile /d - free - - \"xy\"\n";

/// The config of a script, but with this journal.
fn config_of(alloc: Global, text: &[u8], journal: u64) -> Option<Config> {
    let script = read(alloc, text).ok()?;
    let mut config = script.config(alloc).ok()?;
    config.journal = journal;
    Some(config)
}

/// A core of the config of a script, but with this journal.
fn boot(alloc: Global, text: &[u8], journal: u64) -> Option<Core>
    ensures { IfSome result (λ c. c.events ≡ []) }
{
    let config = config_of(alloc, text, journal)?;
    if config.valid() {
        Core::boot(alloc, config).ok()
    } else {
        None
    }
}

/// The path of a name in the root, or the root's.
fn path(name: &[u8]) -> Path<'_> {
    Path::read(true, name).unwrap_or(Path::new(true))
}

/// Reads a byte through a descriptor that is fresh for reading, and looks at no label; `false` where it isn't fresh, or the
/// read is refused.
fn reads_fresh<L: Ledger>(
    core: &mut Core,
    pid: Pid,
    fd: Fd,
    buf: &mut Buf,
    steps: &mut Steps<L>,
) -> bool
    ensures { steps.new ≡ steps.old }
{
    if !core.fresh(pid, fd, Way::Reading) {
        return false;
    }
    let read = core.step(0, 4, pid, &Call::ReadFd { fd, count: 1 }, buf, steps);
    matches!(read, Answer::Given(Reply::Bytes(1)))
}

/// Opens the file of the session; whether its process has it under descriptor 0 then.
fn opens<L: Ledger>(core: &mut Core, pid: Pid, mode: Mode, steps: &mut Steps<L>) -> bool {
    let mut buf = [0; 4096];
    let open = Call::OpenAt {
        path: path(b"d"),
        mode,
    };
    let opened = core.step(0, 1, pid, &open, &mut buf, steps);
    matches!(opened, Answer::Given(Reply::Number(0)))
}

/// The first read of the low process, after which its descriptor is fresh, and the second.
fn reads_twice<L: Ledger>(core: &mut Core, steps: &mut Steps<L>) -> [u8; 2] {
    let (low, fd) = (Pid(1), Fd(0));
    let mut first = [0; 4096];
    let mut second = [0; 4096];
    core.step(0, 3, low, &Call::ReadFd { fd, count: 1 }, &mut first, steps);
    if reads_fresh(core, low, fd, &mut second, steps) {
        [first[0], second[0]]
    } else {
        [0, 0]
    }
}

/// What the low process is told at a read once the high one has written to the file, where its descriptor isn't fresh any more.
fn reads_stale<L: Ledger>(core: &mut Core, steps: &mut Steps<L>) -> Option<Answer> {
    let (low, high, fd) = (Pid(1), Pid(2), Fd(0));
    let mut buf = [0; 4096];
    core.step(
        0,
        5,
        high,
        &Call::WriteFd { fd, bytes: b"Z" },
        &mut buf,
        steps,
    );
    if core.fresh(low, fd, Way::Reading) {
        return None;
    }
    Some(core.step(0, 6, low, &Call::ReadFd { fd, count: 1 }, &mut buf, steps))
}

/// Whether a session goes as it should, whose looks at labels are counted in a ledger.
fn goes<L: Ledger>(core: &mut Core, blank: Blank) -> bool
    requires name { blank.name ≡ L.name }
    requires parts { blank.parts ≡ L.parts }
    requires some { 0 < L.parts }
{
    let mut steps = Steps::<L>::new(blank);
    let opened = opens(core, Pid(2), Mode::Write, &mut steps)
        && opens(core, Pid(1), Mode::Read, &mut steps);
    let read = reads_twice(core, &mut steps);
    let stale = reads_stale(core, &mut steps);
    opened
        && read == *b"xy"
        && matches!(stale, Some(Answer::Given(Reply::No(Refusal::ProcCeiling))))
}

/// Whether it does so on a new core.
fn goes_anew(alloc: Global) -> bool {
    match boot(alloc, TWO_LEVELS, 1_000) {
        Some(mut core) => goes::<Brand>(&mut core, Blank::new(1)),
        None => false,
    }
}

#[test]
fn a_second_read_looks_at_no_label(rt: HostRuntime) {
    assert!(rt; goes_anew(rt.alloc()));
}
