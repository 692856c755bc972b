//! A turn of two runs side by side.
ghost use Rattle.std.specs.Prelude.{◌≡◌, ◌++◌, ◌+◌, IfOk, OnOk, length};
ghost use Rattle.ix_model.specs.history.{Calls.{event_of}, History.{History, world_of}, Shown.{AreShown}, Systems.{bytes_in}};
ghost use Rattle.ix_core.specs.Stepping.{IsNext};
ghost use Rattle.ix_script.specs.lines.Before.{form_told, lanes_of};
ghost use Rattle.ix_replay.specs.report.Report.{entry_text};
ghost use Rattle.ix_twin.specs.{Running.{AreAside, Makes, Turns, WereMade, pair_next}, Twins.{Twins}};

use crate::side::Side;
use crate::twin::{Twin, TwinStep};
use ix_core::{Core, read_by};
use ix_model::{Buf, Entry, NoMemory, Reply};
use ix_replay::push_entry;
use ix_script::Script;

/// How one turn of two runs went.
#[derive(Clone, Copy)]
pub enum Turn {
    /// Each made an entry, and they agree.
    Agree {
        /// What the machine replied in the first run.
        first: Reply,
        /// The same in the second run.
        second: Reply,
        /// Whether their lines are shown.
        shown: bool,
    },
    /// One has an entry more, or their next entries don't agree.
    Apart,
    /// Neither has an entry left.
    Over,
}

/// What the last entries of two runs read.
#[derive(Drop)]
pub struct Bufs {
    pub first: Buf,
    pub second: Buf,
}

/// Appends bytes.
pub fn push(out: &mut Vec<u8>, bytes: &[u8]) -> Result<(), NoMemory>
    ensures { OnOk result (out.new.items ≡ out.old.items ++ bytes.now) }
{
    out.extend_from_slice(bytes).map_err(|_| NoMemory)
}

/// Appends the line of an entry that a core has just made, with the number of its run before it.
fn push_line(
    out: &mut Vec<u8>,
    number: &[u8],
    script: &Script<'_>,
    core: &Core,
    entry: &Entry<'_>,
    reply: &Reply,
    buf: &Buf,
) -> Result<(), NoMemory>
    requires shown { AreShown reply.now (bytes_in reply.now buf.now) }
    ensures { (before : History) → IsNext before core.now (event_of entry.now) reply.now (bytes_in reply.now buf.now)
        → OnOk result (out.new.items ≡ out.old.items
        ++ (number.now ++ entry_text (form_told script.now) (lanes_of script.now) (length before.events + 1) (world_of before) (event_of entry.now))) }
{
    push(out, number)?;
    push_entry(
        out,
        script,
        core,
        entry.line,
        entry.pid,
        entry.seat,
        &entry.call,
        reply,
        read_by(reply, buf),
    )
}

/// Appends the lines of two entries that two runs have just made.
fn push_pair(
    out: &mut Vec<u8>,
    twin: &Twin,
    first: &Side<'_>,
    second: &Side<'_>,
    one: (&Entry<'_>, &Reply),
    two: (&Entry<'_>, &Reply),
    bufs: &Bufs,
) -> Result<(), NoMemory>
    requires first { first.now.calls.script ≡ first.now.script.now }
    requires second { second.now.calls.script ≡ second.now.script.now }
    requires made { (before : Twins) × WereMade before twin.now (event_of one.0.now) (event_of two.0.now) one.1.now two.1.now bufs.now.first bufs.now.second }
    ensures { (before : Twins) → WereMade before twin.now (event_of one.entry.0.now) (event_of two.entry.0.now) one.entry.1.now two.entry.1.now bufs.now.first bufs.now.second
        → OnOk result (out.new.items ≡ out.old.items
        ++ pair_next (record { twins = before; first = first.now.calls; second = second.now.calls }) (event_of one.entry.0.now) (event_of two.entry.0.now)) }
{
    push_line(
        out,
        b"1 ",
        first.script,
        twin.first(),
        one.0,
        one.1,
        &bufs.first,
    )?;
    push_line(
        out,
        b"2 ",
        second.script,
        twin.second(),
        two.0,
        two.1,
        &bufs.second,
    )
}

/// Makes the next entry of both runs, and appends their lines where they are shown. After `NoMemory` the runs aren't gone on with.
fn make_both(
    twin: &mut Twin,
    first: &Side<'_>,
    second: &Side<'_>,
    bufs: &mut Bufs,
    lines: &mut Vec<u8>,
) -> Result<Turn, NoMemory>
    requires first { first.now.calls.script ≡ first.now.script.now }
    requires second { second.now.calls.script ≡ second.now.script.now }
    requires aside { AreAside twin.old.at first.now.script.now second.now.script.now
        (record { twins = twin.old; first = first.now.calls; second = second.now.calls }) }
    ensures { IfOk result (λ turn. Makes turn (record { twins = twin.old; first = first.now.calls; second = second.now.calls }) twin.new
        bufs.new.first bufs.new.second lines.old.items lines.new.items) }
{
    match (first.calls.next(), second.calls.next()) {
        (None, None) => Ok(Turn::Over),
        (Some(e), Some(d)) => match twin.step(&e, &d, &mut bufs.first, &mut bufs.second) {
            TwinStep::Apart => Ok(Turn::Apart),
            TwinStep::Same {
                first: one,
                second: two,
                low,
                clear,
            } => {
                let shown = low && clear;
                if shown {
                    push_pair(lines, twin, first, second, (&e, &one), (&d, &two), bufs)?;
                }
                Ok(Turn::Agree {
                    first: one,
                    second: two,
                    shown,
                })
            }
        },
        (Some(_), None) => Ok(Turn::Apart),
        (None, Some(_)) => Ok(Turn::Apart),
    }
}

/// Makes the next entry of both runs, whose scripts hear what each was answered. After `NoMemory` the runs aren't gone on with.
pub fn take_turn(
    twin: &mut Twin,
    first: &mut Side<'_>,
    second: &mut Side<'_>,
    bufs: &mut Bufs,
    lines: &mut Vec<u8>,
) -> Result<Turn, NoMemory>
    requires first { first.old.calls.script ≡ first.old.script.now }
    requires second { second.old.calls.script ≡ second.old.script.now }
    requires aside { AreAside twin.old.at first.old.script.now second.old.script.now
        (record { twins = twin.old; first = first.old.calls; second = second.old.calls }) }
    ensures first { first.new.script.now ≡ first.old.script.now }
    ensures second { second.new.script.now ≡ second.old.script.now }
    ensures turns { IfOk result (λ turn. Turns twin.old.at first.old.script.now second.old.script.now turn
        (record { twins = twin.old; first = first.old.calls; second = second.old.calls })
        (record { twins = twin.new; first = first.new.calls; second = second.new.calls }) lines.old.items lines.new.items) }
{
    let turn = make_both(twin, first, second, bufs, lines)?;
    if let Turn::Agree {
        first: one,
        second: two,
        ..
    } = &turn
    {
        first.calls.hear(one, read_by(one, &bufs.first));
        second.calls.hear(two, read_by(two, &bufs.second));
    }
    Ok(turn)
}
