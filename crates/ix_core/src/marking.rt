ghost use Rattle.std.specs.Prelude.{◌≡◌, ◌≤◌, ◌<◌, ◌+◌, ◌-◌, ◌^◌, ◌==◌, ◌&&◌, ◌||◌, ℕ, true, not, if◌then◌else◌, Some, None, is_some, length, IsTrue};
ghost use Rattle.std.proofs.Common.{option_map};
ghost use Rattle.ix_float.specs.declared.mark.Way as way_type;
ghost use Rattle.ix_model.specs.declared.ids.Fd as fd_type;
ghost use Rattle.ix_model.specs.{history.{AuditLog.{label_at}, Calls.{op_of}, Step.{step}}, laws.Sound.{Sound}};
ghost use Rattle.ix_model.specs.history.Events as op;
ghost use Rattle.ix_fresh.specs.{Laws.{spot_behind}, Touched.{label_of_entry}};
ghost use Rattle.ix_fcalls.specs.Filed.{Answers};
ghost use Rattle.ix_marks.specs.Known.{spot_of, has_row};
ghost use Rattle.ix_core.specs.Marking.{spot_in, AreReady, AreKnown, AreTold, IsBefore, CanRefresh, mark_through, spot_through, other_process, other_object};
ghost use Rattle.ix_core.specs.Marking.{other_entry, unless_object, unless_entry, unless_closed, has_exited, refreshed, or_refreshed};

use ix_float::Way;
use ix_fresh::laws::known_changes_nothing;
use ix_label::{Label, Steps};
use ix_machine::Machine;
use ix_marks::{Marks, Spot};
use ix_model::{Buf, Call, Fd, Obj, Pid, Reply};
use std::sync::ledger::Ledger;

/// What stands before a call: the labels that it may change, and the spot of the descriptor that it reads or writes through.
#[derive(Clone, Copy)]
struct Before {
    process: Label,
    object: Option<Obj>,
    object_label: Label,
    entry: Option<u32>,
    entry_label: Label,
    spot: Option<Spot>,
}

/// Whether a call is a read through a descriptor that is fresh for reading, or a write through one that is fresh for writing.
pub(crate) fn goes_fresh(marks: &Marks, pid: Pid, call: &Call<'_>) -> bool
    ensures { result ≡ is_some (mark_through marks.now pid.0 (op_of call.now)) }
{
    match call {
        Call::ReadFd { fd, .. } => marks.fresh(pid, *fd, Way::Reading),
        Call::WriteFd { fd, .. } => marks.fresh(pid, *fd, Way::Writing),
        _ => false,
    }
}

/// Whether a call is a look of a process at its own label.
pub(crate) fn is_own_label(call: &Call<'_>) -> bool
    ensures { IsTrue result → op_of call.now ≡ op.SelfLabel }
{
    matches!(call, Call::SelfLabel)
}

/// A read or a write through a descriptor that is fresh for it. It looks at no label, and leaves the marks as they are.
pub(crate) fn known(
    machine: &mut Machine,
    marks: &Marks,
    place: u32,
    pid: Pid,
    call: &Call<'_>,
    buf: &mut Buf,
) -> Reply
    requires sound { Sound machine.old }
    requires ready { AreReady marks.now machine.old.frame }
    requires known { AreKnown marks.now machine.old.frame }
    requires fresh { is_some (mark_through marks.now pid.0 (op_of call.now)) ≡ true }
    ensures answers { Answers (step machine.old place pid.0 (op_of call.now)) machine.new result buf.old buf.new }
    ensures told { AreTold marks.now marks.now machine.old place pid.0 (op_of call.now) }
{
    let _ = marks;
    known_changes_nothing();
    machine.call_fresh(place, pid, call, buf).reply()
}

/// A look of a process at its own label. It changes no label, and leaves the marks as they are.
pub(crate) fn own_label(
    machine: &Machine,
    marks: &Marks,
    place: u32,
    pid: Pid,
    call: &Call<'_>,
    buf: &Buf,
) -> Reply
    requires sound { Sound machine.now }
    requires ready { AreReady marks.now machine.now.frame }
    requires own { op_of call.now ≡ op.SelfLabel }
    ensures answers { Answers (step machine.now place pid.0 (op_of call.now)) machine.now result buf.now buf.now }
    ensures told { AreTold marks.now marks.now machine.now place pid.0 (op_of call.now) }
{
    let _ = marks;
    let _ = place;
    let _ = call;
    let _ = buf;
    machine.told_label(pid)
}

/// The call of a process, which looks at labels. The marks are told of each label that it changed, and of the descriptor that
/// it closed or refreshed.
#[inline(always)]
pub(crate) fn call_checked<L: Ledger>(
    machine: &mut Machine,
    marks: &mut Marks,
    place: u32,
    pid: Pid,
    call: &Call<'_>,
    buf: &mut Buf,
    steps: &mut Steps<L>,
) -> Reply
    requires sound { Sound machine.old }
    requires few { length machine.old.frame.processes < 2 ^ 32 - 1 }
    requires ready { AreReady marks.old machine.old.frame }
    requires raised { marks.old.raised + 3 ≤ 2 ^ 62 }
    ensures answers { Answers (step machine.old place pid.0 (op_of call.now)) machine.new result buf.old buf.new }
    ensures told { AreTold marks.old marks.new machine.old place pid.0 (op_of call.now) }
{
    let before = seen_before(machine, pid, call, steps);
    let reply = machine.call(place, pid, call, buf, steps);
    tell_process(marks, machine, pid, &before.process, steps);
    tell_object(marks, machine, before.object, &before.object_label, steps);
    tell_entry(marks, machine, before.entry, &before.entry_label, steps);
    close(marks, pid, call, &reply);
    marks.room(pid);
    refresh(marks, pid, call, &reply, before.spot);
    reply
}

/// What stands before a call of a process.
fn seen_before<L: Ledger>(
    machine: &Machine,
    pid: Pid,
    call: &Call<'_>,
    steps: &mut Steps<L>,
) -> Before
    ensures { IsBefore result machine.now.frame pid.0 (op_of call.now) }
{
    let object = machine.target(pid, call, steps);
    let entry = machine.entry_target(pid, call);
    Before {
        process: machine.process_label(pid),
        object,
        object_label: label_of_object(machine, object),
        entry,
        entry_label: label_of_entry(machine, entry),
        spot: spot_through(machine, pid, call),
    }
}

/// The label of an object; bottom where none is named, or none stands there.
#[tactic(auto, unfolding(ix_model::specs::history::AuditLog::label_at))]
fn label_of_object(machine: &Machine, object: Option<Obj>) -> Label
    ensures { result ≡ label_at machine.now.frame (option_map (λ x. x.0) object) }
{
    match object {
        Some(object) => machine.object_label(object),
        None => Label::bottom(),
    }
}

/// The label of an open entry; bottom where none is named, or none stands there.
fn label_of_entry(machine: &Machine, entry: Option<u32>) -> Label
    ensures { result ≡ label_of_entry machine.now.frame entry }
{
    match entry {
        Some(entry) => machine.entry_label(entry),
        None => Label::bottom(),
    }
}

/// The spot of the descriptor that a call reads or writes through; `None` where it is neither, or the descriptor is none.
fn spot_through(machine: &Machine, pid: Pid, call: &Call<'_>) -> Option<Spot>
    ensures { option_map spot_in result ≡ spot_through machine.now.frame pid.0 (op_of call.now) }
{
    match call {
        Call::ReadFd { fd, .. } => spot_behind(machine, pid, *fd),
        Call::WriteFd { fd, .. } => spot_behind(machine, pid, *fd),
        _ => None,
    }
}

/// The spot of a descriptor; `None` where it is none.
fn spot_behind(machine: &Machine, pid: Pid, fd: Fd) -> Option<Spot>
    ensures { option_map spot_in result ≡ spot_behind machine.now.frame pid.0 fd.0 }
{
    match machine.spot(pid, fd) {
        Some((entry, object)) => Some(Spot {
            entry,
            object: object.0,
        }),
        None => None,
    }
}

/// Tells the marks where a process has another label than it had.
fn tell_process<L: Ledger>(
    marks: &mut Marks,
    machine: &Machine,
    pid: Pid,
    was: &Label,
    steps: &mut Steps<L>,
)
    requires { marks.old.raised < 2 ^ 62 }
    ensures spots { (q d : ℕ) (w : way_type.Way) → spot_of marks.new q d w ≡ (if q == pid.0 && other_process was.now machine.now.frame pid.0 then None else spot_of marks.old q d w) }
    ensures owners { marks.new.owners ≡ marks.old.owners }
    ensures sizes { marks.new.sizes ≡ marks.old.sizes }
    ensures raised { marks.new.raised ≤ marks.old.raised + 1 }
{
    if !was.same(&machine.process_label(pid), steps) {
        marks.relabel_process(pid);
    }
}

/// Tells the marks where an object has another label than it had.
fn tell_object<L: Ledger>(
    marks: &mut Marks,
    machine: &Machine,
    object: Option<Obj>,
    was: &Label,
    steps: &mut Steps<L>,
)
    requires object { (o : ℕ) → option_map (λ x. x.0) object ≡ Some o → other_object was.now machine.now.frame (Some o) ≡ true → o < marks.old.sizes.objects }
    requires raised { marks.old.raised < 2 ^ 62 }
    ensures spots { (q d : ℕ) (w : way_type.Way) → spot_of marks.new q d w ≡ unless_object (option_map (λ x. x.0) object) (other_object was.now machine.now.frame (option_map (λ x. x.0) object)) (spot_of marks.old q d w) }
    ensures owners { marks.new.owners ≡ marks.old.owners }
    ensures sizes { marks.new.sizes ≡ marks.old.sizes }
    ensures raised { marks.new.raised ≤ marks.old.raised + 1 }
{
    let Some(object) = object else {
        return;
    };
    if !was.same(&machine.object_label(object), steps) {
        marks.relabel_object(object.0);
    }
}

/// Tells the marks where an open entry has another label than it had.
fn tell_entry<L: Ledger>(
    marks: &mut Marks,
    machine: &Machine,
    entry: Option<u32>,
    was: &Label,
    steps: &mut Steps<L>,
)
    requires entry { (e : ℕ) → entry ≡ Some e → other_entry was.now machine.now.frame (Some e) ≡ true → e < marks.old.sizes.opens }
    requires raised { marks.old.raised < 2 ^ 62 }
    ensures spots { (q d : ℕ) (w : way_type.Way) → spot_of marks.new q d w ≡ unless_entry entry (other_entry was.now machine.now.frame entry) (spot_of marks.old q d w) }
    ensures owners { marks.new.owners ≡ marks.old.owners }
    ensures sizes { marks.new.sizes ≡ marks.old.sizes }
    ensures raised { marks.new.raised ≤ marks.old.raised + 1 }
{
    let Some(entry) = entry else {
        return;
    };
    if !was.same(&machine.entry_label(entry), steps) {
        marks.relabel_entry(entry);
    }
}

/// Tells the marks of the descriptor that a call closed, or of the process that it ended.
fn close(marks: &mut Marks, pid: Pid, call: &Call<'_>, reply: &Reply)
    ensures spots { (q d : ℕ) (w : way_type.Way) → spot_of marks.new q d w ≡ unless_closed pid.0 (op_of call.now) reply.now q d (spot_of marks.old q d w) }
    ensures rows { (q : ℕ) → has_row marks.new q ≡ (not (q == pid.0 && has_exited (op_of call.now) reply.now) && has_row marks.old q) }
    ensures sizes { marks.new.sizes ≡ marks.old.sizes }
    ensures raised { marks.new.raised ≡ marks.old.raised }
{
    if !matches!(reply, Reply::Done) {
        return;
    }
    match call {
        Call::CloseFd { fd } => marks.clear(pid, *fd),
        Call::Exit { .. } => marks.forget(pid),
        _ => {}
    }
}

/// Marks the descriptor that a call refreshed, at its spot.
fn refresh(marks: &mut Marks, pid: Pid, call: &Call<'_>, reply: &Reply, spot: Option<Spot>)
    requires { (r : fd_type.Fd × way_type.Way) → refreshed (op_of call.now) reply.now ≡ Some r → CanRefresh marks.old pid.0 r spot }
    ensures spots { (q d : ℕ) (w : way_type.Way) → spot_of marks.new q d w ≡ or_refreshed pid.0 (refreshed (op_of call.now) reply.now) spot q d w (spot_of marks.old q d w) }
    ensures rows { (q : ℕ) → has_row marks.new q ≡ (q == pid.0 && is_some (refreshed (op_of call.now) reply.now) || has_row marks.old q) }
    ensures sizes { marks.new.sizes ≡ marks.old.sizes }
    ensures raised { marks.new.raised ≡ marks.old.raised }
{
    let Some((fd, way)) = refreshed(call, reply) else {
        return;
    };
    let Some(spot) = spot else { unreachable!() };
    marks.set(pid, fd, way, spot);
}

/// The descriptor that a call refreshed, and for which way.
fn refreshed(call: &Call<'_>, reply: &Reply) -> Option<(Fd, Way)>
    ensures { result ≡ refreshed (op_of call.now) reply.now }
{
    match call {
        Call::ReadFd { fd, .. } => match reply {
            Reply::Bytes(_) => Some((*fd, Way::Reading)),
            _ => None,
        },
        Call::WriteFd { fd, .. } => match reply {
            Reply::Number(_) => Some((*fd, Way::Writing)),
            _ => None,
        },
        _ => None,
    }
}
