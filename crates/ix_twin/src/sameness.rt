//! Whether two calls, and two entries, say the same.
ghost use Rattle.std.specs.Prelude.{◌≡◌};
ghost use Rattle.ix_model.specs.history.Calls.{event_of, op_of};
ghost use Rattle.ix_model.specs.world.Paths.{path_of};
ghost use Rattle.ix_twin.specs.Sameness.{same_but_given, same_entry_but_given, same_given, same_on_descriptors, same_on_labels, same_on_paths, same_on_processes, same_path};

use ix_label::Steps;
use ix_model::{Call, Entry, Path};
use std::sync::ledger::Ledger;

/// Whether two paths are one.
pub fn same_path(one: &Path<'_>, two: &Path<'_>) -> bool
    ensures { result ≡ same_path (path_of one.now) (path_of two.now) }
{
    one.absolute() == two.absolute() && one.same_names(two)
}

/// Whether two calls on descriptors are the same, whatever they write.
fn same_on_descriptors(one: &Call<'_>, two: &Call<'_>) -> bool
    ensures { result ≡ same_on_descriptors (op_of one.now) (op_of two.now) }
{
    match (one, two) {
        (
            Call::ReadFd { fd, count },
            Call::ReadFd {
                fd: other,
                count: more,
            },
        ) => { fd == other && count == more }
        (Call::WriteFd { fd, .. }, Call::WriteFd { fd: other, .. }) => fd == other,
        (
            Call::CutFd { fd, len },
            Call::CutFd {
                fd: other,
                len: more,
            },
        ) => { fd == other && len == more }
        (
            Call::SeekFd { fd, at },
            Call::SeekFd {
                fd: other,
                at: more,
            },
        ) => { fd == other && at == more }
        (Call::DupFd { fd }, Call::DupFd { fd: other }) => fd == other,
        (Call::CloseFd { fd }, Call::CloseFd { fd: other }) => fd == other,
        (Call::MakePipe, Call::MakePipe) => true,
        (Call::Pex { fd }, Call::Pex { fd: other }) => fd == other,
        (Call::Unpex { fd }, Call::Unpex { fd: other }) => fd == other,
        _ => false,
    }
}

/// Whether two calls on paths are the same.
fn same_on_paths(one: &Call<'_>, two: &Call<'_>) -> bool
    ensures { result ≡ same_on_paths (op_of one.now) (op_of two.now) }
{
    match (one, two) {
        (Call::CreateAt { path }, Call::CreateAt { path: other }) => same_path(path, other),
        (
            Call::OpenAt { path, mode },
            Call::OpenAt {
                path: other,
                mode: more,
            },
        ) => { same_path(path, other) && mode == more }
        (Call::MakeDir { path }, Call::MakeDir { path: other }) => same_path(path, other),
        (
            Call::LinkAt { target, path },
            Call::LinkAt {
                target: towards,
                path: other,
            },
        ) => { same_path(target, towards) && same_path(path, other) }
        (Call::UnlinkAt { path }, Call::UnlinkAt { path: other }) => same_path(path, other),
        (Call::RemoveDir { path }, Call::RemoveDir { path: other }) => same_path(path, other),
        (Call::ChangeDir { path }, Call::ChangeDir { path: other }) => same_path(path, other),
        (Call::StatAt { path }, Call::StatAt { path: other }) => same_path(path, other),
        (
            Call::ListAt { path, index },
            Call::ListAt {
                path: other,
                index: place,
            },
        ) => { same_path(path, other) && index == place }
        (Call::Exec { path }, Call::Exec { path: other }) => same_path(path, other),
        _ => false,
    }
}

/// Whether two calls that tell or set labels and privileges of what stands at paths are the same.
fn same_on_labels<L: Ledger>(one: &Call<'_>, two: &Call<'_>, steps: &mut Steps<L>) -> bool
    ensures { result ≡ same_on_labels (op_of one.now) (op_of two.now) }
{
    match (one, two) {
        (Call::LabelOf { path }, Call::LabelOf { path: other }) => same_path(path, other),
        (
            Call::SetLabel { path, label },
            Call::SetLabel {
                path: other,
                label: l,
            },
        ) => { same_path(path, other) && label.same(l, steps) }
        (Call::Freeze { path }, Call::Freeze { path: other }) => same_path(path, other),
        (Call::Thaw { path }, Call::Thaw { path: other }) => same_path(path, other),
        (
            Call::SetPriv { path, cap, lic },
            Call::SetPriv {
                path: other,
                cap: x,
                lic: y,
            },
        ) => { same_path(path, other) && cap == x && lic == y }
        _ => false,
    }
}

/// Whether two calls on processes and on the log are the same, whatever status they give.
fn same_on_processes<L: Ledger>(one: &Call<'_>, two: &Call<'_>, steps: &mut Steps<L>) -> bool
    ensures { result ≡ same_on_processes (op_of one.now) (op_of two.now) }
{
    match (one, two) {
        (Call::Fork { keep }, Call::Fork { keep: other }) => keep == other,
        (Call::Exit { .. }, Call::Exit { .. }) => true,
        (Call::WaitChild, Call::WaitChild) => true,
        (Call::SelfLabel, Call::SelfLabel) => true,
        (Call::SetSelf { label }, Call::SetSelf { label: l }) => label.same(l, steps),
        (Call::FreezeSelf, Call::FreezeSelf) => true,
        (Call::ThawSelf, Call::ThawSelf) => true,
        (Call::DropLic { set }, Call::DropLic { set: other }) => set == other,
        (
            Call::GrantLic { pid, set },
            Call::GrantLic {
                pid: towards,
                set: other,
            },
        ) => { pid == towards && set == other }
        (
            Call::SetCeiling { pid, label },
            Call::SetCeiling {
                pid: towards,
                label: l,
            },
        ) => { pid == towards && label.same(l, steps) }
        (Call::ReadLog { index }, Call::ReadLog { index: place }) => index == place,
        _ => false,
    }
}

/// Whether two calls are the same, whatever bytes they write and whatever status they give.
#[tactic(auto, unfolding(crate::specs::Sameness::same_but_given))]
pub fn same_but_given<L: Ledger>(one: &Call<'_>, two: &Call<'_>, steps: &mut Steps<L>) -> bool
    ensures { result ≡ same_but_given (op_of one.now) (op_of two.now) }
{
    same_on_descriptors(one, two)
        || same_on_paths(one, two)
        || same_on_labels(one, two, steps)
        || same_on_processes(one, two, steps)
}

/// Whether two calls write the same bytes and give the same status, where they write or exit.
#[tactic(auto, unfolding(crate::specs::Sameness::same_given))]
pub fn same_given(one: &Call<'_>, two: &Call<'_>) -> bool
    ensures { result ≡ same_given (op_of one.now) (op_of two.now) }
{
    match (one, two) {
        (Call::WriteFd { bytes, .. }, Call::WriteFd { bytes: more, .. }) => bytes == more,
        (Call::Exit { status }, Call::Exit { status: other }) => status == other,
        _ => true,
    }
}
