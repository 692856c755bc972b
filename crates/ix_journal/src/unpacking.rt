ghost use Rattle.std.specs.Prelude.{◌≡◌, ◌≤◌, length};
ghost use Rattle.ix_model.specs.{history.Calls.{op_of}, world.Paths.{path_of}};
ghost use Rattle.ix_journal.specs.Heads.{labels_alone, labels_for, labels_on, op_alone, op_on, op_in, IsPacked};

use crate::record::{Alone, Head, OnPath};
use ix_label::Label;
use ix_model::{Call, Path};

/// The call of a head, with those words: the texts of its paths, or the bytes that it writes. It borrows them. Its label is among
/// these.
pub fn call_in<'a>(labels: &[Label], head: &Head, words: &'a [u8]) -> Call<'a>
    requires packed { IsPacked head.now words.now }
    requires labelled { labels_for head.now ≤ length labels.now }
    ensures { op_of result ≡ op_in labels.now head.now words.now }
{
    match *head {
        Head::Plain(plain) => call_alone(labels, plain),
        Head::Path(absolute, call) => call_on(labels, call, Path::from_text(absolute, words)),
        Head::Link {
            target,
            split,
            path,
        } => {
            let (first, second) = words.split_at(split as usize);
            Call::LinkAt {
                target: Path::from_text(target, first),
                path: Path::from_text(path, second),
            }
        }
        Head::Write(fd) => Call::WriteFd { fd, bytes: words },
    }
}

/// The call on that path.
fn call_on<'a>(labels: &[Label], call: OnPath, path: Path<'a>) -> Call<'a>
    requires { labels_on call ≤ length labels.now }
    ensures { op_of result ≡ op_on labels.now call (path_of path.entry) }
{
    match call {
        OnPath::CreateAt => Call::CreateAt { path },
        OnPath::OpenAt { mode } => Call::OpenAt { path, mode },
        OnPath::MakeDir => Call::MakeDir { path },
        OnPath::UnlinkAt => Call::UnlinkAt { path },
        OnPath::RemoveDir => Call::RemoveDir { path },
        OnPath::ChangeDir => Call::ChangeDir { path },
        OnPath::StatAt => Call::StatAt { path },
        OnPath::ListAt { index } => Call::ListAt { path, index },
        OnPath::Exec => Call::Exec { path },
        OnPath::LabelOf => Call::LabelOf { path },
        OnPath::SetLabel { label } => {
            let label = labels[label as usize];
            Call::SetLabel { path, label }
        }
        OnPath::Freeze => Call::Freeze { path },
        OnPath::Thaw => Call::Thaw { path },
        OnPath::SetPriv { cap, lic } => Call::SetPriv { path, cap, lic },
    }
}

/// The call that has no words.
fn call_alone<'a>(labels: &[Label], call: Alone) -> Call<'a>
    requires { labels_alone call ≤ length labels.now }
    ensures { op_of result ≡ op_alone labels.now call }
{
    match call {
        Alone::ReadFd { fd, count } => Call::ReadFd { fd, count },
        Alone::CutFd { fd, len } => Call::CutFd { fd, len },
        Alone::SeekFd { fd, at } => Call::SeekFd { fd, at },
        Alone::DupFd { fd } => Call::DupFd { fd },
        Alone::CloseFd { fd } => Call::CloseFd { fd },
        Alone::MakePipe => Call::MakePipe,
        Alone::Fork { keep } => Call::Fork { keep },
        Alone::Exit { status } => Call::Exit { status },
        Alone::WaitChild => Call::WaitChild,
        Alone::SelfLabel => Call::SelfLabel,
        Alone::SetSelf { label } => {
            let label = labels[label as usize];
            Call::SetSelf { label }
        }
        Alone::FreezeSelf => Call::FreezeSelf,
        Alone::ThawSelf => Call::ThawSelf,
        Alone::DropLic { set } => Call::DropLic { set },
        Alone::GrantLic { pid, set } => Call::GrantLic { pid, set },
        Alone::SetCeiling { pid, label } => {
            let label = labels[label as usize];
            Call::SetCeiling { pid, label }
        }
        Alone::Pex { fd } => Call::Pex { fd },
        Alone::Unpex { fd } => Call::Unpex { fd },
        Alone::ReadLog { index } => Call::ReadLog { index },
    }
}
