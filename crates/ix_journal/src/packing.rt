ghost use Rattle.std.specs.Prelude.{◌≡◌, ◌+◌, ◌≤◌, ◌++◌, length, vec_capacity, vec_len};
ghost use Rattle.ix_journal.specs.Heads.{head_of, labels_of, words_of};

use crate::record::{Alone, Head, OnPath};
use crate::words::{Words, words_in};
use ix_label::Label;
use ix_model::Call;

/// A call without its words, and with the place of its label, if it has one, which is the next.
pub fn head_of(call: &Call<'_>, at: u32) -> Head
    ensures { result ≡ head_of at call.now }
{
    match call {
        Call::CreateAt { path } => Head::Path(path.absolute(), OnPath::CreateAt),
        Call::OpenAt { path, mode } => Head::Path(path.absolute(), OnPath::OpenAt { mode: *mode }),
        Call::ReadFd { fd, count } => Head::Plain(Alone::ReadFd {
            fd: *fd,
            count: *count,
        }),
        Call::WriteFd { fd, .. } => Head::Write(*fd),
        Call::CutFd { fd, len } => Head::Plain(Alone::CutFd { fd: *fd, len: *len }),
        Call::SeekFd { fd, at } => Head::Plain(Alone::SeekFd { fd: *fd, at: *at }),
        Call::DupFd { fd } => Head::Plain(Alone::DupFd { fd: *fd }),
        Call::CloseFd { fd } => Head::Plain(Alone::CloseFd { fd: *fd }),
        Call::MakePipe => Head::Plain(Alone::MakePipe),
        Call::MakeDir { path } => Head::Path(path.absolute(), OnPath::MakeDir),
        Call::LinkAt { target, path } => Head::Link {
            target: target.absolute(),
            split: target.text().len() as u32,
            path: path.absolute(),
        },
        Call::UnlinkAt { path } => Head::Path(path.absolute(), OnPath::UnlinkAt),
        Call::RemoveDir { path } => Head::Path(path.absolute(), OnPath::RemoveDir),
        Call::ChangeDir { path } => Head::Path(path.absolute(), OnPath::ChangeDir),
        Call::StatAt { path } => Head::Path(path.absolute(), OnPath::StatAt),
        Call::ListAt { path, index } => Head::Path(
            path.absolute(),
            OnPath::ListAt { index: *index },
        ),
        Call::Fork { keep } => Head::Plain(Alone::Fork { keep: *keep }),
        Call::Exec { path } => Head::Path(path.absolute(), OnPath::Exec),
        Call::Exit { status } => Head::Plain(Alone::Exit { status: *status }),
        Call::WaitChild => Head::Plain(Alone::WaitChild),
        Call::LabelOf { path } => Head::Path(path.absolute(), OnPath::LabelOf),
        Call::SelfLabel => Head::Plain(Alone::SelfLabel),
        Call::SetLabel { path, .. } => {
            Head::Path(path.absolute(), OnPath::SetLabel { label: at })
        }
        Call::SetSelf { .. } => Head::Plain(Alone::SetSelf { label: at }),
        Call::Freeze { path } => Head::Path(path.absolute(), OnPath::Freeze),
        Call::FreezeSelf => Head::Plain(Alone::FreezeSelf),
        Call::Thaw { path } => Head::Path(path.absolute(), OnPath::Thaw),
        Call::ThawSelf => Head::Plain(Alone::ThawSelf),
        Call::SetPriv { path, cap, lic } => Head::Path(
            path.absolute(),
            OnPath::SetPriv {
                cap: *cap,
                lic: *lic,
            },
        ),
        Call::DropLic { set } => Head::Plain(Alone::DropLic { set: *set }),
        Call::GrantLic { pid, set } => Head::Plain(Alone::GrantLic {
            pid: *pid,
            set: *set,
        }),
        Call::SetCeiling { pid, .. } => Head::Plain(Alone::SetCeiling {
            pid: *pid,
            label: at,
        }),
        Call::Pex { fd } => Head::Plain(Alone::Pex { fd: *fd }),
        Call::Unpex { fd } => Head::Plain(Alone::Unpex { fd: *fd }),
        Call::ReadLog { index } => Head::Plain(Alone::ReadLog { index: *index }),
    }
}

/// Writes bytes at the end, where there is room.
fn put(words: &mut Vec<u8>, bytes: &[u8])
    requires { vec_len words.old + length bytes.now ≤ vec_capacity words.old }
    ensures items { words.new.items ≡ words.old.items ++ bytes.now }
    ensures room { vec_capacity words.old ≤ vec_capacity words.new }
{
    match words.extend_from_slice(bytes) {
        Ok(()) => {}
        Err(_) => unreachable!(),
    }
}

/// Writes the words of a call at the end.
pub fn put_words(words: &mut Vec<u8>, call: &Call<'_>)
    requires { vec_len words.old + length (words_of call.now) ≤ vec_capacity words.old }
    ensures items { words.new.items ≡ words.old.items ++ words_of call.now }
    ensures room { vec_capacity words.old ≤ vec_capacity words.new }
{
    match words_in(call) {
        Words::None => {}
        Words::Bytes(bytes) => put(words, bytes),
        Words::Path(path) => put(words, path.text()),
        Words::Paths(first, second) => {
            put(words, first.text());
            put(words, second.text());
        }
    }
}

/// Writes the label of a call at the end, if it has one.
pub fn put_label(labels: &mut Vec<Label>, call: &Call<'_>)
    requires { vec_len labels.old + length (labels_of call.now) ≤ vec_capacity labels.old }
    ensures items { labels.new.items ≡ labels.old.items ++ labels_of call.now }
    ensures room { vec_capacity labels.old ≤ vec_capacity labels.new }
{
    match call {
        Call::SetLabel { label, .. } => labels.push_reserved(*label),
        Call::SetSelf { label } => labels.push_reserved(*label),
        Call::SetCeiling { label, .. } => labels.push_reserved(*label),
        _ => {}
    }
}
