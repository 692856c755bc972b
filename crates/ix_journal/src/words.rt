ghost use Rattle.ix_journal.specs.Heads.{AreWordsOf};

use ix_model::{Call, Path};

/// The words of a call: the bytes that it writes, or the paths that it names.
pub enum Words<'c> {
    None,
    Bytes(&'c [u8]),
    Path(Path<'c>),
    Paths(Path<'c>, Path<'c>),
}

/// The words of a call.
#[inline(always)]
pub fn words_in<'c>(call: &Call<'c>) -> Words<'c>
    ensures { AreWordsOf call.now result }
{
    match call {
        Call::WriteFd { bytes, .. } => return Words::Bytes(bytes),
        Call::LinkAt { target, path } => return Words::Paths(*target, *path),
        Call::CreateAt { path }
        | Call::OpenAt { path, .. }
        | Call::MakeDir { path }
        | Call::UnlinkAt { path }
        | Call::RemoveDir { path }
        | Call::ChangeDir { path }
        | Call::StatAt { path }
        | Call::ListAt { path, .. }
        | Call::Exec { path }
        | Call::LabelOf { path }
        | Call::SetLabel { path, .. }
        | Call::Freeze { path }
        | Call::Thaw { path }
        | Call::SetPriv { path, .. } => return Words::Path(*path),
        _ => {}
    }
    Words::None
}
