ghost use Rattle.std.specs.Prelude.{◌≡◌};
ghost use Rattle.ix_report.specs.Words.{act_text, kind_text, life_text};

use ix_model::{Act, Kind};

/// What an object is.
pub fn kind_word(kind: Kind) -> &'static [u8]
    ensures { result.now ≡ kind_text kind }
{
    match kind {
        Kind::File => b"file",
        Kind::Dir => b"dir",
        Kind::Pipe => b"pipe",
    }
}

/// Whether a process has ended.
pub fn life_word(ended: bool) -> &'static [u8]
    ensures { result.now ≡ life_text ended }
{
    if ended { b"ended" } else { b"live" }
}

/// An act that exercised a privilege.
pub fn act_word(act: Act) -> &'static [u8]
    ensures { result.now ≡ act_text act }
{
    match act {
        Act::DownFile => b"downfile",
        Act::DownSelf => b"downself",
        Act::SetPriv => b"setpriv",
        Act::Grant => b"grant",
        Act::Ceiling => b"ceiling",
        Act::ThawFile => b"thawfile",
        Act::ThawSelf => b"thawself",
        Act::ReadLog => b"readlog",
    }
}
