//! The messages to the privilege server.

ghost use Rattle.std.specs.Prelude.{◌≡◌};
ghost use Rattle.ix_privserv.specs.Messages.{begins_request, wanted};

use ix_asking::Requests;
use ix_model::PrivSet;
use ix_text::{is, privs_of};

/// The set that a message wants: a request is `want ` and a set that isn't `-`. `None` exactly where it is no request.
#[tactic(auto, unfolding(crate::specs::Messages::wanted))]
pub(crate) fn wanted(message: &[u8]) -> Option<PrivSet>
    ensures { result ≡ wanted message.now }
{
    let word = message.strip_prefix(b"want ".as_slice())?;
    if is(word, b"-") {
        return None;
    }
    privs_of(word)
}

/// The requests to the privilege server.
pub(crate) struct Wants;

impl Requests for Wants {
    ghost begins = { begins_request };

    #[tactic(auto, unfolding(crate::specs::Messages::begins_request))]
    fn is_begun(text: &[u8]) -> bool {
        b"want ".starts_with(text) || wanted(text).is_some()
    }
}
