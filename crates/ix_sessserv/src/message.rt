//! The messages to the session server.

ghost use Rattle.std.specs.Prelude.{◌≡◌, option_map};
ghost use Rattle.ix_sessserv.specs.Messages.{after_login, begins_request, is_reserved_login, user_in};

use ix_asking::Requests;
use ix_model::Name;
use ix_text::{is_reserved, name_of};

/// What stands after `login `, where the text begins with it.
fn after_login(text: &[u8]) -> Option<&[u8]>
    ensures { option_map (λ word. word.now) result ≡ after_login text.now }
{
    text.strip_prefix(b"login ".as_slice())
}

/// The user for whom a message asks for a session: a request is `login ` and a user's name. `None` exactly where it is no request.
#[tactic(auto, unfolding(crate::specs::Messages::user_in))]
pub(crate) fn user_in(message: &[u8]) -> Option<Name>
    ensures { result ≡ user_in message.now }
{
    let word = after_login(message)?;
    name_of(word)
}

/// Whether the text is `login ` and a word that is no name, but with which names begin.
fn is_reserved_login(text: &[u8]) -> bool
    ensures { result ≡ is_reserved_login text.now }
{
    match after_login(text) {
        Some(word) => is_reserved(word),
        None => false,
    }
}

/// The requests to the session server.
pub(crate) struct LogsIn;

impl Requests for LogsIn {
    ghost begins = { begins_request };

    #[tactic(auto, unfolding(crate::specs::Messages::begins_request))]
    fn is_begun(text: &[u8]) -> bool {
        b"login ".starts_with(text) || user_in(text).is_some() || is_reserved_login(text)
    }
}
