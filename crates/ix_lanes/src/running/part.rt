use ix_privserv::PrivServer;
use ix_sessserv::SessServer;

/// What the line in which a lane stands has still to ask for.
#[derive(Clone, Copy)]
pub enum Part<'a> {
    /// Nothing: the lane stands at its end.
    Over,
    /// The one call of a command. It writes so many of the bytes that the lane holds.
    Command(usize),
    /// Calls of a `copy`.
    Copy,
    /// Calls of the privilege server.
    Priv(PrivServer<'a>),
    /// Calls of the session server.
    Login(SessServer<'a>),
}
