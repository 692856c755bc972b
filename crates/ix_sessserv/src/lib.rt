//! The session server: it makes the process at the other end of a pipe a child for a user, with the ceiling and the privileges of
//! the policy's rule that allows it.
#![tactic(auto)]

pub mod laws;
mod message;
mod server;
mod serving;

pub use server::SessServer;
pub use serving::serve;
