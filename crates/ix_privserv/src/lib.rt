//! The privilege server: it grants the process at the other end of a pipe the privileges that it wants, where a policy allows it.
#![tactic(auto)]

pub mod laws;
mod message;
mod server;
mod serving;

pub use server::PrivServer;
pub use serving::serve;
