//! The generator: a session script with any number of commands, the same text at each call.
#![tactic(auto)]

mod generator;

pub use generator::text;
