//! The audit log: a list of lines that takes so many and no more.
#![tactic(auto)]

mod log;

pub use log::{Log, LogFull};
