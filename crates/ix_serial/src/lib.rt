//! The serial run of a script on one core: its lines in order, each answered before the next.
#![tactic(auto)]

mod serial;

pub use serial::{run_history, run_on};
