//! The lanes of a script, run side by side at one shared kernel.
#![tactic(auto)]

mod history;
mod meeting;
mod phases;
mod watch;

pub use history::run_history;
pub use watch::{NoWatch, Watch};
