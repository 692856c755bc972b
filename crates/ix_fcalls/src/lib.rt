//! The calls on files: paths, descriptors and pipes, over the tables.
#![tactic(auto)]

mod caller_in;
mod claims;
mod closing;
mod cutting;
mod entries;
mod files;
mod floats;
mod going;
mod leaving;
mod length_checks;
mod looking;
mod making;
mod moved;
mod open_file;
mod opening;
mod reading;
mod spots;
mod taking;
mod turn;
mod unmaking;
mod views;
mod walks;
mod writing;

pub use files::Files;
pub use moved::Moved;
pub use walks::{Outcome, Walked};
