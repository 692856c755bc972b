//! The open entries: the object and end that each is on, its offset, its label, and how many own it.
#![tactic(auto)]

mod keys;
mod opens;
mod view;

pub use opens::Opens;
pub use view::OpenView;
