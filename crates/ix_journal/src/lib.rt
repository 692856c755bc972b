//! The journal: the entries of a history, packed within a number of bytes that is reserved at the beginning.
#![tactic(auto)]

mod cost;
mod journal;
mod packing;
mod record;
mod unpacking;
mod words;

pub use journal::Journal;
