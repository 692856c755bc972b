//! The names of directories: chains in one pool of entries, and an index by directory and name.
#![tactic(auto)]

mod buckets;
mod entry;
mod names;
mod walk;

pub use entry::NoEntry;
pub use names::Names;
