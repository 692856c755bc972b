//! Doubly linked chains of indices in one pool.
#![tactic(auto)]

mod link;
mod links;

pub use ix_memory::NoMemory;
pub use links::Links;
