//! The bytes of files, in chains of blocks of one pool.
#![tactic(auto)]

mod blocks;
mod rows;
mod store;

pub use blocks::{Blocks, NoSpace};
pub use ix_memory::NoMemory;
