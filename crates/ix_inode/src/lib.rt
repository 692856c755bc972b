//! The files and directories of all file systems: their records and bytes, by number.
#![tactic(auto)]

mod inodes;
mod node;
mod spot;
mod table;
mod volume;

pub use inodes::Inodes;
pub use ix_blocks::NoSpace;
pub use node::{Inode, Node};
