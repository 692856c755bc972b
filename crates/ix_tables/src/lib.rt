//! Inodes, names, pipes and open entries, joined to the tables of a world.
#![tactic(auto)]

mod bytes;
mod names;
mod objects;
mod opening;
mod opens;
mod pipes;
mod row;
mod tables;

pub use row::ObjectRow;
pub use tables::Tables;
