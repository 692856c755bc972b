//! The text of a report: its entries, and what it closes with.

pub mod closing;
pub mod entry;
pub mod pieces;
pub mod replay;
