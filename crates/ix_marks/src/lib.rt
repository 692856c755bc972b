//! Which descriptors are fresh: whose labels were looked at, with no change since.
#![tactic(auto)]

mod marks;
mod row;
mod row_index;

pub use marks::Marks;
pub use row::Spot;
