//! The calls that lines ask for, and the names that stand in them.

pub mod bindings;
pub mod caller;
pub mod calls;
pub mod handed;
pub mod places;
