//! Two scripts, run side by side and compared at a label.
#![tactic(auto)]

mod comparison;
mod configs;
mod input;
pub mod laws;
mod sameness;
mod side;
mod tests;
mod turn;
mod twin;

pub use comparison::compare;
pub use input::{Divided, divide};
pub use twin::{Twin, TwinStep};
