//! The two rules by which labels float, and the marks that save a look at labels that were looked at before.
#![tactic(auto)]

mod floats;
mod mark;

pub use floats::{affect, observe};
pub use mark::{Mark, Way};
