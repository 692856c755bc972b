//! Numbers below a limit, of which the lowest free one is given out.
#![tactic(auto)]

mod numbers;

pub use ix_memory::NoMemory;
pub use numbers::Numbers;
