//! Pipes by number: two directions of bytes, a claim on each end, and a label.
#![tactic(auto)]

mod claim;
mod pipes;
mod queue;
mod slot;

pub use claim::Claim;
pub use pipes::Pipes;
pub use queue::PipeFull;
