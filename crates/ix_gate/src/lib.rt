//! A ticket lock whose machine carries one history, and seats that know what they have seen of it.
#![tactic(auto)]

mod gate;
mod machine;
mod rule;
mod seat;
mod steps;
mod view;

pub use gate::Gate;
pub use ix_memory::NoMemory;
pub use machine::Machine;
pub use seat::{Busy, Seat};
