//! The machine: files, processes and the audit log, with every call.
#![tactic(auto)]

mod boot;
mod calls;
mod claiming;
mod ending;
mod exercise;
mod floats;
mod forking;
mod freezing;
mod labels;
mod machine;
mod parts;
mod privileges;
mod running;
mod spots;
mod turns;
mod views;
mod walks;

pub use machine::Machine;
