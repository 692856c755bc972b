//! Privileges: who may exercise one, and what an exec and a drop leave.
#![tactic(auto)]

mod privs;

pub use privs::{Privs, after_exec, dropped, may};
