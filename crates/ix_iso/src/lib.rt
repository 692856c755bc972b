//! What a low process reads is the same in both runs: laws of the machine's definitions, without code.
#![tactic(auto)]

pub mod laws;
