//! A fresh descriptor costs no look at a label: laws of the machine's definitions, without code.
#![tactic(auto)]

pub mod laws;
