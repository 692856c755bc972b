//! What judges a report, for any machine and any lanes: the first line at which no good report goes on, found line by line. Laws of
//! definitions, without code.
#![tactic(auto)]

pub mod laws;
