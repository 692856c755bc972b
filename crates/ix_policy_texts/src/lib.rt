//! What is printed of policies: which of their rules ever decide, where two differ, who is granted what, and the ruling on a request.
#![tactic(auto)]

mod answers;
mod differences;
mod faults;
mod requests;

pub use answers::{can_text, decide_text, policy_text};
pub use differences::difference_text;
pub use faults::fault_text;
