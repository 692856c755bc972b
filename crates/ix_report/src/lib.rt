//! The lines of a report: each call appends one to bytes, or leaves them as they were.
#![tactic(auto)]

mod calls;
pub mod laws;
mod line;
mod pieces;
mod refusals;
mod replies;
mod report;
mod short;
mod totals;
mod words;

pub use line::Line;
pub use pieces::{push_escaped, push_number, push_privs};
pub use report::{audit_line, entry_line, head, object_line, process_line, tail};
pub use totals::{Totals, totals_line};
