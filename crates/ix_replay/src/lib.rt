//! The report of a history of a script: the line of each entry as it is made, and what closes it, piece by piece; a history that is
//! made once more before a witness; and a summary of the history in one line.
#![tactic(auto)]

pub mod laws;
mod reporting;
mod tally;

pub use reporting::closing::{Closing, Next};
pub use reporting::entry::push_entry;
pub use reporting::replay::replay;
pub use tally::{Tally, summary};
