//! Whether a text is a report of a script, and where not, the first line at which no good report goes on.
#![tactic(auto)]

mod input;
mod judge;
mod lane;
pub mod laws;
mod lines;
mod printer;
mod stage;
mod told;
mod verdict;

pub use input::parts;
pub use judge::Judge;
pub use lines::first_line;
pub use verdict::{Verdict, push_verdict};
