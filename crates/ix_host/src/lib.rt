//! The top calls of the programs: command words and a script in, a report, the canonical text or a summary and a status out.
#![tactic(auto)]

mod arguments;
mod checking;
mod comparing;
mod concluding;
mod following;
mod lanes;
pub mod laws;
mod listing;
mod policies;
mod preparing;
mod refusals;
mod refusing;
mod run;
mod saving;
mod status;
mod streams;
mod task;

pub use arguments::words::Words;
pub use ix_io as io;
pub use ix_model::NoMemory;
pub use ix_parallel::{NoWatch, Watch};
pub use lanes::run_lanes;
pub use run::run_serial;
pub use status::Status;
