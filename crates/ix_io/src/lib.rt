//! Streams of bytes that may fail: the traits, and streams over memory, over std's and without faults.
#![tactic(auto)]

mod errors;
mod memory;
mod plan;
mod quiet;
mod sink;
mod source;
mod standard;

pub use errors::Failed;
pub use ix_memory::NoMemory;
pub use memory::{MemSink, MemSource};
pub use quiet::{QuietSink, QuietSource};
pub use sink::Sink;
pub use source::Source;
pub use standard::{StdSink, StdSource};
