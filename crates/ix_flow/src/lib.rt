//! Where each byte that was read came from, and under which label it was written.
#![tactic(auto)]

mod falls;
mod flow;
mod labels;
pub mod laws;
mod lines;
mod moves;
mod piece;
mod side;
mod sides;
mod source;
mod telling;
mod tracks;

pub use flow::Flow;
pub use side::Side;
pub use source::Source;
pub use tracks::Tracks;
