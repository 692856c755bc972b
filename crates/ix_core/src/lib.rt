//! The core: the machine, with the journal of the history that led to it.
#![tactic(auto)]

mod keeper;
mod marking;
mod seen;
mod stops;
mod system;
mod witness;

pub use keeper::Core;
pub use seen::{SeenSys, read_by};
pub use stops::Stops;
pub use system::CoreSys;
pub use witness::Witness;
