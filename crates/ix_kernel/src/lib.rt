//! A core that threads share, each by a seat of its own: every answer is that of one history.
#![tactic(auto)]

mod held;
mod kernel;
mod seat;
mod system;

pub use ix_gate::Busy;
pub use kernel::Kernel;
pub use seat::KSeat;
pub use system::SeatSys;
