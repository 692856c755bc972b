//! What the lanes of a script ask for, line by line, the histories that hold it, and runs of lanes.
#![tactic(auto)]

mod asking;
mod lanes;
pub mod laws;
mod lines;
mod running;

pub use asking::bindings::Bindings;
pub use asking::caller::Caller;
pub use lanes::header_of;
pub use lines::{line_at, role_at};
pub use running::lane_calls::LaneCalls;
pub use running::lane_run::LaneRun;
pub use running::phases::phase_end;
pub use running::serial_calls::SerialCalls;
pub use running::side_by_side::{Lane, run_phase};
