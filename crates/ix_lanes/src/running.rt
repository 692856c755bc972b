//! Runs of lanes, phase by phase.

pub mod beginning;
pub mod hearing;
pub mod here;
pub mod lane_calls;
pub mod lane_run;
pub mod part;
pub mod phases;
pub mod serial_calls;
pub mod side_by_side;
