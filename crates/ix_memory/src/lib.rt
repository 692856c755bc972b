//! Want of memory: the one answer that all calls that take memory may give.
#![tactic(auto)]

use std::alloc::{AllocError, AllocFailed};

/// There is no memory for what was asked. After it all is as it was before the call.
#[derive(Debug, Clone, Copy, PartialEq, Eq)]
pub struct NoMemory;

impl From<AllocError> for NoMemory {
    fn from(_error: AllocError) -> NoMemory {
        NoMemory
    }
}

/// What couldn't be kept is dropped.
impl<T: Drop> From<AllocFailed<T>> for NoMemory {
    fn from(_failed: AllocFailed<T>) -> NoMemory {
        NoMemory
    }
}
