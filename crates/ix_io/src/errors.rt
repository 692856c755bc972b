/// A read or a write that did not go through. The stream's count of faults rose in that call.
#[derive(Debug, Clone, Copy, PartialEq, Eq)]
pub struct Failed;
