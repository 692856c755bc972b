use ix_label::Label;
use ix_model::{Mode, Obj};

/// An open entry.
#[derive(Clone, Copy)]
pub struct OpenView {
    pub obj: Obj,
    /// The end of a pipe, 0 or 1; 0 for a file.
    pub end: u8,
    pub mode: Mode,
    /// The offset, in bytes.
    pub at: u32,
    /// How many descriptors name it, at least 1.
    pub owners: u32,
    /// The label of what the offset tells.
    pub label: Label,
}
