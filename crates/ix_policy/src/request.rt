use ix_label::Label;
use ix_model::{Name, PrivSet};

/// What a server asks its policy.
#[derive(Clone, Copy)]
pub enum Request {
    /// Whether a process of that label may have these privileges.
    Grant { label: Label, want: PrivSet },
    /// Whether a process of that label may open a session for that user.
    Session { user: Name, label: Label },
}

/// What a policy answers.
#[derive(Clone, Copy, Debug, PartialEq, Eq)]
pub struct Verdict {
    /// The number of the rule that decided, from 1; 0 where none matched.
    pub rule: u32,
    pub allow: bool,
}
