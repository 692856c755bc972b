use thiserror::Error;

/// A field of a rule. Of the fields that are wrong the first in this order is told. A key that is missing makes its field wrong.
#[derive(Clone, Copy, Debug, PartialEq, Eq)]
pub enum Field {
    /// It is neither `grant` nor `session`; or the element is no object.
    Act,
    /// It is neither `*` nor, in a rule on sessions, a name.
    User,
    /// It is no label's text in the form.
    Clear,
    /// It is no set's text.
    Privs,
    /// It is neither `true` nor `false`.
    Allow,
    /// There is a further key.
    Other,
}

/// Why a text is no policy.
#[derive(Clone, Copy, Debug, PartialEq, Eq, Drop, Error)]
pub enum PolicyFault {
    /// The text isn't UTF-8, or it isn't JSON.
    #[error("the text is no JSON")]
    Syntax,
    /// The value is no object with the one key `rules` and an array under it.
    #[error("the text is no object with an array of rules alone")]
    Shape,
    /// The array has more than 256 elements.
    #[error("there are more than 256 rules")]
    TooMany,
    /// The first element that is no rule, by its number from 1, and its first wrong field.
    #[error("rule {index} is wrong in its field {field:?}")]
    Rule { index: u32, field: Field },
    /// There was no memory, for the JSON value or for the rules. It tells nothing of the text.
    #[error("there is no memory")]
    NoMemory,
}
