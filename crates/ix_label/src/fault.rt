/// The first fault of a text that spells no label in a form, and the byte at which it stands.
///
/// The text is read from left to right. For one number the faults are looked for in the order
/// below, and what stands after it only where the number itself has none.
#[derive(Debug, Clone, Copy, PartialEq, Eq)]
pub enum LabelFault {
    /// The text has no byte.
    Empty,
    /// A number is due at `at`, and no digit stands there, or a 0 with more digits; or a number
    /// ends just before `at`, and there stands neither the end, nor a comma, nor, after a number
    /// that is not the second of a range, a dash.
    BadNumber { at: usize },
    /// The number that begins at `at` is above the form's greatest: 255 in form One, 511 in form Two.
    OutOfRange { at: usize },
    /// The number that begins at `at` is the second of a range and not above the first, or the
    /// first of an item and not above the last number before it.
    NotAscending { at: usize },
    /// The number that begins at `at` is the first of an item and follows the last number before
    /// it, so that the two belong to one run; or the whole text is the run that is spelled `*`:
    /// `0-255` in form One, `0-511` in form Two.
    NotLongest { at: usize },
}
