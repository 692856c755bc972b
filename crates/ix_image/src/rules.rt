ghost use Rattle.std.specs.Prelude.{◌≡◌};
ghost use Rattle.ix_image.specs.Rules.{rule_text};

/// The bytes end within a field; the place is their length.
pub const MISSING: u8 = 1;
/// The first bytes are not `IXIMAGE1`; the place is that of the first byte that differs.
pub const NO_IMAGE: u8 = 2;
/// A number is out of range.
pub const OUT_OF_RANGE: u8 = 3;
/// A name is not well formed.
pub const BAD_NAME: u8 = 4;
/// An object's number is not above the last one, or is in no file system.
pub const OUT_OF_ORDER: u8 = 5;
/// An object's label is not below the ceiling of its file system.
pub const ABOVE_CEILING: u8 = 6;
/// A byte stands behind the last object.
pub const LEFT_OVER: u8 = 7;
/// The names of the whole do not fit; the place is the length.
pub const MISFIT: u8 = 8;
/// There are too many bytes; the place is that of the first one too many.
pub const TOO_LONG: u8 = 9;

/// What is said of an image that breaks a rule, by the rule's number, which is 1 to 9.
#[tactic(auto, unfolding(crate::specs::Rules::rule_text))]
pub fn rule_text(rule: u8) -> &'static [u8]
    ensures { result.now ≡ rule_text rule }
{
    match rule {
        1 => b"a byte is missing",
        2 => b"the first bytes are not IXIMAGE1",
        3 => b"a number is out of range",
        4 => b"a name is not well formed",
        5 => b"an object is out of order",
        6 => b"a label is not below its ceiling",
        7 => b"a byte is left over",
        8 => b"the names do not fit",
        _ => b"the image is too long",
    }
}
