ghost use Rattle.std.specs.Prelude.{◌≡◌, ◌<◌, [], ◌++◌, true, None, IfSome, length};
ghost use Rattle.ix_judging.specs.Bytes.{is_empty, is_line, split};

use memchr::memchr;

/// The first line of a text, with its line feed, and what stands behind it, where it has one.
pub fn first_line(text: &[u8]) -> Option<(&[u8], &[u8])>
    ensures line { IfSome result (λ parts. is_line parts.0.now ≡ true) }
    ensures parts { IfSome result (λ parts. text.now ≡ parts.0.now ++ parts.1.now) }
    ensures fewer { IfSome result (λ parts. length parts.1.now < length text.now) }
    ensures none { result ≡ None → split text.now ≡ record { lines = []; whole = is_empty text.now } }
{
    match memchr(b'\n', text) {
        Some(at) => Some(text.split_at(at + 1)),
        None => None,
    }
}
