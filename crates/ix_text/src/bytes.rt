ghost use Rattle.std.specs.Prelude.{◌≡◌};
ghost use Rattle.ix_model.specs.world.Naming.{same_bytes};
ghost use Rattle.ix_text.specs.Bytes.{begins, is_digit, is_letter};

/// Whether the two are the same bytes. It is inlined, so that a text that is known costs a comparison or two where the word is
/// another.
#[inline(always)]
pub fn is(word: &[u8], text: &[u8]) -> bool
    ensures { result ≡ same_bytes word.now text.now }
{
    if word.len() != text.len() {
        return false;
    }
    'bytes: for i in 0..text.len() {
        if word[i] != text[i] {
            return false;
        }
    }
    true
}

/// Whether the word begins with the byte.
pub fn begins(byte: u8, word: &[u8]) -> bool
    ensures { result ≡ begins byte word.now }
{
    match word {
        [] => false,
        [b, ..] => *b == byte,
    }
}

/// Whether the byte is a small letter.
pub(crate) fn is_letter(b: u8) -> bool
    ensures { result ≡ is_letter b }
{
    b >= b'a' && b <= b'z'
}

/// Whether the byte is a decimal digit.
pub fn is_digit(b: u8) -> bool
    ensures { result ≡ is_digit b }
{
    b >= b'0' && b <= b'9'
}
