ghost use Rattle.std.specs.{Prelude.{◌≡◌, ◌≤◌, ◌++◌, [], length}, Fmt.{decimal}};
ghost use Rattle.ix_asking.specs.serving.Texts.{said};

use crate::serving::text::Text;
use itoa::write_digits;

/// A word and a number after it.
#[tactic(auto, using(crate::proofs::Texts::decimal_fits))]
pub fn spelled(word: &[u8], n: u32) -> Text
    requires { length word.now ≤ 8 }
    ensures { said result ≡ word.now ++ decimal n }
{
    let mut bytes = [0; 32];
    let end = write_digits(n as u64, &mut bytes, 32);
    let start = end - word.len();
    bytes[start..end].copy_from_slice(word);
    Text { bytes, start }
}

impl Text {
    /// The text of no bytes.
    pub fn empty() -> Text
        ensures { said result ≡ [] }
    {
        Text {
            bytes: [0; 32],
            start: 32,
        }
    }

    /// Its bytes.
    pub fn as_bytes(&self) -> &[u8]
        ensures { result.now ≡ said self.now }
    {
        &self.bytes[self.start..]
    }
}
