ghost use Rattle.std.specs.Prelude.{◌≡◌, ◌≤◌, length, take};
ghost use Rattle.ix_asking.specs.Copying.{kept};

use crate::held::Held;
use ix_model::Buf;

/// Writes bytes at the front of a buffer.
fn put_front(buf: &mut Buf, bytes: &[u8])
    requires { length bytes.now ≤ 4096 }
    ensures { take (length bytes.now) buf.new ≡ bytes.now }
{
    buf[..bytes.len()].copy_from_slice(bytes);
}

impl Held {
    /// No bytes.
    pub(crate) fn new() -> Held
        ensures { result.len ≡ 0 }
    {
        Held {
            bytes: [0; 4096],
            len: 0,
        }
    }

    /// Holds these bytes, and no others.
    pub(crate) fn put(&mut self, bytes: &[u8])
        requires { length bytes.now ≤ 4096 }
        ensures { kept self.new ≡ bytes.now }
    {
        put_front(&mut self.bytes, bytes);
        self.len = bytes.len();
    }

    /// The bytes that are held.
    pub(crate) fn as_bytes(&self) -> &[u8]
        ensures { result.now ≡ kept self.now }
    {
        &self.bytes[..self.len]
    }
}
