ghost use Rattle.std.specs.Prelude.{◌≤◌};

use ix_model::Buf;

/// Bytes that are held for a later call: so many at the front of a buffer.
#[derive(Drop)]
pub(crate) struct Held {
    pub(crate) bytes: Buf,
    pub(crate) len: usize,
    ghost within: { len ≤ 4096 },
}
