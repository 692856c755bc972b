ghost use Rattle.std.specs.Prelude.{⊤, [], ◌∷◌, codes};

use bitflags::{Flag, Flags, bitflag_items};

/// A set of privileges: DOWN lowers a label, PRIV sets a file's privileges and grants licences, CEIL raises a
/// ceiling or sets that of a process which is neither the caller nor its child, THAW unfreezes, LOG reads the log.
#[derive(Clone, Copy, PartialEq, Eq, Debug)]
pub struct PrivSet(u8);

bitflag_items! {
    impl PrivSet: u8 {
        const DOWN = 1;
        const PRIV = 2;
        const CEIL = 4;
        const THAW = 8;
        const LOG = 16;
    }
}

impl Flags for PrivSet {
    type Bits = u8;

    ghost exact = { ⊤ };

    ghost table = { (codes "DOWN", 1) ∷ (codes "PRIV", 2) ∷ (codes "CEIL", 4) ∷ (codes "THAW", 8) ∷ (codes "LOG", 16) ∷ [] };

    ghost set_of = { λ p. p.0 };

    fn flags<'a>() -> &'a [Flag<PrivSet>] {
        PrivSet::FLAGS
    }

    fn bits(&self) -> u8 {
        self.0
    }

    fn from_bits_retain(bits: u8) -> PrivSet {
        PrivSet(bits)
    }
}
