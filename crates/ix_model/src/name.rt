ghost use Rattle.std.specs.Prelude.{◌≡◌, ◌≤◌, length, IsTrue, MatchOption};
ghost use Rattle.ix_model.specs.world.Naming.{is_name};

use crate::name_ref::{NameRef, is_name};
use std::marker::Model;

/// The name of a file or a directory: 1 to 28 bytes, none of them `/` or zero, and neither `.` nor `..`.
#[derive(Clone, Copy)]
pub struct Name {
    bytes: [u8; 28],
    len: u8,
}

impl Model for Name {
    ghost use Rattle.std.specs.Prelude.{List, ℕ, IsTrue, take, length};
    ghost use Rattle.ix_model.specs.world.Naming.{IsNameInside, is_name, padded};

    ghost Value = { List ℕ };

    ghost view = { λ n. take n.len n.bytes };

    ghost invariant = { λ n. IsNameInside n.bytes n.len × IsTrue (is_name (take n.len n.bytes)) };

    ghost inverse = { λ t. record { bytes = padded 28 t; len = length t } };

    ghost inverse_ok = { λ n h i. record { bytes = h.0.padding i; len = h.0.long i } };
}

impl Name {
    ghost use Rattle.ix_model.specs.world.NameRefs.{name_of};

    /// The name of these bytes; `None` exactly where they are no name.
    pub fn read(bytes: &[u8]) -> Option<Name>
        ensures { MatchOption result (IsTrue (is_name bytes.now) → ⊥) (λ n. (n ≡ bytes.now) × IsTrue (is_name bytes.now)) }
    {
        if is_name(bytes) {
            Some(Name::of(bytes))
        } else {
            None
        }
    }

    /// The name of bytes that are known to be one.
    pub(crate) fn of(bytes: &[u8]) -> Name
        requires name { IsTrue (is_name bytes.now) }
        requires few { length bytes.now ≤ 28 }
        ensures { result ≡ bytes.now }
    {
        let mut kept = [0; 28];
        kept[..bytes.len()].copy_from_slice(bytes);
        Name {
            bytes: kept,
            len: bytes.len() as u8,
        }
    }

    /// Its bytes.
    pub fn as_bytes(&self) -> &[u8]
        ensures bytes { result.now ≡ self.now }
        ensures name { IsTrue (is_name self.now) }
        ensures few { length self.now ≤ 28 }
    {
        &self.bytes[..self.len as usize]
    }

    /// The same name, lent.
    pub fn as_ref(&self) -> NameRef<'_>
        ensures { name_of result ≡ self.now }
    {
        NameRef::of(self.as_bytes())
    }
}
