ghost use Rattle.std.specs.{Prelude.{◌≡◌, ◌≤◌, length, IsTrue, MatchOption}, List.{list_all}};
ghost use Rattle.ix_model.specs.world.Naming.{is_name, may_stand_in_name, same_bytes};

use crate::name::Name;

const NAME_MAX: usize = 28;

/// A `Name` that is lent: it borrows its bytes, and copying it copies none of them.
#[derive(Clone, Copy)]
pub struct NameRef<'a> {
    bytes: &'a [u8],
    ghost named: { IsTrue (is_name bytes.now) },
}

/// Whether bytes are a name.
#[tactic(auto, unfolding(crate::specs::world::Naming::is_name))]
pub(crate) fn is_name(bytes: &[u8]) -> bool
    ensures is { result ≡ is_name bytes.now }
    ensures fits { IsTrue result → length bytes.now ≤ 28 }
{
    if bytes.is_empty() || bytes.len() > NAME_MAX {
        return false;
    }
    if bytes == b".".as_slice() || bytes == b"..".as_slice() {
        return false;
    }
    all_plain(bytes)
}

fn all_plain(bytes: &[u8]) -> bool
    ensures { result ≡ list_all may_stand_in_name bytes.now }
{
    bytes.iter().all(|b| *b != b'/' && *b != 0)
}

impl<'a> NameRef<'a> {
    ghost use Rattle.ix_model.specs.world.NameRefs.{name_of};

    /// The name of these bytes; `None` exactly where they are no name.
    pub fn read(bytes: &'a [u8]) -> Option<NameRef<'a>>
        ensures { MatchOption result (IsTrue (is_name bytes.now) → ⊥) (λ n. (name_of n ≡ bytes.now) × IsTrue (is_name bytes.now)) }
    {
        if is_name(bytes) {
            Some(NameRef { bytes })
        } else {
            None
        }
    }

    /// The name of bytes that are known to be one: nothing is looked at.
    pub(crate) fn of(bytes: &'a [u8]) -> NameRef<'a>
        requires { IsTrue (is_name bytes.now) }
        ensures { name_of result ≡ bytes.now }
    {
        NameRef { bytes }
    }

    /// Its bytes.
    pub fn as_bytes(&self) -> &'a [u8]
        ensures bytes { result.now ≡ name_of self.now }
        ensures name { IsTrue (is_name (name_of self.now)) }
        ensures few { length (name_of self.now) ≤ 28 }
    {
        self.bytes
    }

    /// A name of its own with the same bytes.
    pub fn to_name(&self) -> Name
        ensures { result ≡ name_of self.now }
    {
        Name::of(self.as_bytes())
    }

    /// Whether the two are one name, byte for byte.
    pub fn same(&self, other: &NameRef<'_>) -> bool
        ensures { result ≡ same_bytes (name_of self.now) (name_of other.now) }
    {
        self.bytes == other.bytes
    }
}
