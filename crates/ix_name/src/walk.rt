ghost use Rattle.std.specs.Prelude.{◌≡◌, ◌<◌, length, find, slice_get};
ghost use Rattle.ix_links.specs.Chains.{chain_of, pool};
ghost use Rattle.ix_name.specs.Entries.{is_at};
ghost use Rattle.ix_model.specs.world.NameRefs.{name_of};

use crate::entry::Entry;
use ix_links::Links;
use ix_model::NameRef;

/// The index at a place of a chain; `None` past the last. A walk from the chain's first.
pub fn index_at(links: &Links, chain: u32, place: u32) -> Option<u32>
    requires { chain < length links.now.chains }
    ensures { result ≡ slice_get (chain_of chain links.now) place }
{
    links.is_pool();
    let mut index = links.first(chain)?;
    for _ in 0..place {
        index = links.next(index)?;
    }
    Some(index)
}

/// The first index of a chain at which an entry of that directory and name stands; `None` where none does. A walk from
/// the chain's first, of at most as many steps as there are entries.
pub fn index_of(
    links: &Links,
    chain: u32,
    entries: &[Option<Entry>],
    dir: u32,
    name: &NameRef<'_>,
) -> Option<u32>
    requires chain { chain < length links.now.chains }
    requires entries { length entries.now ≡ pool links.now }
    ensures { result ≡ find (is_at entries.now dir (name_of name.now)) (chain_of chain links.now) }
{
    links.is_pool();
    let mut next = links.first(chain);
    for _ in 0..entries.len() {
        let index = next?;
        if is_at(entries, index, dir, name) {
            return Some(index);
        }
        next = links.next(index);
    }
    None
}

/// Whether an entry of that directory and name stands at an index.
fn is_at(entries: &[Option<Entry>], index: u32, dir: u32, name: &NameRef<'_>) -> bool
    requires { index < length entries.now }
    ensures { result ≡ is_at entries.now dir (name_of name.now) index }
{
    match &entries[index as usize] {
        Some(entry) => entry.is_of(dir, name),
        None => false,
    }
}
