ghost use Rattle.std.specs.Prelude.{◌≡◌, ◌+◌, Some, IsTrue, is_some};
ghost use Rattle.ix_model.specs.world.World.{at};
ghost use Rattle.ix_open.specs.{Indexed.{entry_in}, Tally.{place}};

use crate::view::OpenView;
use ix_model::Obj;
use slab::Slab;

/// The key of a number at which an entry stands.
pub fn key_of(keys: &[Option<usize>], id: u32) -> usize
    requires { IsTrue (is_some (at keys.now id)) }
    ensures { at keys.now id ≡ Some result }
{
    let Some(Some(key)) = keys.get(id as usize) else {
        unreachable!()
    };
    *key
}

/// The entry of a number, if one stands there.
pub fn entry_at(entries: &Slab<OpenView>, keys: &[Option<usize>], id: u32) -> Option<OpenView>
    ensures { result ≡ entry_in entries.now (at keys.now id) }
{
    match keys.get(id as usize) {
        Some(Some(key)) => entries.get(*key).copied(),
        _ => None,
    }
}

/// The place of an object's end among the counts.
pub fn place(obj: Obj, end: u8) -> usize
    ensures { result ≡ place obj.0 end }
{
    2 * obj.0 as usize + end as usize
}
