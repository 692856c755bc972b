ghost use Rattle.std.specs.Prelude.{◌≡◌};

use ix_model::{Mode, Obj};
use ix_open::Opens;
use std::alloc::Global;
use std::process::Abort;

/// Lets an open entry go by one owner, where it stands.
fn release(opens: &mut Opens, id: u32) -> bool
    ensures { opens.new.objects ≡ opens.old.objects }
{
    opens.get(id).is_some() && opens.release(id)
}

/// What open entries are numbered, in two numbers, and after the first has gone.
fn numbered(alloc: Global) -> Option<[Option<u32>; 4]> {
    let mut opens = Opens::new(alloc, 2, 8).ok()?;
    let first = opens.open(Obj(7), 0, Mode::Both);
    let second = opens.open(Obj(5), 1, Mode::Read);
    let none = opens.open(Obj(5), 0, Mode::Read);
    release(&mut opens, 0);
    Some([first, second, none, opens.open(Obj(5), 0, Mode::Read)])
}

#[test]
fn a_number_is_free_again_once_its_last_owner_went(rt: HostRuntime) {
    assert!(rt; numbered(rt.alloc()) == Some([Some(0), Some(1), None, Some(0)]));
}
