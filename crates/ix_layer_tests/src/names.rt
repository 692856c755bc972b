ghost use Rattle.std.specs.Prelude.{◌≡◌, ◌<◌, length};

use ix_model::{Name, Obj};
use ix_name::Names;
use std::alloc::Global;
use std::process::Abort;

/// Adds a name where it isn't there, and there is room; whether it did.
fn add(names: &mut Names, dir: Obj, name: Name, obj: Obj) -> bool
    requires { dir.0 < length names.old.lists }
    ensures { length names.new.lists ≡ length names.old.lists }
{
    names.find(dir, &name.as_ref()).is_none() && names.add(dir, name, obj).is_ok()
}

/// What two names of directories of three stand for, once another of the first has gone.
fn found(alloc: Global) -> Option<[Option<Obj>; 3]> {
    let (a, b) = (Name::read(b"a")?, Name::read(b"b")?);
    let mut names = Names::new(alloc, 3, 8).ok()?;
    add(&mut names, Obj(7), a, Obj(4));
    add(&mut names, Obj(7), b, Obj(5));
    add(&mut names, Obj(2), a, Obj(6));
    let gone = names.remove(Obj(7), &a.as_ref());
    Some([
        gone,
        names.find(Obj(7), &b.as_ref()),
        names.find(Obj(2), &a.as_ref()),
    ])
}

#[test]
fn names_come_and_go(rt: HostRuntime) {
    assert!(rt; found(rt.alloc()) == Some([Some(Obj(4)), Some(Obj(5)), Some(Obj(6))]));
}
