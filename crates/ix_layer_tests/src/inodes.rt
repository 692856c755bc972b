ghost use Rattle.std.specs.Prelude.{◌≡◌, IfSome, true};
ghost use Rattle.ix_model.specs.opening.Valid.{fs_fits};

use ix_inode::Inodes;
use ix_label::Label;
use ix_model::{FsSpec, Kind, Name, Obj};
use std::alloc::Global;
use std::process::Abort;

/// A file system of one block.
fn one_block() -> Option<FsSpec>
    ensures { IfSome result (λ fs. fs_fits fs ≡ true) }
{
    Some(FsSpec {
        name: Name::read(b"root")?,
        ceiling: Label::top(),
        blocks: 1,
        inodes: 8,
    })
}

/// Writes to the front of an empty file; whether there was one, and space.
fn writes(inodes: &mut Inodes, obj: Obj, bytes: &[u8; 4]) -> bool {
    match inodes.get(obj) {
        Some(file) if file.kind == Kind::File && file.size == 0 => {
            inodes.write(obj, 0, bytes).is_ok()
        }
        _ => false,
    }
}

/// Lets a file or a directory go, where one stands.
fn free(inodes: &mut Inodes, obj: Obj) {
    if inodes.get(obj).is_some() {
        inodes.free(obj);
    }
}

/// Whether there is space for a file, for another beside it, and for that once the first has gone.
fn spaces(alloc: Global) -> Option<[bool; 3]> {
    let fss = [one_block()?];
    let mut inodes = Inodes::new(alloc, &fss).ok()?;
    inodes.make(0, Kind::File);
    inodes.make(0, Kind::File);
    let first = writes(&mut inodes, Obj(1), b"held");
    let beside = writes(&mut inodes, Obj(2), b"more");
    free(&mut inodes, Obj(1));
    Some([first, beside, writes(&mut inodes, Obj(2), b"more")])
}

#[test]
fn a_write_has_space_once_another_file_went(rt: HostRuntime) {
    assert!(rt; spaces(rt.alloc()) == Some([true, false, true]));
}
