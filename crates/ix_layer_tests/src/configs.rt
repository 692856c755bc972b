use bitflags::Flags;
use ix_label::Label;
use ix_model::{Config, Contents, FsSpec, Limits, List, Name, NameRef, ObjSpec, PathBuf, PrivSet};
use std::alloc::Global;
use std::process::Abort;

/// File systems of these names.
fn file_systems(alloc: Global, names: [&[u8]; 2]) -> Option<List<FsSpec>> {
    let mut all = List::new(alloc);
    for name in names {
        all.push(FsSpec {
            name: Name::read(name)?,
            ceiling: Label::top(),
            blocks: 1,
            inodes: 3,
        })
        .ok()?;
    }
    Some(all)
}

/// The path of a name in the root.
fn path(name: &[u8]) -> Option<PathBuf> {
    let mut path = PathBuf::new(true);
    path.push(NameRef::read(name)?);
    Some(path)
}

/// Empty files of these names.
fn files(alloc: Global, names: [&[u8]; 2]) -> Option<List<ObjSpec>> {
    let mut all = List::new(alloc);
    for name in names {
        all.push(ObjSpec {
            path: path(name)?,
            dir: false,
            label: Label::bottom(),
            frozen: false,
            cap: PrivSet::empty(),
            lic: PrivSet::empty(),
            bytes: Contents::new(alloc),
        })
        .ok()?;
    }
    Some(all)
}

/// Whether a config of these file systems, and these files in the root, is valid.
fn is_valid(alloc: Global, fss: List<FsSpec>, objects: List<ObjSpec>) -> bool {
    let config = Config {
        fss,
        limits: Limits {
            procs: 1,
            opens: 1,
            pipes: 0,
            names: 16,
            log: 0,
        },
        procs: List::new(alloc),
        objects,
        journal: 1,
    };
    config.valid()
}

/// Whether names of file systems and of files may stand together; `None` where memory ran out.
fn may_stand(alloc: Global, fss: [&[u8]; 2], names: [&[u8]; 2]) -> Option<bool> {
    let fss = file_systems(alloc, fss)?;
    let objects = files(alloc, names)?;
    Some(is_valid(alloc, fss, objects))
}

#[test]
fn names_stand_once(rt: HostRuntime) {
    for (fss, names, valid) in [
        ([b"disk".as_slice(), b"more"], [b"a".as_slice(), b"b"], true),
        ([b"disk", b"disk"], [b"a", b"b"], false),
        ([b"disk", b"more"], [b"a", b"a"], false),
        ([b"disk", b"more"], [b"a", b"more"], false),
    ] {
        assert!(rt; may_stand(rt.alloc(), fss, names) == Some(valid));
    }
}
