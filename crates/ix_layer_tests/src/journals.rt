ghost use Rattle.std.specs.Prelude.{◌≤◌};

use ix_journal::Journal;
use ix_model::{Call, Entry, Fd, NameRef, Path, PathBuf, Pid};
use std::alloc::Global;
use std::process::Abort;

/// Keeps an entry, and tells whether it comes back and no other fits.
fn keeps(journal: &mut Journal, entry: &Entry<'_>) -> bool {
    if !journal.fits(entry) {
        return false;
    }
    journal.push(entry);
    let kept = match journal.entry(1) {
        Some(kept) => kept.line == entry.line && writes(&kept.call, b"abc"),
        None => false,
    };
    kept && !journal.fits(entry)
}

/// Whether it writes these bytes.
fn writes(call: &Call<'_>, wanted: &[u8]) -> bool {
    match call {
        Call::WriteFd { bytes, .. } => *bytes == wanted,
        _ => false,
    }
}

/// Whether a journal with room for one entry keeps it.
fn keeps_one(alloc: Global) -> bool {
    let write = Entry {
        seat: 1,
        line: 8,
        pid: Pid(2),
        call: Call::WriteFd {
            fd: Fd(3),
            bytes: b"abc",
        },
    };
    match Journal::new(alloc, 131) {
        Ok(mut journal) => keeps(&mut journal, &write),
        Err(_) => false,
    }
}

#[test]
fn an_entry_comes_back_and_none_fits_behind_it(rt: HostRuntime) {
    assert!(rt; keeps_one(rt.alloc()));
}

/// A path of so many names, each of the greatest length.
fn path_of(absolute: bool, names: usize) -> Option<PathBuf> {
    let name = NameRef::read(b"abcdefghijklmnopqrstuvwxyz01")?;
    let mut path = PathBuf::new(absolute);
    for _ in 0..names {
        if !path.push(name) {
            return None;
        }
    }
    Some(path)
}

/// Whether the two are one path.
fn same(one: &Path<'_>, other: &Path<'_>) -> bool {
    one.absolute() == other.absolute() && one.len() == other.len() && one.same_names(other)
}

/// Whether a call links these two paths.
fn links(call: &Call<'_>, wanted: &Path<'_>, to: &Path<'_>) -> bool {
    match call {
        Call::LinkAt { target, path } => same(target, wanted) && same(path, to),
        _ => false,
    }
}

/// Whether an entry that links a path of so many names to one of as many less than sixteen comes back as it was.
fn comes_back(alloc: Global, names: usize) -> Option<bool>
    requires { names ≤ 16 }
{
    let (target, path) = (path_of(true, names)?, path_of(false, 16 - names)?);
    let (target, path) = (target.as_path(), path.as_path());
    let entry = Entry {
        seat: 0,
        line: 1,
        pid: Pid(1),
        call: Call::LinkAt { target, path },
    };
    let mut journal = Journal::new(alloc, 592).ok()?;
    if !journal.fits(&entry) {
        return None;
    }
    journal.push(&entry);
    let back = match journal.entry(1) {
        Some(kept) => links(&kept.call, &target, &path),
        None => false,
    };
    Some(back && journal.used() == 592)
}

#[test]
fn paths_of_every_length_come_back(rt: HostRuntime) {
    for names in 0..17 {
        assert!(rt; comes_back(rt.alloc(), names) == Some(true));
    }
}

#[test]
fn no_path_has_seventeen_names(rt: HostRuntime) {
    assert!(rt; path_of(true, 16).is_some() && path_of(true, 17).is_none());
}
