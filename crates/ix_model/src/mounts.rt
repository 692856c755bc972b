ghost use Rattle.std.specs.Prelude.{◌≡◌, ◌<◌, ◌+◌, length, IfSome, ◌∷◌, []};
ghost use Rattle.ix_model.specs.{world.{Naming.{same_names}, NameRefs.{name_of}, Paths.{path_of}}, opening.Valid.{mount_of, fs_of, is_mount}};

use crate::config::FsSpec;
use crate::name_ref::NameRef;
use crate::path::Path;

/// The place of that name among the further file systems, from 0.
fn mount_of(fss: &[FsSpec], name: &NameRef<'_>) -> Option<usize>
    ensures mount { result ≡ mount_of fss.now (name_of name.now) }
    ensures within { IfSome result (λ k. k + 1 < length fss.now) }
{
    fss.iter().skip(1).position(|s| s.name.as_ref().same(name))
}

/// The place of the file system on which a path lies, from 0: the further one that its first name is, or else the first one of all.
pub fn fs_of(fss: &[FsSpec], path: &Path<'_>) -> usize
    ensures fs { result ≡ fs_of fss.now (path_of path.now).names }
    ensures within { 0 < length fss.now → result < length fss.now }
{
    let Some(name) = path.name(0) else {
        return 0;
    };
    match mount_of(fss, &name) {
        Some(k) => k + 1,
        None => 0,
    }
}

/// Whether a path has that one name.
fn is_just(path: &Path<'_>, name: &NameRef<'_>) -> bool
    ensures { result ≡ same_names (name_of name.now ∷ []) (path_of path.now).names }
{
    name.as_bytes() == path.text()
}

/// Whether a further file system's root is there under the names of a path.
pub fn is_mount(fss: &[FsSpec], path: &Path<'_>) -> bool
    ensures { result ≡ is_mount fss.now (path_of path.now).names }
{
    fss.iter().skip(1).any(|s| is_just(path, &s.name.as_ref()))
}
