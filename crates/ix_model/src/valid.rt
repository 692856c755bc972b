ghost use Rattle.std.specs.Prelude.{◌≡◌, ℕ, ◌≤◌, ◌<◌, ◌+◌, ◌&&◌, length, IsTrue, IfSome, ◌∷◌, [], nat_le, map};
ghost use Rattle.std.specs.List.{list_all, list_any};
ghost use Rattle.ix_label.specs.Category.{leq};
ghost use Rattle.ix_model.specs.{world.{World.{fs_at}, Naming.{same_bytes, same_names}, Paths.{path_of}}, rows.Telling.{blocks_for}};
ghost use Rattle.ix_model.specs.opening.Valid.{fs_fits, fss_fit, all_differ, limits_fit, procs_fit, fs_of, is_mount, is_well_formed, is_taken, has_directory};
ghost use Rattle.ix_model.specs.opening.Valid.{lying_on, blocks_taken, has_room, object_fits, objects_fit, is_valid};

use crate::blocks::blocks_for;
use crate::config::{Config, FsSpec, Limits, ObjSpec, ProcSpec};
use crate::mounts::{fs_of, is_mount};
use crate::name::Name;
use crate::path::Path;
use bitflags::Flags;
use ix_label::Steps;
use std::sync::ledger::{Blank, Ledger};

/// The most bytes that a file has.
const FILE_MAX: usize = 1_048_576;

/// The most that a journal may cost.
const JOURNAL_MAX: u64 = 870_400_000;

/// Whether a config is valid. The ledger of the steps is the caller's choice.
#[tactic(auto, unfolding(crate::specs::opening::Valid::is_valid))]
pub(crate) fn is_valid<L: Ledger>(config: &Config, blank: Blank) -> bool
    requires name { blank.name ≡ L.name }
    requires parts { blank.parts ≡ L.parts }
    requires some { 0 < L.parts }
    ensures { result ≡ is_valid config.now }
{
    let mut steps = Steps::<L>::new(blank);
    fss_fit(config.fss.as_slice())
        && limits_fit(&config.limits)
        && procs_fit(&config.limits, config.procs.as_slice(), &mut steps)
        && objects_fit(
            config.fss.as_slice(),
            &config.limits,
            config.objects.as_slice(),
            &mut steps,
        )
        && config.journal <= JOURNAL_MAX
}

// ---- file systems, limits and processes

fn fs_fits(fs: &FsSpec) -> bool
    ensures { result ≡ fs_fits fs.now }
{
    (1..=65_536).contains(&fs.blocks) && (1..=65_536).contains(&fs.inodes)
}

fn each_fits(fss: &[FsSpec]) -> bool
    ensures { result ≡ list_all fs_fits fss.now }
{
    fss.iter().all(|s| fs_fits(s))
}

fn is_named(fss: &[FsSpec], name: &Name) -> bool
    ensures { result ≡ list_any (λ s. same_bytes name.now s.name) fss.now }
{
    let name = name.as_ref();
    fss.iter().any(|s| name.same(&s.name.as_ref()))
}

fn all_differ(fss: &[FsSpec]) -> bool
    ensures { result ≡ all_differ (map (λ s. s.name) fss.now) }
{
    for (i, fs) in fss.iter().enumerate() {
        if is_named(&fss[i + 1..], &fs.name) {
            return false;
        }
    }
    true
}

#[tactic(auto, unfolding(crate::specs::opening::Valid::fss_fit))]
fn fss_fit(fss: &[FsSpec]) -> bool
    ensures fit { result ≡ fss_fit fss.now }
    ensures some { IsTrue result → 0 < length fss.now }
{
    (1..=16).contains(&fss.len()) && each_fits(fss) && all_differ(fss)
}

#[tactic(auto, unfolding(crate::specs::opening::Valid::limits_fit))]
fn limits_fit(limits: &Limits) -> bool
    ensures { result ≡ limits_fit limits.now }
{
    (1..=1024).contains(&limits.procs)
        && (1..=4096).contains(&limits.opens)
        && limits.pipes <= 1024
        && (16..=65_536).contains(&limits.names)
        && limits.log <= 65_536
}

fn below_ceilings<L: Ledger>(procs: &[ProcSpec], steps: &mut Steps<L>) -> bool
    ensures { result ≡ list_all (λ p. leq p.label p.ceiling) procs.now }
{
    for p in procs {
        if !p.label.leq(&p.ceiling, steps) {
            return false;
        }
    }
    true
}

#[tactic(auto, unfolding(crate::specs::opening::Valid::procs_fit))]
fn procs_fit<L: Ledger>(limits: &Limits, procs: &[ProcSpec], steps: &mut Steps<L>) -> bool
    ensures { result ≡ procs_fit limits.now procs.now }
{
    procs.len() <= limits.procs as usize && below_ceilings(procs, steps)
}

// ---- where a path leads

fn is_made(before: &[ObjSpec], path: &Path<'_>) -> bool
    ensures { result ≡ list_any (λ b. same_names b.path.names (path_of path.now).names) before.now }
{
    before.iter().any(|b| b.path.as_path().same_names(path))
}

fn is_taken(fss: &[FsSpec], before: &[ObjSpec], path: &Path<'_>) -> bool
    ensures { result ≡ is_taken fss.now before.now (path_of path.now).names }
{
    is_mount(fss, path) || is_made(before, path)
}

fn is_made_dir(before: &[ObjSpec], path: &Path<'_>) -> bool
    ensures { result ≡ list_any (λ b. b.dir && same_names b.path.names (path_of path.now).names) before.now }
{
    before
        .iter()
        .any(|b| b.dir && b.path.as_path().same_names(path))
}

fn has_directory(fss: &[FsSpec], before: &[ObjSpec], path: &Path<'_>) -> bool
    ensures { result ≡ has_directory fss.now before.now (path_of path.now).names }
{
    path.len() == 0 || is_mount(fss, path) || is_made_dir(before, path)
}

// ---- object lines

fn is_well_formed(object: &ObjSpec) -> bool
    ensures { result ≡ is_well_formed object.now }
{
    object.path.as_path().absolute()
        && object.path.as_path().len() >= 1
        && object.bytes.len() <= FILE_MAX
        && (!object.dir
            || (object.cap.is_empty() && object.lic.is_empty() && object.bytes.len() == 0))
}

fn is_below_ceiling<L: Ledger>(fss: &[FsSpec], object: &ObjSpec, steps: &mut Steps<L>) -> bool
    requires { 0 < length fss.now }
    ensures { result ≡ leq object.now.label (fs_at fss.now (fs_of fss.now object.now.path.names)).ceiling }
{
    let k = fs_of(fss, &object.path.as_path());
    object.label.leq(&fss[k].ceiling, steps)
}

fn has_inode(fss: &[FsSpec], k: usize, before: &[ObjSpec]) -> bool
    requires { k < length fss.now }
    ensures { result ≡ nat_le (length (lying_on fss.now k before.now) + 2) (fs_at fss.now k).inodes }
{
    count_on(fss, k, before) + 2 <= fss[k].inodes as usize
}

/// How many of the lines lie on a file system.
fn count_on(fss: &[FsSpec], k: usize, lines: &[ObjSpec]) -> usize
    ensures count { result ≡ length (lying_on fss.now k lines.now) }
    ensures few { result ≤ length lines.now }
{
    lines
        .iter()
        .filter(|b| fs_of(fss, &b.path.as_path()) == k)
        .count()
}

fn has_blocks(fss: &[FsSpec], k: usize, before: &[ObjSpec], object: &ObjSpec) -> bool
    requires { k < length fss.now }
    ensures { result ≡ nat_le (blocks_taken fss.now k before.now + blocks_for (length object.now.bytes))
        (fs_at fss.now k).blocks }
{
    let mut left = fss[k].blocks as usize;
    for b in before {
        if fs_of(fss, &b.path.as_path()) == k {
            let needed = blocks_for(b.bytes.len());
            if needed > left {
                return false;
            }
            left -= needed;
        }
    }
    blocks_for(object.bytes.len()) <= left
}

fn has_room(fss: &[FsSpec], limits: &Limits, before: &[ObjSpec], object: &ObjSpec) -> bool
    requires { 0 < length fss.now }
    ensures { result ≡ has_room fss.now limits.now before.now object.now }
{
    let k = fs_of(fss, &object.path.as_path());
    fss.len() + before.len() <= limits.names as usize
        && has_inode(fss, k, before)
        && has_blocks(fss, k, before, object)
}

#[tactic(auto, unfolding(crate::specs::opening::Valid::object_fits))]
fn object_fits<L: Ledger>(
    fss: &[FsSpec],
    limits: &Limits,
    before: &[ObjSpec],
    object: &ObjSpec,
    steps: &mut Steps<L>,
) -> bool
    requires { 0 < length fss.now }
    ensures { result ≡ object_fits fss.now limits.now before.now object.now }
{
    is_well_formed(object)
        && is_below_ceiling(fss, object, steps)
        && !is_taken(fss, before, &object.path.as_path())
        && has_directory(fss, before, &object.path.as_path().parent())
        && has_room(fss, limits, before, object)
}

/// Whether each line fits after those before it.
fn objects_fit<L: Ledger>(
    fss: &[FsSpec],
    limits: &Limits,
    objects: &[ObjSpec],
    steps: &mut Steps<L>,
) -> bool
    requires { 0 < length fss.now }
    ensures { result ≡ objects_fit fss.now limits.now [] objects.now }
{
    for (i, object) in objects.iter().enumerate() {
        if !object_fits(fss, limits, &objects[..i], object, steps) {
            return false;
        }
    }
    true
}
