//! Which objects of a core have a name, and which are in its tree.
ghost use Rattle.std.specs.Prelude.{◌≡◌, ℕ, ◌<◌, ◌==◌, ◌&&◌, ◌||◌, not, length, IfOk, slice_index_or, false};
ghost use Rattle.ix_model.specs.{history.History.{world_of}, laws.Sound.{Sound}, world.{World.{at}, Owners.{times_in}}};
ghost use Rattle.ix_image.specs.Saving.{AreNamed, is_dir_kind, is_file_kind, kept_from, kept_view};

use ix_core::Core;
use ix_model::{Kind, NoMemory, Obj, ObjView};
use std::alloc::Global;

/// Which objects have a name, by their numbers.
pub fn named_objects(alloc: Global, core: &Core) -> Result<Vec<bool>, NoMemory>
    requires { Sound (world_of core.now) }
    ensures { IfOk result (λ named. AreNamed (world_of core.now) named.items) }
{
    let mut named = vec![in alloc; false; core.objects() as usize]?;
    for n in 0..core.objects() {
        mark_names(core, Obj(n), &mut named);
    }
    Ok(named)
}

/// Marks what stands at an index, if anything does.
fn mark(named: &mut [bool], i: usize)
    ensures { (o : ℕ) → o < length named.old → slice_index_or named.new o false ≡ (o == i || slice_index_or named.old o false) }
{
    if i < named.len() {
        named[i] = true;
    }
}

/// Marks the objects that a directory names; what is no directory has no names.
fn mark_names(core: &Core, dir: Obj, named: &mut [bool])
    requires { Sound (world_of core.now) }
    ensures { (o : ℕ) → o < length named.old → slice_index_or named.new o false
        ≡ (slice_index_or named.old o false || not (times_in o (at (world_of core.now).frame.objects dir.0) == 0)) }
{
    let Some(count) = core.names(dir) else {
        return;
    };
    let mut next = core.named(dir, 0);
    for _ in 0..count {
        let Some(entry) = next else {
            return;
        };
        mark(named, entry.1.0 as usize);
        next = core.named_after(dir, &entry.0.as_ref());
    }
}

/// Whether an object of a kind is in the tree: a directory, or a file that has a name.
fn is_kept(kind: Kind, is_named: bool) -> bool
    ensures { result ≡ (is_dir_kind kind || is_file_kind kind && is_named) }
{
    match kind {
        Kind::Dir => true,
        Kind::File => is_named,
        Kind::Pipe => false,
    }
}

/// What is to be seen of the object of a number, where it is in the tree.
pub fn kept(core: &Core, named: &[bool], n: u32) -> Option<ObjView>
    requires { AreNamed (world_of core.now) named.now }
    ensures { result ≡ kept_view (world_of core.now) n }
{
    let view = core.object(n)?;
    if is_kept(view.kind, named[n as usize]) {
        Some(view)
    } else {
        None
    }
}

/// How many objects are in the tree.
pub fn count_kept(core: &Core, named: &[bool]) -> u32
    requires { AreNamed (world_of core.now) named.now }
    ensures { result ≡ length (kept_from (world_of core.now) 0) }
{
    let mut count = 0;
    for n in 0..core.objects() {
        if kept(core, named, n).is_some() {
            count += 1;
        }
    }
    count
}
