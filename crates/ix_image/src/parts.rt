//! The parts of an image of a core's tree: each writes a piece, and gives what comes next.
ghost use Rattle.std.specs.Prelude.{◌≡◌, ◌<◌, ◌≤◌, List, Some, false, length, IfOk, OnOk};
ghost use Rattle.ix_model.specs.{history.History.{world_of}, laws.Sound.{Sound}, world.World.{Object, at, is_dir, is_pipe}, declared.config.FsSpec.{FsSpec}};
ghost use Rattle.ix_image.specs.declared.part.Part.TheVariants as part;
ghost use Rattle.ix_image.specs.Taken.{held_in, the_five};
ghost use Rattle.ix_image.specs.Saving.{AreNamed, Begins, HasHead, HasNext, IsFile, IsFirst, WritesOn, count_held, is_dir_kind, kept_from, kept_view};

use crate::marks::Marks;
use crate::named::kept;
use crate::part::Part;
use crate::writing::{push_file_system, push_four, push_label, push_link, push_marks, push_start};
use bitflags::Flags;
use ix_core::Core;
use ix_model::{FsSpec, Kind, Name, NoMemory, Obj, ObjView, PrivSet};
use ix_report::Line;
use ix_text::set_of_bits;
use std::alloc::Global;

/// How many bytes of a file are written at once.
const PIECE: usize = 65_536;

/// Where so few are left, no more room is cleared for them.
const FEW: usize = 512;

/// The first bytes, and how many file systems there are.
pub fn write_start(line: &mut Line, fss: &[FsSpec], core: &Core) -> Result<Part, NoMemory>
    requires { length fss.now ≤ 16 }
    ensures stays { line.new.before ≡ line.old.before }
    ensures text { IfOk result (λ next. WritesOn fss.now (world_of core.now) part.Start next line.old.text line.new.text) }
{
    push_start(line, fss.len() as u32)?;
    Ok(Part::FileSystem(0))
}

/// The file system at an index, or how many objects there are behind the last.
pub fn write_file_system(
    line: &mut Line,
    fss: &[FsSpec],
    core: &Core,
    count: u32,
    k: usize,
) -> Result<Part, NoMemory>
    requires { count ≡ length (kept_from (world_of core.now) 0) }
    ensures stays { line.new.before ≡ line.old.before }
    ensures text { IfOk result (λ next. WritesOn fss.now (world_of core.now) (part.FileSystem k) next line.old.text line.new.text) }
{
    let Some(fs) = fss.get(k) else {
        push_four(line, count)?;
        return Ok(Part::Object(0));
    };
    push_file_system(line, fs)?;
    Ok(Part::FileSystem(k + 1))
}

/// The object of a number, or nothing where it isn't in the tree, and nothing behind the last.
pub fn write_object(line: &mut Line, core: &Core, named: &[bool], n: u32) -> Result<Part, NoMemory>
    requires sound { Sound (world_of core.now) }
    requires named { AreNamed (world_of core.now) named.now }
    ensures stays { line.new.before ≡ line.old.before }
    ensures text { IfOk result (λ next. (fss : List FsSpec) → WritesOn fss (world_of core.now) (part.Object n) next line.old.text line.new.text) }
{
    if n >= core.objects() {
        return Ok(Part::End);
    }
    let Some(view) = kept(core, named, n) else {
        return Ok(Part::Object(n + 1));
    };
    push_head(line, core, n, &view)?;
    Ok(begin(core, n, &view))
}

/// The bytes of a file from a place on, or nothing behind the last. What they come through is on the heap where it is large, since a
/// stack that grows late finds no memory to grow into.
pub fn write_bytes(
    alloc: Global,
    line: &mut Line,
    core: &Core,
    n: u32,
    place: u64,
) -> Result<Part, NoMemory>
    requires sound { Sound (world_of core.now) }
    requires file { IsFile (world_of core.now) n }
    ensures stays { line.new.before ≡ line.old.before }
    ensures text { IfOk result (λ next. (fss : List FsSpec) → WritesOn fss (world_of core.now) (part.Bytes n place) next line.old.text line.new.text) }
{
    let left = core.size(Obj(n), 0).unwrap_or(0).saturating_sub(place);
    if left <= FEW as u64 {
        return write_piece(line, core, n, place, &mut [0; FEW]);
    }
    let mut piece = vec![in alloc; 0; PIECE]?;
    write_piece(line, core, n, place, piece.as_mut_slice())
}

/// The same by way of a piece of memory, which holds one byte at least.
fn write_piece(
    line: &mut Line,
    core: &Core,
    n: u32,
    place: u64,
    piece: &mut [u8],
) -> Result<Part, NoMemory>
    requires sound { Sound (world_of core.now) }
    requires file { IsFile (world_of core.now) n }
    requires some { 0 < length piece.old }
    ensures stays { line.new.before ≡ line.old.before }
    ensures text { IfOk result (λ next. (fss : List FsSpec) → WritesOn fss (world_of core.now) (part.Bytes n place) next line.old.text line.new.text) }
{
    let count = core.inside(Obj(n), place, piece);
    if count == 0 {
        return Ok(Part::Object(n + 1));
    }
    line.push(&piece[..count])?;
    Ok(Part::Bytes(n, place + count as u64))
}

/// The first of the names of a directory that are left, of which there are so many, with its object.
pub fn write_name(
    line: &mut Line,
    core: &Core,
    n: u32,
    left: u32,
    name: &Name,
    object: Obj,
) -> Result<Part, NoMemory>
    requires { IsFirst (world_of core.now) n left (name.now, object.0) }
    ensures stays { line.new.before ≡ line.old.before }
    ensures text { IfOk result (λ next. (fss : List FsSpec) → WritesOn fss (world_of core.now) (part.Name n left name.now object) next line.old.text line.new.text) }
{
    push_link(line, name.as_bytes(), object.0)?;
    match core.named_after(Obj(n), &name.as_ref()) {
        Some((name, object)) => Ok(Part::Name(n, left - 1, name, object)),
        None => Ok(Part::Object(n + 1)),
    }
}

/// The five privileges of a set: it has no others.
fn the_five(set: PrivSet) -> PrivSet
    ensures { result ≡ the_five set }
{
    set_of_bits(set.bits())
}

/// Whether it is that of a directory.
fn is_dir(kind: Kind) -> bool
    ensures { result ≡ is_dir_kind kind }
{
    match kind {
        Kind::Dir => true,
        Kind::File => false,
        Kind::Pipe => false,
    }
}

/// What stands before what an object holds, and how much that is.
fn push_head(line: &mut Line, core: &Core, n: u32, view: &ObjView) -> Result<(), NoMemory>
    requires sound { Sound (world_of core.now) }
    requires kept { kept_view (world_of core.now) n ≡ Some view.now }
    ensures stays { line.new.before ≡ line.old.before }
    ensures text { OnOk result (HasHead (world_of core.now) n line.old.text line.new.text) }
{
    let (cap, lic) = sets(core, n);
    let marks = Marks {
        is_dir: is_dir(view.kind),
        frozen: view.frozen,
        cap: the_five(cap),
        lic: the_five(lic),
    };
    push_four(line, n)?;
    push_marks(line, &marks)?;
    push_label(line, &view.label)?;
    push_four(line, count_held(core, n, is_dir(view.kind)))
}

/// The capabilities and the licences of an object that is there.
fn sets(core: &Core, n: u32) -> (PrivSet, PrivSet)
    ensures { (x : Object) → at (world_of core.now).frame.objects n ≡ Some x → result ≡ (x.cap, x.lic) }
{
    let none = PrivSet::empty();
    core.privs(Obj(n)).unwrap_or((none, none))
}

/// How many names a directory has, or how many bytes a file.
fn count_held(core: &Core, n: u32, of_dir: bool) -> u32
    requires { Sound (world_of core.now) }
    ensures { (x : Object) → at (world_of core.now).frame.objects n ≡ Some x → is_pipe x ≡ false → is_dir x ≡ of_dir
        → result ≡ count_held (held_in (world_of core.now) n x) }
{
    if of_dir {
        core.names(Obj(n)).unwrap_or(0)
    } else {
        core.size(Obj(n), 0).unwrap_or(0) as u32
    }
}

/// What is written behind the head of an object.
fn begin(core: &Core, n: u32, view: &ObjView) -> Part
    requires kept { kept_view (world_of core.now) n ≡ Some view.now }
    requires next { HasNext n }
    ensures { (x : Object) → at (world_of core.now).frame.objects n ≡ Some x → Begins (world_of core.now) n x result }
{
    if !is_dir(view.kind) {
        return Part::Bytes(n, 0);
    }
    let count = core.names(Obj(n)).unwrap_or(0);
    match core.named(Obj(n), 0) {
        Some((name, object)) => Part::Name(n, count, name, object),
        None => Part::Object(n + 1),
    }
}
