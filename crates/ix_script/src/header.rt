ghost use Rattle.std.specs.Prelude.{◌≡◌, ℕ, ◌<◌, ◌+◌, ◌^◌, slice_index, ◌==◌, if◌then◌else◌, ◌++◌, ◌∷◌, ◌≤◌, [], true, None, List, length, false, OnOk, IfOk};
ghost use Rattle.ix_script.specs.{declared.line.Line.{Line}, lines.Before.{form_by, fs_told, default_fs, limits_after, object_told, group}};
ghost use Rattle.{std.specs.Option.{option_map_or}, ix_model.specs.opening.Valid.{is_valid}, ix_text.specs.Bytes.{is_empty}, ix_script.specs.{lines.Faults.{said_fault}, reader.Told.{HeaderTold, Takes, fss_after}, scripts.Scripts.{config_of}}};

use crate::index::{Names, Tree};
use crate::line::{Line, What};
use ix_label::{Form, Label};
use ix_model::{FsSpec, Limits, List, Name, NoMemory, blocks_for, fs_of};
use ix_text::is;
use std::alloc::Global;

/// How many objects the file systems have beside their roots, and how many blocks these use.
#[derive(Clone, Copy)]
pub(crate) struct Taken {
    pub counts: [usize; 16],
    pub blocks: [usize; 16],
}

impl Taken {
    /// One object of so many blocks more on a file system.
    pub fn add(&mut self, k: usize, blocks: usize)
        requires { k < 16 }
        ensures counts { slice_index self.old.counts k + 1 < 2 ^ 64 → (j : ℕ) → slice_index self.new.counts j ≡ (if j == k then slice_index self.old.counts k + 1 else slice_index self.old.counts j) }
        ensures blocks { slice_index self.old.blocks k + blocks < 2 ^ 64 → (j : ℕ) → slice_index self.new.blocks j ≡ (if j == k then slice_index self.old.blocks k + blocks else slice_index self.old.blocks j) }
    {
        self.counts[k] = self.counts[k].saturating_add(1);
        self.blocks[k] = self.blocks[k].saturating_add(blocks);
    }
}

/// What the lines so far tell of the machine.
#[derive(Drop)]
pub(crate) struct Header<'a> {
    /// How many lines told a file system.
    pub told: usize,
    /// These, or the one that is there where none is told.
    pub fss: List<FsSpec>,
    pub limits: Limits,
    pub whats: List<What>,
    /// The names of processes.
    pub procs: Names<'a>,
    pub made: Tree<'a>,
    pub taken: Taken,
    /// The last of the groups of lines so far.
    pub latest: u8,
    pub policy: bool,
}

/// The group of a line, by which the header is ordered.
fn group(line: &Line<'_>) -> u8
    ensures { result ≡ group line.now }
{
    match line {
        Line::Skipped => 0,
        Line::Version { .. } => 1,
        Line::Limit { .. } => 2,
        Line::Fs { .. } => 3,
        Line::Proc { .. } | Line::Dir { .. } | Line::File { .. } | Line::Policy { .. } => 4,
        _ => 5,
    }
}

pub(crate) fn limits_after(limits: &Limits, line: &Line<'_>) -> Limits
    ensures { result ≡ limits_after limits.now line.now }
{
    let Line::Limit { what, number } = line else {
        return *limits;
    };
    let mut limits = *limits;
    match what {
        What::Procs => limits.procs = *number,
        What::Opens => limits.opens = *number,
        What::Pipes => limits.pipes = *number,
        What::Names => limits.names = *number,
        What::Log => limits.log = *number,
    }
    limits
}

/// The form that a line tells, if it is `ix 1` or `ix 2`.
pub(crate) fn form_by(line: &Line<'_>) -> Form
    ensures { result ≡ form_by line.now }
{
    match line {
        Line::Version { form } => *form,
        _ => Form::One,
    }
}

/// The file system of a script that tells none, in the script's form.
#[tactic(auto, unfolding(crate::specs::lines::Before::default_fs))]
pub(crate) fn default_fs(form: Form) -> FsSpec
    ensures { result ≡ default_fs form }
{
    FsSpec {
        name: Name::read(b"root").unwrap(),
        ceiling: Label::all_of(form),
        blocks: 4096,
        inodes: 256,
    }
}

/// The limits of a script that tells none.
pub(crate) const DEFAULT_LIMITS: Limits = Limits {
    procs: 64,
    opens: 256,
    pipes: 32,
    names: 4096,
    log: 1024,
};

pub(crate) fn fs_spec(line: &Line<'_>) -> Option<FsSpec>
    ensures { fs_told line.now ≡ option_map_or (λ fs. fs ∷ []) result [] }
{
    match line {
        Line::Fs {
            name,
            ceiling,
            blocks,
            inodes,
        } => Some(FsSpec {
            name: name.name(),
            ceiling: ceiling.label(),
            blocks: *blocks,
            inodes: *inodes,
        }),
        _ => None,
    }
}

/// The file system that a line tells more; or, where the first line tells none, the one that is there then.
fn add_fs(
    alloc: Global,
    first: bool,
    told: usize,
    fss: &mut List<FsSpec>,
    line: &Line<'_>,
) -> Result<(), NoMemory>
    ensures { OnOk result (fss.new ≡ fss_after first told fss.old (form_by line.now) (fs_told line.now)) }
{
    let (told, fs) = match fs_spec(line) {
        Some(fs) => (told, fs),
        None if first => (0, default_fs(form_by(line))),
        None => return Ok(()),
    };
    if told == 0 {
        *fss = List::new(alloc);
    }
    fss.push(fs)
}

fn take(taken: &mut Taken, fss: &[FsSpec], line: &Line<'_>)
    requires some { 0 < length fss.now }
    requires few { length fss.now ≤ 16 }
    ensures { Takes fss.now (object_told line.now) taken.old taken.new }
{
    match line {
        Line::Dir { path, .. } => taken.add(fs_of(fss, &path.path()), blocks_for(0)),
        Line::File { path, bytes, .. } => {
            taken.add(fs_of(fss, &path.path()), blocks_for(bytes.len()));
        }
        _ => {}
    }
}

impl<'a> Header<'a> {
    /// The header of a script of which no line was read yet: one file system is there. `NoMemory` where there was none for it.
    #[tactic(auto, unfolding(crate::specs::lines::Before::fss_told, crate::specs::lines::Before::limits_of, crate::specs::lines::Before::default_limits, crate::specs::lines::Before::whats_told, crate::specs::lines::Before::proc_names, crate::specs::lines::Before::objects_of, crate::specs::lines::Before::has_policy))]
    pub fn new(alloc: Global) -> Result<Header<'a>, NoMemory>
        ensures { IfOk result (λ h. HeaderTold h []) }
    {
        let mut fss = List::new(alloc);
        fss.push(default_fs(Form::One))?;
        Ok(Header {
            told: 0,
            fss,
            limits: DEFAULT_LIMITS,
            whats: List::new(alloc),
            procs: Names::new(alloc),
            made: Tree::new(alloc),
            taken: Taken {
                counts: [0; 16],
                blocks: [0; 16],
            },
            latest: 0,
            policy: false,
        })
    }

    /// One line more, which may be the first. After an error the header isn't used.
    pub fn add(&mut self, alloc: Global, first: bool, line: &Line<'a>) -> Result<(), NoMemory>
        requires told { self.old.told ≤ 16 }
        requires some { 0 < length self.old.fss }
        requires few { length self.old.fss ≤ 16 }
        requires objects { self.old.made.count + 1 < 2 ^ 64 }
        requires procs { self.old.procs.count + 1 < 2 ^ 64 }
        ensures { OnOk result ((lines : List Line) → first ≡ is_empty lines → HeaderTold self.old lines → is_valid (config_of lines) ≡ true → said_fault lines line.now ≡ None → HeaderTold self.new (lines ++ line.now ∷ [])) }
    {
        take(&mut self.taken, self.fss.as_slice(), line);
        add_fs(alloc, first, self.told, &mut self.fss, line)?;
        self.limits = limits_after(&self.limits, line);
        self.latest = self.latest.max(group(line));
        match line {
            Line::Limit { what, .. } => self.whats.push(*what)?,
            Line::Fs { .. } => self.told += 1,
            Line::Proc { name, .. } => self.procs.push(name)?,
            Line::Dir { path, .. } => self.made.push(&path.path(), true)?,
            Line::File { path, .. } => self.made.push(&path.path(), false)?,
            Line::Policy { .. } => self.policy = true,
            _ => {}
        }
        Ok(())
    }
}
