ghost use Rattle.std.specs.Prelude.{◌≡◌, ◌+◌, ◌-◌, ◌<◌, ◌≤◌, [], length, map, suc, IfOk, IsTrue, Some, true, false, is_some, unwrap_or, slice_index_or};
ghost use Rattle.std.specs.Prelude.{slice_set};
ghost use Rattle.std.specs.Option.{option_map_or};
ghost use Rattle.ix_label.specs.Category.{leq};
ghost use Rattle.ix_model.specs.{world.World.{at, change, ceiling_of, is_dir, is_file, is_pipe}, world.Numbers.{first_pipe}, world.Contents.{holds_nothing}};
ghost use Rattle.ix_model.specs.{world.NameRefs.{name_of}, world.Paths.{path_of}, rows.Walks.{node, child}};
ghost use Rattle.ix_model.specs.opening.{Opening.{bare_world, opening_world, directory_of}, Valid.{all_differ, is_valid}};
ghost use Rattle.ix_inode.specs.Nodes.{are_within};
ghost use Rattle.ix_tables.specs.{Parts.{parts_of}, Views.{has_room}};
ghost use Rattle.ix_tables.specs.Opening.{roots_named, homes_at_first, opening_after, Leads, kind_said, as_said, with_line, HasPlace};

use crate::names::enter;
use crate::tables::Tables;
use ix_inode::Inodes;
use ix_model::{Config, Contents, FsSpec, Kind, NameRef, NoMemory, ObjSpec, Path};
use ix_name::Names;
use ix_open::Opens;
use ix_pipe::Pipes;
use std::alloc::Global;

/// The tables that a config describes.
impl Tables {
    /// All tables as a config describes them, with its processes at home in the root. It takes all memory that there
    /// will be, and answers `NoMemory` where there is not so much.
    pub fn new(alloc: Global, config: &Config) -> Result<Tables, NoMemory>
        requires { IsTrue (is_valid config.now) }
        ensures { IfOk result (λ t. t ≡ parts_of (opening_world config.now)) }
    {
        let mut tables = Tables::bare(alloc, config)?;
        for i in 0..config.objects.len() {
            tables.add_line(config, i);
        }
        Ok(tables)
    }

    /// The roots, of which the first has the names of the others, and no pipe and no open entry.
    fn bare(alloc: Global, config: &Config) -> Result<Tables, NoMemory>
        requires { IsTrue (is_valid config.now) }
        ensures { IfOk result (λ t. t ≡ parts_of (bare_world config.now)) }
    {
        let fss = config.fss.as_slice();
        let limits = config.limits;
        let first_pipe = count_inodes(fss);
        let objects = first_pipe + limits.pipes;
        Ok(Tables {
            limits,
            inodes: Inodes::new(alloc, fss)?,
            names: name_roots(alloc, limits.names, first_pipe, fss)?,
            pipes: Pipes::new(alloc, limits.pipes)?,
            opens: Opens::new(alloc, limits.opens, objects)?,
            homes: homes_of(alloc, objects, config.procs.len() as u32)?,
            first_pipe,
        })
    }

    /// The object of an object line, by its place among the lines, after those of the lines before it.
    fn add_line(&mut self, config: &Config, i: usize)
        requires valid { IsTrue (is_valid config.now) }
        requires line { i < length config.now.objects }
        requires before { self.old ≡ parts_of (opening_after i config.now) }
        ensures { self.new ≡ parts_of (opening_after (i + 1) config.now) }
    {
        let Some(spec) = config.objects.get(i) else {
            unreachable!();
        };
        let dir = self.directory_of(&spec.path.as_path());
        let fs = self.fs_of(dir);
        match self.vacant_inode(fs) {
            Some(n) => self.place(spec, dir, fs, n),
            None => unreachable!(),
        }
    }

    /// The directory of a path: where all names but the last lead.
    fn directory_of(&self, path: &Path<'_>) -> u32
        requires { Leads self.now.objects 0 (path_of path.now).names }
        ensures { result ≡ directory_of self.now.objects 0 (path_of path.now).names }
    {
        let mut dir = 0;
        for i in 1..path.len() {
            let Some(name) = path.name(i - 1) else {
                unreachable!();
            };
            dir = self.step(dir, &name);
        }
        dir
    }

    /// The object that a directory has under a name, or else the directory.
    fn step(&self, dir: u32, name: &NameRef<'_>) -> u32
        requires { is_dir (node self.now.objects dir) ≡ true }
        ensures { result ≡ unwrap_or (child (node self.now.objects dir) (name_of name.now)) dir }
    {
        match self.child(dir, name) {
            Some(n) => n,
            None => dir,
        }
    }

    /// The file system of an object; 0 for what has none.
    fn fs_of(&self, n: u32) -> u32
        ensures { result ≡ unwrap_or (node self.now.objects n).fs 0 }
    {
        match self.object(n) {
            Some(x) => x.fs.unwrap_or(0),
            None => 0,
        }
    }

    /// The object of a line, under a number that is free and under the last name of its path.
    fn place(&mut self, spec: &ObjSpec, dir: u32, fs: u32, n: u32)
        requires { HasPlace spec.now dir fs n self.old }
        ensures { self.new ≡ with_line spec.now dir fs n self.old }
    {
        let Some(name) = spec.path.as_path().last_name() else {
            unreachable!();
        };
        self.make(dir, name.to_name(), n, fs, kind_said(spec));
        self.set_as_said(n, spec);
        if !spec.dir {
            self.fill(n, &spec.bytes);
        }
    }

    /// An object gets the label and the privileges that its line says, and is frozen or not.
    fn set_as_said(&mut self, n: u32, spec: &ObjSpec)
        requires lives { IsTrue (is_some (at self.old.objects n)) }
        requires inode { is_pipe (node self.old.objects n) ≡ false }
        requires below { IsTrue (leq spec.now.label (ceiling_of self.old.fss (node self.old.objects n))) }
        ensures { self.new ≡ record self.old { objects = change self.old.objects n (as_said spec.now) } }
    {
        self.set_label(n, spec.label);
        self.set_frozen(n, spec.frozen);
        self.set_privs(n, spec.cap, spec.lic);
    }

    /// The bytes of a file that holds nothing yet. There has to be room. A byte so many times is nowhere put together.
    fn fill(&mut self, n: u32, bytes: &Contents)
        requires file { option_map_or is_file (at self.old.objects n) false ≡ true }
        requires empty { slice_index_or self.old.holdings n holds_nothing ≡ holds_nothing }
        requires short { length bytes.now ≤ 1048576 }
        requires room { has_room n (length bytes.now) self.old ≡ true }
        ensures { self.new ≡ record self.old { holdings = slice_set self.old.holdings n (record { first = bytes.now; second = [] }) } }
    {
        let (said, times, byte) = bytes.parts();
        self.write(n, 0, said);
        self.write_times(n, times, byte);
    }
}

/// What a line makes.
fn kind_said(spec: &ObjSpec) -> Kind
    ensures { result ≡ kind_said spec.now }
{
    if spec.dir { Kind::Dir } else { Kind::File }
}

/// How many inodes all file systems have together.
fn count_inodes(fss: &[FsSpec]) -> u32
    requires { IsTrue (are_within fss.now) }
    ensures inodes { result ≡ first_pipe fss.now }
    ensures few { result ≤ 1048576 }
{
    let mut inodes = 0;
    for spec in fss {
        inodes += spec.inodes;
    }
    inodes
}

/// The names of the further file systems, in the first root.
fn name_roots(alloc: Global, entries: u32, inodes: u32, fss: &[FsSpec]) -> Result<Names, NoMemory>
    requires within { IsTrue (are_within fss.now) }
    requires differ { IsTrue (all_differ (map (λ s. s.name) fss.now)) }
    requires some { 0 < length fss.now }
    requires entries { length fss.now ≤ entries }
    requires inodes { 0 < inodes }
    ensures { IfOk result (λ n. n ≡ roots_named entries inodes fss.now) }
{
    let mut names = Names::new(alloc, entries, inodes)?;
    let mut root = fss[0].inodes;
    for spec in &fss[1..] {
        enter(&mut names, 0, spec.name, root);
        root += spec.inodes;
    }
    Ok(names)
}

/// The processes at home at each object: all at the first.
fn homes_of(alloc: Global, objects: u32, processes: u32) -> Result<Vec<u32>, NoMemory>
    requires { 0 < objects }
    ensures { IfOk result (λ v. v.items ≡ homes_at_first objects processes) }
{
    let mut homes = Vec::new(alloc);
    if homes.resize(objects as usize, 0).is_err() {
        return Err(NoMemory);
    }
    homes[0] = processes;
    Ok(homes)
}
