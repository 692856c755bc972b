ghost use Rattle.std.{specs.Prelude.{◌≡◌, ◌<◌, length, nat_lt, slice_get, [], None, IfOk, replicate, if◌then◌else◌}, proofs.Common.{option_map}};
ghost use Rattle.ix_name.specs.Directories.{names_of, under, with_more, removed, AreDifferent};
ghost use Rattle.ix_model.specs.world.{Directories.{IsBehind}, NameRefs.{name_of}};

use crate::buckets::bucket_of;
use crate::entry::{Entry, NoEntry};
use crate::walk::{index_at, index_of};
use ix_links::Links;
use ix_model::{Name, NameRef, NoMemory, Obj};
use std::alloc::Global;
use std::marker::Model;

/// The names of all directories, in one pool of entries.
///
/// A directory's entries are a chain, in order of making. All entries stand also in as many buckets as there are
/// entries, by directory and name, so that a name is found without a walk over its directory. The bucket of a name
/// depends on nothing but the directory, the name and the number of buckets: at most one entry stands in a bucket on the
/// average, but whoever chooses names for it can have them all in one.
///
/// All memory is taken by [`new`](Names::new). Contracts see for each directory the list of its names with their
/// objects, and how many entries are free.
#[derive(Drop)]
pub struct Names {
    /// At each index of both pools an entry, `None` where it is free.
    entries: Vec<Option<Entry>>,
    /// A chain for each directory.
    dirs: Links,
    /// A chain for each bucket. It gives out the same index as `dirs`, since both pools take and free alike.
    buckets: Links,
    /// How many names each directory has.
    counts: Vec<u32>,
    /// How many buckets there are, at least one.
    width: u32,
}

impl Model for Names {
    ghost use Rattle.ix_name.specs.{Directories.{Directories}, Indexed.{directories, AreIndexed}};

    ghost Value = { Directories };

    ghost view = { λ n. directories n.entries.items n.dirs };

    ghost invariant = { λ n. AreIndexed n.entries.items n.dirs n.buckets n.counts.items n.width };
}

impl Names {
    /// Room for so many names in all, in directories below `objects`, of which none has a name yet.
    ///
    /// It takes all memory that there will be, and refuses where there is not so much. It costs a step for each name and
    /// each object.
    pub fn new(alloc: Global, names: u32, objects: u32) -> Result<Names, NoMemory>
        ensures { IfOk result (λ n. n ≡ record { lists = replicate objects []; free = names }) }
    {
        let width = names.max(1);
        let dirs = Links::new(alloc, names, objects)?;
        let buckets = Links::new(alloc, names, width)?;
        let entries = vec![in alloc; None; names as usize]?;
        let counts = vec![in alloc; 0; objects as usize]?;
        Ok(Names {
            entries,
            dirs,
            buckets,
            counts,
            width,
        })
    }

    /// The object that a directory has under a name; `None` exactly where it has none.
    ///
    /// It costs a walk over the entries of one bucket, however many names the directory has.
    pub fn find(&self, dir: Obj, name: &NameRef<'_>) -> Option<Obj>
        ensures { option_map (λ o. o.0) result ≡ under (name_of name.now) (names_of self.now dir.0) }
    {
        let bucket = bucket_of(dir.0, name, self.width);
        let index = index_of(&self.buckets, bucket, &self.entries, dir.0, name)?;
        let entry = self.entries[index as usize]?;
        Some(entry.obj)
    }

    /// One name more for a directory, at the end; it asks that the directory is below `objects` and hasn't the name.
    /// `NoEntry`, with no change, exactly where no entry is free. Constant time.
    pub fn add(&mut self, dir: Obj, name: Name, obj: Obj) -> Result<(), NoEntry>
        requires dir { dir.0 < length self.old.lists }
        requires absent { under name (names_of self.old dir.0) ≡ None }
        ensures room { result ≡ (if nat_lt 0 self.old.free then Ok tt else Err (record {})) }
        ensures add { self.new ≡ (if nat_lt 0 self.old.free then with_more dir.0 name obj.0 self.old else self.old) }
    {
        self.dirs.is_pool();
        self.buckets.is_pool();
        let bucket = bucket_of(dir.0, &name.as_ref(), self.width);
        let Some(index) = self.dirs.push_back(dir.0) else {
            return Err(NoEntry);
        };
        self.buckets.push_back(bucket);
        self.entries[index as usize] = Some(Entry {
            dir: dir.0,
            name,
            obj,
        });
        self.counts[dir.0 as usize] += 1;
        Ok(())
    }

    /// Takes a name from a directory, and answers its object; those after it close up, and its entry is free. `None`,
    /// with no change, exactly where the directory hasn't the name. As dear as [`find`](Names::find).
    pub fn remove(&mut self, dir: Obj, name: &NameRef<'_>) -> Option<Obj>
        ensures found { option_map (λ o. o.0) result ≡ under (name_of name.now) (names_of self.old dir.0) }
        ensures left { self.new ≡ removed (under (name_of name.now) (names_of self.old dir.0)) dir.0 (name_of name.now) self.old }
    {
        self.dirs.is_pool();
        self.buckets.is_pool();
        let bucket = bucket_of(dir.0, name, self.width);
        let index = index_of(&self.buckets, bucket, &self.entries, dir.0, name)?;
        let entry = self.entries[index as usize]?;
        self.dirs.remove(dir.0, index);
        self.buckets.remove(bucket, index);
        self.entries[index as usize] = None;
        self.counts[dir.0 as usize] -= 1;
        Some(entry.obj)
    }

    /// The name at a place of a directory's order of making, from 0, with its object; `None` exactly past the last. The
    /// directory is below `objects`.
    ///
    /// It costs a walk from the directory's first name to the place: a removal closes up and so moves the places of all
    /// that follow, and no entry keeps its place.
    pub fn at(&self, dir: Obj, place: u32) -> Option<(Name, Obj)>
        requires { dir.0 < length self.now.lists }
        ensures { option_map (λ e. (e.0, e.1.0)) result ≡ slice_get (names_of self.now dir.0) place }
    {
        let index = index_at(&self.dirs, dir.0, place)?;
        let entry = self.entries[index as usize]?;
        Some((entry.name, entry.obj))
    }

    /// The name behind one that a directory has, in its order of making, with its object; `None` behind the last. As dear
    /// as [`find`](Names::find), wherever the name stands.
    pub fn after(&self, dir: Obj, name: &NameRef<'_>) -> Option<(Name, Obj)>
        ensures { IsBehind (names_of self.now dir.0) (name_of name.now) (option_map (λ e. (e.0, e.1.0)) result) }
    {
        self.dirs.is_pool();
        let bucket = bucket_of(dir.0, name, self.width);
        let index = index_of(&self.buckets, bucket, &self.entries, dir.0, name)?;
        let next = self.dirs.next(index)?;
        let entry = self.entries[next as usize]?;
        Some((entry.name, entry.obj))
    }

    /// How many names a directory below `objects` has. Constant time.
    pub fn count(&self, dir: Obj) -> u32
        requires { dir.0 < length self.now.lists }
        ensures { result ≡ length (names_of self.now dir.0) }
    {
        self.counts[dir.0 as usize]
    }

    /// How many entries are free. Constant time.
    pub fn free(&self) -> u32
        ensures { result ≡ self.now.free }
    {
        self.dirs.free()
    }

    /// Does nothing: its contract is the law that no name stands twice in a directory.
    pub fn lemma_names_differ(&self, dir: Obj)
        ensures { AreDifferent (names_of self.now dir.0) }
    {
        self.dirs.is_pool();
    }
}
