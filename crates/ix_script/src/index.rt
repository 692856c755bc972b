ghost use Rattle.std.{specs.List.{list_any}, specs.Prelude.{◌≡◌, true, IsTrue, ◌++◌, ◌∷◌, [], List, ℕ, OnOk, ◌+◌, ◌<◌, ◌^◌}, proofs.Common.{option_map}};
ghost use Rattle.ix_script.specs.{lines.Before.{in_lane, is_given, listed, is_known}, reader.Indexed.{AreIndexed, AreNames, AreSites, is_named, dir_there, file_there, is_there}};
ghost use Rattle.{ix_text.specs.Names.{is_script_name}, ix_model.specs.{declared.config.ObjSpec.{ObjSpec}, world.Paths.{path_of}, world.Texts.{names_in}}};

use crate::values::NameWord;
use ix_model::{NoMemory, Path};
use ix_text::is;
use std::alloc::Global;
use std::collections::BTreeSet;

/// A name of a script, or the text of the names of a path, in the order of its bytes.
#[derive(Clone, Copy, PartialEq, Eq, PartialOrd, Ord)]
pub(crate) struct ByBytes<'a> {
    pub name: &'a [u8],
}

/// A name in its lane. Names come first in the order, since most are of one lane.
#[derive(Clone, Copy, PartialEq, Eq, PartialOrd, Ord)]
pub(crate) struct Place<'a> {
    name: ByBytes<'a>,
    lane: ByBytes<'a>,
}

/// Names that lines give, each with the lane of its line. The first few are looked through, the others stand in an index.
#[derive(Drop)]
pub(crate) struct Given<'a> {
    near: Vec<Place<'a>>,
    index: BTreeSet<Place<'a>>,
}

fn is_near(lane: &[u8], word: &[u8], near: &[Place<'_>]) -> bool
    ensures { result ≡ list_any (is_named lane.now word.now) near.now }
{
    near.iter()
        .any(|p| is(word, p.name.name) && is(lane, p.lane.name))
}

fn place_of<'a>(lane: &'a [u8], name: &'a [u8]) -> Place<'a>
    ensures lane { result.lane.name.now ≡ lane.now }
    ensures name { result.name.name.now ≡ name.now }
{
    Place {
        name: ByBytes { name },
        lane: ByBytes { name: lane },
    }
}

impl<'a> Given<'a> {
    pub fn new(alloc: Global) -> Given<'a>
        ensures { AreIndexed result [] }
    {
        Given {
            near: Vec::new(alloc),
            index: BTreeSet::new(alloc),
        }
    }

    #[inline(always)]
    pub fn has(&self, lane: Option<&'a [u8]>, word: &'a [u8]) -> bool
        ensures { (items : List (List ℕ × List ℕ)) → AreIndexed self.now items → result ≡ is_given (option_map (λ s. s.now) lane.entry) word.now items }
    {
        let Some(lane) = lane else {
            return false;
        };
        is_near(lane, word, self.near.as_slice()) || self.index.contains(&place_of(lane, word))
    }

    /// Whether it is one of those that are looked through.
    pub fn has_near(&self, lane: Option<&'a [u8]>, word: &'a [u8]) -> bool
        ensures given { (items : List (List ℕ × List ℕ)) → AreIndexed self.now items → IsTrue result → is_given (option_map (λ s. s.now) lane.entry) word.now items ≡ true }
        ensures name { (items : List (List ℕ × List ℕ)) → AreIndexed self.now items → IsTrue result → is_script_name word.now ≡ true }
    {
        match lane {
            Some(lane) => is_near(lane, word, self.near.as_slice()),
            None => false,
        }
    }

    /// The name more, if there is one and a lane is open. After an error the names aren't used.
    pub fn add(
        &mut self,
        lane: Option<&'a [u8]>,
        named: Option<&NameWord<'a>>,
    ) -> Result<(), NoMemory>
        ensures { OnOk result ((items : List (List ℕ × List ℕ)) → AreIndexed self.old items → AreIndexed self.new (items ++ in_lane (option_map (λ s. s.now) lane.entry) (listed (option_map (λ n. n.now) named.entry)))) }
    {
        let (Some(lane), Some(name)) = (lane, named) else {
            return Ok(());
        };
        let place = place_of(lane, name.as_bytes());
        if self.near.len() < 4 {
            self.near.push(place)?;
            return Ok(());
        }
        self.index.insert(place)?;
        Ok(())
    }
}

/// Names that lines tell: an index of the list of them, as if they were given in a lane without a name, and how many they are.
#[derive(Drop)]
pub(crate) struct Names<'a> {
    given: Given<'a>,
    pub count: usize,
}

impl<'a> Names<'a> {
    pub fn new(alloc: Global) -> Names<'a>
        ensures names { AreNames result [] }
        ensures none { result.count ≡ 0 }
    {
        Names {
            given: Given::new(alloc),
            count: 0,
        }
    }

    pub fn has(&self, word: &'a [u8]) -> bool
        ensures { (names : List (List ℕ)) → AreNames self.now names → result ≡ is_known word.now names }
    {
        self.given.has(Some(&[]), word)
    }

    /// Whether it is one of those that are looked through.
    pub fn has_near(&self, word: &'a [u8]) -> bool
        ensures known { (names : List (List ℕ)) → AreNames self.now names → IsTrue result → is_known word.now names ≡ true }
        ensures name { (names : List (List ℕ)) → AreNames self.now names → IsTrue result → is_script_name word.now ≡ true }
    {
        self.given.has_near(Some(&[]), word)
    }

    /// One name more. After an error the names aren't used.
    pub fn push(&mut self, name: &NameWord<'a>) -> Result<(), NoMemory>
        requires { self.old.count + 1 < 2 ^ 64 }
        ensures names { OnOk result ((names : List (List ℕ)) → AreNames self.old names → AreNames self.new (names ++ name.now ∷ [])) }
        ensures count { OnOk result (self.new.count ≡ self.old.count + 1) }
    {
        self.given.add(Some(&[]), Some(name))?;
        self.count += 1;
        Ok(())
    }
}

/// The text of the names under which something was made, and whether it is a directory. Other names have another text.
#[derive(Clone, Copy, PartialEq, Eq, PartialOrd, Ord)]
pub(crate) struct Site<'a> {
    names: ByBytes<'a>,
    dir: bool,
}

fn site_of<'a>(path: &Path<'a>, dir: bool) -> Site<'a>
    ensures names { names_in result.names.name.now ≡ (path_of path.now).names }
    ensures dir { result.dir ≡ dir }
{
    Site {
        names: ByBytes { name: path.text() },
        dir,
    }
}

/// The directories and files that lines tell: an index of the list of them, and how many they are.
#[derive(Drop)]
pub(crate) struct Tree<'a> {
    pub index: BTreeSet<Site<'a>>,
    pub count: usize,
}

impl<'a> Tree<'a> {
    pub fn new(alloc: Global) -> Tree<'a>
        ensures sites { AreSites result.index [] }
        ensures none { result.count ≡ 0 }
    {
        Tree {
            index: BTreeSet::new(alloc),
            count: 0,
        }
    }

    pub fn has_dir(&self, path: &Path<'a>) -> bool
        ensures { (objects : List ObjSpec) → AreSites self.now.index objects → result ≡ dir_there objects (path_of path.now).names }
    {
        self.index.contains(&site_of(path, true))
    }

    pub fn has(&self, path: &Path<'a>) -> bool
        ensures { (objects : List ObjSpec) → AreSites self.now.index objects → result ≡ is_there objects (path_of path.now).names }
    {
        self.has_dir(path) || self.index.contains(&site_of(path, false))
    }

    /// One more. After an error the tree isn't used.
    pub fn push(&mut self, path: &Path<'a>, dir: bool) -> Result<(), NoMemory>
        requires { self.old.count + 1 < 2 ^ 64 }
        ensures sites { OnOk result ((objects : List ObjSpec) (o : ObjSpec) → o.path.names ≡ (path_of path.now).names → o.dir ≡ dir → AreSites self.old.index objects → AreSites self.new.index (objects ++ o ∷ [])) }
        ensures count { OnOk result (self.new.count ≡ self.old.count + 1) }
    {
        self.index.insert(site_of(path, dir))?;
        self.count += 1;
        Ok(())
    }
}
