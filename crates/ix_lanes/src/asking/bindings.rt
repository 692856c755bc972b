ghost use Rattle.std.specs.{List.{position}, Prelude.{◌≡◌, OnOk, OnErr, true}};
ghost use Rattle.std.specs.FinMap as map;
ghost use Rattle.ix_model.specs.world.Naming.{same_bytes};
ghost use Rattle.ix_lanes.specs.asking.Pairs.{beyond};

use ix_model::NoMemory;
use ix_script::NameWord;
use ix_text::is;
use std::alloc::Global;
use std::collections::BTreeMap;
use std::marker::Model;

/// How many names are looked through before the tree of the others.
const NEAR: usize = 4;

/// Names, each with the number that it stands for, or with something else. Contracts see a finite map from the bytes of a name.
#[derive(Drop)]
pub struct Bindings<N> {
    alloc: Global,
    /// The first few names: most lanes have no others.
    near: Vec<(Vec<u8>, N)>,
    numbers: BTreeMap<Vec<u8>, N>,
}

/// At which of these places a name stands.
fn place_of<N>(near: &[(Vec<u8>, N)], name: &[u8]) -> Option<usize>
    ensures { result ≡ position (λ e. same_bytes e.0.items name.now) near.now }
{
    near.iter().position(|n| is(n.0.as_slice(), name))
}

/// What a name beyond the first few stands for.
#[inline(always)]
fn beyond<N: Copy>(numbers: &BTreeMap<Vec<u8>, N>, name: &[u8]) -> Option<N>
    ensures { result ≡ beyond name.now numbers.now }
{
    if numbers.is_empty() {
        return None;
    }
    in_tree(numbers, name)
}

/// What a name stands for in the tree. It is apart, since most lanes have none there.
#[cold]
#[inline(never)]
fn in_tree<N: Copy>(numbers: &BTreeMap<Vec<u8>, N>, name: &[u8]) -> Option<N>
    ensures { result ≡ beyond name.now numbers.now }
{
    numbers.get(name).copied()
}

impl<N> Model for Bindings<N> {
    ghost use Rattle.std.specs.{Prelude.{◌++◌}, Ordering.{nat_cmp}, Cmp.Lexicographic.{slice_cmp}, Coded.{coded_ℕ, coded_list}};
    ghost use Rattle.std.specs.FinMap as map;
    ghost use Rattle.ix_lanes.specs.asking.Pairs.{pairs_of};

    ghost Value = { map.FinMap (slice_cmp nat_cmp) N };

    ghost coded = { map.code (coded_list coded_ℕ) N.code };

    ghost view = { λ n. map.from_entries (pairs_of (n.near.items ++ n.numbers.entries)) };
}

impl<N: Copy> Bindings<N> {
    /// No names.
    pub fn new(alloc: Global) -> Bindings<N>
        ensures { result ≡ map.empty }
    {
        Bindings {
            alloc,
            near: Vec::new(alloc),
            numbers: BTreeMap::new(alloc),
        }
    }

    /// What a name stands for.
    #[inline(always)]
    pub fn get(&self, name: &NameWord<'_>) -> Option<N>
        ensures { result ≡ map.get self.now name.now }
    {
        match place_of(self.near.as_slice(), name.as_bytes()) {
            Some(place) => Some(self.near[place].1),
            None => beyond(&self.numbers, name.as_bytes()),
        }
    }

    /// Lets a name stand for a number from now on. After `NoMemory` all names stand for what they stood for.
    pub fn set(&mut self, name: &NameWord<'_>, number: N) -> Result<(), NoMemory>
        ensures ok { OnOk result (self.new ≡ map.insert self.old name.now number) }
        ensures err { OnErr result (self.new ≡ self.old) }
    {
        if self.get(name).is_some() {
            self.put(name, number);
            return Ok(());
        }
        let Ok(bytes) = Vec::from_slice(self.alloc, name.as_bytes()) else {
            return Err(NoMemory);
        };
        if self.near.len() < NEAR {
            if self.near.push((bytes, number)).is_err() {
                return Err(NoMemory);
            }
            return Ok(());
        }
        if self.numbers.insert(bytes, number).is_err() {
            return Err(NoMemory);
        }
        Ok(())
    }

    /// Lets a name that it has stand for a number from now on. It takes no memory.
    pub fn put(&mut self, name: &NameWord<'_>, number: N)
        requires { map.contains_key self.old name.now ≡ true }
        ensures { self.new ≡ map.insert self.old name.now number }
    {
        match place_of(self.near.as_slice(), name.as_bytes()) {
            Some(place) => self.near[place].1 = number,
            None => {
                if let Some(there) = self.numbers.get_mut(name.as_bytes()) {
                    *there = number;
                }
            }
        }
    }
}
