ghost use Rattle.std.specs.{Prelude.{◌≡◌, ℕ, ◌+◌, ◌<◌, length, slice_get, IfOk, Some, None}, List.{last_or, Contains}};
ghost use Rattle.ix_links.specs.{Whole.{IsPool}, Chains.{chain_of, pool, all_free, pushed_front, pushed_back, removed, before}};

use crate::link;
use crate::link::{Ends, Link};
use ix_memory::NoMemory;
use std::alloc::Global;
use std::marker::Model;

/// Chains of indices, doubly linked, in one pool.
///
/// Each index of the pool stands once in one chain or once among the free ones. Contracts see the
/// list of each chain and the list of the free indices.
#[derive(Drop)]
pub struct Links {
    items: Vec<Link>,
    chains: Vec<Ends>,
    unused: Ends,
    free: u32,
}

impl Model for Links {
    ghost use Rattle.ix_links.specs.Chains.{Chains};

    ghost Value = { Chains };

    ghost use Rattle.ix_links.specs.Standing.{links_view, IsSound};

    ghost view = { links_view };

    ghost invariant = { IsSound };
}

impl Links {
    /// A pool of `items` indices, which are all free in ascending order, and of `chains` empty chains.
    ///
    /// It takes memory for both, and the time of one step for each.
    pub fn new(alloc: Global, items: u32, chains: u32) -> Result<Links, NoMemory>
        ensures { IfOk result (λ s. s ≡ all_free items chains) }
    {
        let mut pool = vec![in alloc; Link {
            previous: None,
            next: None
        }; items as usize]?;
        let ends = vec![in alloc; Ends {
            first: None,
            last: None
        }; chains as usize]?;
        let mut unused = Ends {
            first: None,
            last: None,
        };
        let slots = pool.as_mut_slice();
        for index in 0..items {
            let last = Link {
                previous: unused.last,
                next: None,
            };
            link::insert(slots, &mut unused, index, last);
        }
        Ok(Links {
            items: pool,
            chains: ends,
            unused,
            free: items,
        })
    }

    /// Does nothing: its contract is the law that each index of the pool stands in one list, and
    /// there once.
    pub fn is_pool(&self)
        ensures { IsPool self.now }
    {
        let _ = &self.free;
    }

    /// How many indices are free. Constant time.
    pub fn free(&self) -> u32
        ensures { result ≡ length self.now.free }
    {
        self.free
    }

    /// The first index of a chain; None where the chain is empty. Constant time.
    pub fn first(&self, chain: u32) -> Option<u32>
        requires { chain < length self.now.chains }
        ensures { result ≡ slice_get (chain_of chain self.now) 0 }
    {
        self.chains[chain as usize].first
    }

    /// The last index of a chain; None where the chain is empty. Constant time.
    pub fn last(&self, chain: u32) -> Option<u32>
        requires { chain < length self.now.chains }
        ensures { result ≡ last_or None (chain_of chain self.now) }
    {
        self.chains[chain as usize].last
    }

    /// The index behind this one in its chain, or in the free list where it is free; None behind the
    /// last. Constant time.
    pub fn next(&self, index: u32) -> Option<u32>
        requires { index < pool self.now }
        ensures chain { (chain place : ℕ)
            → slice_get (chain_of chain self.now) place ≡ Some index
            → result ≡ slice_get (chain_of chain self.now) (place + 1) }
        ensures free { (place : ℕ)
            → slice_get self.now.free place ≡ Some index
            → result ≡ slice_get self.now.free (place + 1) }
    {
        self.items[index as usize].next
    }

    /// The index before this one in its chain, or in the free list where it is free; None before the
    /// first. Constant time.
    pub fn previous(&self, index: u32) -> Option<u32>
        requires { index < pool self.now }
        ensures chain { (chain place : ℕ)
            → slice_get (chain_of chain self.now) place ≡ Some index
            → result ≡ before (chain_of chain self.now) place }
        ensures free { (place : ℕ)
            → slice_get self.now.free place ≡ Some index
            → result ≡ before self.now.free place }
    {
        self.items[index as usize].previous
    }

    /// Moves the first of the free indices to the front of a chain, and gives it; None, and nothing
    /// has changed, where no index is free. Constant time.
    pub fn push_front(&mut self, chain: u32) -> Option<u32>
        requires { chain < length self.old.chains }
        ensures moved { result ≡ slice_get self.old.free 0 }
        ensures pushed { self.new ≡ pushed_front chain self.old }
    {
        let index = self.unused.first?;
        let items = self.items.as_mut_slice();
        link::unlink(items, &mut self.unused, index);
        let ends = &mut self.chains[chain as usize];
        let front = Link {
            previous: None,
            next: ends.first,
        };
        link::insert(items, ends, index, front);
        self.free -= 1;
        Some(index)
    }

    /// Moves the first of the free indices to the back of a chain, and gives it; None, and nothing
    /// has changed, where no index is free. Constant time.
    pub fn push_back(&mut self, chain: u32) -> Option<u32>
        requires { chain < length self.old.chains }
        ensures moved { result ≡ slice_get self.old.free 0 }
        ensures pushed { self.new ≡ pushed_back chain self.old }
    {
        let index = self.unused.first?;
        let items = self.items.as_mut_slice();
        link::unlink(items, &mut self.unused, index);
        let ends = &mut self.chains[chain as usize];
        let back = Link {
            previous: ends.last,
            next: None,
        };
        link::insert(items, ends, index, back);
        self.free -= 1;
        Some(index)
    }

    /// Moves an index from the chain in which it stands to the front of the free list. The others
    /// keep their order. Constant time.
    pub fn remove(&mut self, chain: u32, index: u32)
        requires chain { chain < length self.old.chains }
        requires held { Contains (chain_of chain self.old) index }
        ensures { self.new ≡ removed chain index self.old }
    {
        let items = self.items.as_mut_slice();
        link::unlink(items, &mut self.chains[chain as usize], index);
        let front = Link {
            previous: None,
            next: self.unused.first,
        };
        link::insert(items, &mut self.unused, index, front);
        self.free += 1;
    }
}
