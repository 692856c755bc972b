ghost use Rattle.std.specs.Prelude.{◌≡◌, ◌≢◌, ℕ, ◌<◌, ◌-◌, ◌+◌, ◌==◌, Some, None, IfOk, if◌then◌else◌, is_some, count_by, length, find, replicate};
ghost use Rattle.ix_links.specs.Chains.{chain_of, pool};
ghost use Rattle.ix_marks.specs.RowIndex.{row_of, is_at, freed, AreDifferent};

use ix_links::Links;
use ix_model::{NoMemory, Pid};
use std::alloc::Global;
use std::marker::Model;

/// Which row is which process's.
///
/// The rows that are taken stand in as many buckets as there are rows, by the remainder of the pid. So processes whose
/// pids follow one another have a bucket each; but of many that come and go those that stay may all have the same one.
#[derive(Drop)]
pub struct RowIndex {
    /// The pid whose row it is, `None` where the row is free.
    pids: Vec<Option<u32>>,
    /// A chain for each bucket. Its free indices are the free rows.
    buckets: Links,
    /// How many buckets there are, at least one.
    width: u32,
}

impl Model for RowIndex {
    ghost use Rattle.std.specs.Prelude.{length};
    ghost use Rattle.ix_marks.specs.RowIndex.{RowOwners, IsRowIndex};

    ghost Value = { RowOwners };

    ghost view = { λ s. record { pids = s.pids.items; free = length s.buckets.free } };

    ghost invariant = { λ s. IsRowIndex s.pids.items s.buckets s.width };
}

impl RowIndex {
    /// So many rows, all free. It takes all memory that there will be, and answers `NoMemory` where there is not so much. It
    /// costs a step for each row.
    pub fn new(alloc: Global, rows: u32) -> Result<RowIndex, NoMemory>
        ensures { IfOk result (λ s. s ≡ record { pids = replicate rows None; free = rows }) }
    {
        let width = rows.max(1);
        let buckets = Links::new(alloc, rows, width)?;
        let pids = vec![in alloc; None; rows as usize]?;
        Ok(RowIndex {
            pids,
            buckets,
            width,
        })
    }

    /// The row of a process; `None` exactly where it has none. A walk over the rows of one bucket.
    pub fn find(&self, pid: Pid) -> Option<u32>
        ensures { result ≡ row_of pid.0 self.now.pids }
    {
        index_of(&self.buckets, pid.0 % self.width, &self.pids, pid.0)
    }

    /// Takes a free row for a process that has none. Constant time.
    pub fn take(&mut self, pid: Pid) -> u32
        requires none { row_of pid.0 self.old.pids ≡ None }
        requires room { 0 < self.old.free }
        ensures rows { (q : ℕ) → row_of q self.new.pids ≡ (if q == pid.0 then Some result else row_of q self.old.pids) }
        ensures unused { (q : ℕ) → row_of q self.old.pids ≢ Some result }
        ensures below { result < length self.old.pids }
        ensures length { length self.new.pids ≡ length self.old.pids }
        ensures free { self.new.free ≡ self.old.free - 1 }
    {
        self.buckets.is_pool();
        let bucket = pid.0 % self.width;
        let Some(row) = self.buckets.push_back(bucket) else {
            unreachable!()
        };
        self.pids[row as usize] = Some(pid.0);
        row
    }

    /// The row of a process is free again, where it has one. As dear as [`find`](Seats::find).
    pub fn leave(&mut self, pid: Pid)
        ensures rows { (q : ℕ) → row_of q self.new.pids ≡ (if q == pid.0 then None else row_of q self.old.pids) }
        ensures length { length self.new.pids ≡ length self.old.pids }
        ensures free { self.new.free ≡ freed (row_of pid.0 self.old.pids) self.old.free }
    {
        self.buckets.is_pool();
        let bucket = pid.0 % self.width;
        let Some(row) = index_of(&self.buckets, bucket, &self.pids, pid.0) else {
            return;
        };
        self.buckets.remove(bucket, row);
        self.pids[row as usize] = None;
    }

    /// How many rows are free. Constant time.
    pub fn free(&self) -> u32
        ensures { result ≡ self.now.free }
    {
        self.buckets.free()
    }

    /// Does nothing: its contract is the law that no process has two rows, and that each row is a process's or free.
    pub fn lemma_rows_add_up(&self)
        ensures different { AreDifferent self.now.pids }
        ensures spare { self.now.free + count_by is_some self.now.pids ≡ length self.now.pids }
    {
        let _ = &self.width;
    }
}

/// The first index of a chain at which a pid stands; `None` where it stands at none. A walk from the chain's first.
fn index_of(links: &Links, chain: u32, pids: &[Option<u32>], pid: u32) -> Option<u32>
    requires chain { chain < length links.now.chains }
    requires pids { length pids.now ≡ pool links.now }
    ensures { result ≡ find (is_at pids.now pid) (chain_of chain links.now) }
{
    links.is_pool();
    let mut next = links.first(chain);
    for _ in 0..pids.len() {
        let index = next?;
        if is_at(pids, index, pid) {
            return Some(index);
        }
        next = links.next(index);
    }
    None
}

/// Whether a pid stands at an index.
fn is_at(pids: &[Option<u32>], index: u32, pid: u32) -> bool
    requires { index < length pids.now }
    ensures { result ≡ is_at pids.now pid index }
{
    match pids[index as usize] {
        Some(sitting) => sitting == pid,
        None => false,
    }
}
