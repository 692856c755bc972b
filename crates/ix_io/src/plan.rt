use ix_memory::NoMemory;
use std::alloc::Global;
use std::marker::Model;

/// Which calls of a stream in memory are to fail, how many were made, and how often it failed.
#[derive(Drop)]
pub struct Plan {
    fails: Vec<u32>,
    calls: u64,
    faults: u64,
}

impl Model for Plan {
    ghost use Rattle.ix_io.specs.Planned as planned;

    ghost Value = { planned.Plan };

    ghost view = { λ p. record { fails = p.fails.items; calls = p.calls; faults = p.faults } };
}

impl Plan {
    ghost use Rattle.std.specs.Prelude.{◌≡◌, ◌≤◌, IfOk};
    ghost use Rattle.ix_io.specs.Planned.{start, fails_next, after_call};

    /// A plan by which the calls of these numbers, counted from 0, fail, and no others. `NoMemory` where there was none for a copy
    /// of them.
    pub fn new(alloc: Global, fails: &[u32]) -> Result<Plan, NoMemory>
        ensures { IfOk result (λ p. p ≡ start fails.now) }
    {
        Ok(Plan {
            fails: Vec::from_slice(alloc, fails)?,
            calls: 0,
            faults: 0,
        })
    }

    /// Whether the next call is to fail.
    pub fn fails_next(&self) -> bool
        ensures { result ≡ fails_next self.now }
    {
        let next = self.calls;
        self.fails.iter().any(|&call| u64::from(call) == next)
    }

    /// Notes one call more, which failed or not.
    pub fn note(&mut self, failed: bool)
        ensures noted { self.new ≡ after_call self.old failed }
        ensures later { self.old.faults ≤ self.new.faults }
    {
        self.calls = self.calls.saturating_add(1);
        if failed {
            self.faults = self.faults.saturating_add(1);
        }
    }
}
