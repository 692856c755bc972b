ghost use Rattle.std.specs.Prelude.{◌≡◌, ◌+◌, ◌<◌, ◌≤◌, ◌++◌, ◌∷◌, ℕ, List, Option, [], length, count_by, is_some, Some, true, false, slice_index_or};
ghost use Rattle.ix_model.specs.world.{World.{Process, at}, Owners.{is_at}};
ghost use Rattle.ix_fcalls.specs.Counted.{IsCounted};

use crate::files::Files;
use ix_model::Caller;
use ix_tables::Tables;

impl Files {
    /// A child of a fork, which no call was made for yet: each of its descriptors is one owner more of its open entry, and
    /// it is at home in its working directory.
    pub fn take_up(&mut self, child: &Caller)
        ghost processes: { List (Option Process) }
        requires counted { IsCounted self.old processes }
        requires few { count_by is_some processes ≤ 1024 }
        requires descriptors { (p : ℕ) (q : Process) → at processes p ≡ Some q → length q.fds ≡ 32 }
        requires entries { (fd e : ℕ) → at child.now.fds fd ≡ Some e → is_some (at self.old.opens e) ≡ true }
        requires home { child.now.cwd.0 < length self.old.objects }
        ensures counted { (p : Process) → p.fds ≡ child.now.fds → p.cwd ≡ child.now.cwd.0 → p.ended ≡ false → IsCounted self.new (processes ++ Some p ∷ []) }
        ensures rest { self.new ≡ record self.old { owners = self.new.owners; homes = self.new.homes } }
    {
        share_all(&mut self.tables, &child.fds);
        self.tables.settle(child.cwd.0);
    }
}

/// Each descriptor is one owner more of the entry that it names.
#[tactic(auto, using(crate::proofs::Sharing::sharing))]
fn share_all(tables: &mut Tables, fds: &[Option<u32>; 32])
    requires entries { (fd e : ℕ) → at fds.now fd ≡ Some e → is_some (at tables.old.opens e) ≡ true }
    requires long { length tables.old.owners ≡ length tables.old.opens }
    requires few { (e : ℕ) → slice_index_or tables.old.owners e 0 ≤ 32768 }
    ensures owners { (e : ℕ) → slice_index_or tables.new.owners e 0 ≡ slice_index_or tables.old.owners e 0 + count_by (is_at e) fds.now }
    ensures long { length tables.new.owners ≡ length tables.old.owners }
    ensures rest { tables.new ≡ record tables.old { owners = tables.new.owners } }
{
    for fd in 0..32 {
        if let Some(id) = fds[fd] {
            tables.share(id);
        }
    }
}
