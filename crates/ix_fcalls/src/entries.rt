ghost use Rattle.std.specs.{Prelude.{◌≡◌, ◌-◌, Some, false}, Option.{option_map_or}};
ghost use Rattle.ix_label.specs.Category.{join};
ghost use Rattle.ix_model.specs.{laws.Sound.{Sound}, rows.Walks.{node}, world.World.{at, change, is_pipe, held, claimed_by_another}};
ghost use Rattle.ix_fcalls.specs.{Around.{world_of}, Views.{behind_of}};

use crate::caller_in::{CallerIn, Others};
use crate::files::Files;
use crate::open_file::OpenFile;
use ix_label::{Label, Steps};
use std::sync::ledger::Ledger;

/// What calls on bytes ask of an open entry, and its label.
impl Files {
    /// Whether an open entry is on a pipe.
    pub(crate) fn is_on_pipe(&self, e: &OpenFile) -> bool
        ensures { result ≡ option_map_or is_pipe (at self.now.objects e.now.object) false }
    {
        self.tables.is_pipe(e.object)
    }

    /// Whether a process other than the caller has claimed the end that an open entry is on.
    pub(crate) fn is_claimed_by_another<R: Others>(&self, who: &CallerIn<R>, e: &OpenFile) -> bool
        requires sound { Sound (world_of R.rest self.now who.now) }
        requires entry { at self.now.opens e.now.id ≡ Some (behind_of e.now).entry }
        ensures { result ≡ claimed_by_another (node self.now.objects e.now.object) e.now.end R.rest.pid }
    {
        if !self.is_on_pipe(e) {
            return false;
        }
        match self.tables.claimant(e.object, e.end) {
            Some(pid) => pid != who.caller().pid,
            None => false,
        }
    }

    /// Whether some open entry is on the other end of the pipe that an open entry is on.
    pub(crate) fn is_held_there(&self, e: &OpenFile) -> bool
        ensures { result ≡ held self.now.opens e.now.object (1 - e.now.end) }
    {
        self.tables.held(e.object, 1u8.saturating_sub(e.end))
    }

    /// An open entry's label takes in another.
    pub(crate) fn float_entry<L: Ledger>(&mut self, id: u32, label: &Label, steps: &mut Steps<L>)
        ensures { self.new ≡ record self.old { opens = change self.old.opens id (λ y. record y { label = join y.label label.now }) } }
    {
        if let Some(y) = self.tables.entry(id) {
            self.tables.mark(id, y.label.join(label, steps));
        }
    }
}
