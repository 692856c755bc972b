ghost use Rattle.std.specs.{Prelude.{◌≡◌, ◌-◌, ◌<◌, is_some, IfSome, IsTrue, None, Some, not, true, false, slice_set}, Option.{option_map_or}};
ghost use Rattle.std.proofs.Common.{option_map};
ghost use Rattle.ix_model.specs.{world.{World.{at, put, change, is_pipe, held}, Contents.{holds_nothing}}, rows.{OnPaths.{new_object}, Walks.{node}}};
ghost use Rattle.ix_model.specs.declared.reply.Kind.TheVariants as kind;
ghost use Rattle.ix_tables.specs.Views.{vacant_pipe, object_let_go, claimed};
ghost use Rattle.ix_pipe.specs.Claims.{claim_answer};

use crate::tables::Tables;
use ix_model::{Obj, Pid};
use ix_pipe::Claim;

/// Pipes, and who has claimed their ends.
impl Tables {
    /// The lowest free pipe; `None` exactly where none is free.
    pub fn vacant_pipe(&self) -> Option<u32>
        ensures vacant { result ≡ vacant_pipe self.now.fss self.now.objects }
    {
        Some(self.first_pipe + self.pipes.vacant()?)
    }

    /// A new pipe under the lowest free number, which has to be there.
    pub fn make_pipe(&mut self, n: u32)
        requires { vacant_pipe self.old.fss self.old.objects ≡ Some n }
        ensures { self.new ≡ record self.old { objects = put self.old.objects n (Some (new_object kind.Pipe None)); holdings = slice_set self.old.holdings n holds_nothing } }
    {
        let _ = n;
        self.pipes.make();
    }

    /// Who has claimed an end of a pipe; `None` exactly where nobody has.
    pub fn claimant(&self, n: u32, end: u8) -> Option<Pid>
        requires pipe { is_pipe (node self.now.objects n) ≡ true }
        requires end { end < 2 }
        ensures { option_map (λ p. p.0) result ≡ at (node self.now.objects n).claims end }
    {
        self.pipes.claimant(n - self.first_pipe, end)
    }

    /// Claims an end of a pipe for a process that nobody else stands before. Where the other end is claimed too the path
    /// is whole; where it has become so by this claim it holds nothing.
    pub fn claim(&mut self, n: u32, end: u8, pid: Pid) -> Claim
        requires pipe { is_pipe (node self.old.objects n) ≡ true }
        requires end { end < 2 }
        ensures answer { result ≡ claim_answer pid.0 (at (node self.old.objects n).claims end) (at (node self.old.objects n).claims (1 - end)) }
        ensures claimed { self.new ≡ claimed n end pid.0 self.old }
    {
        let pipe = n - self.first_pipe;
        self.pipes.lemma_is_bounded(pipe);
        self.pipes.claim(pipe, end, pid)
    }

    /// Ends the claim on an end of a pipe, 0 or 1, whoever has it. Where there is none nothing changes.
    pub fn unclaim(&mut self, n: u32, end: u8)
        requires pipe { is_pipe (node self.old.objects n) ≡ true }
        requires end { end < 2 }
        ensures { self.new ≡ record self.old { objects = change self.old.objects n (λ x. record x { claims = put x.claims end None }) } }
    {
        self.pipes.unclaim(n - self.first_pipe, end);
    }

    /// A pipe without an open entry on either end goes.
    pub(crate) fn let_go_pipe(&mut self, n: u32)
        requires { option_map_or is_pipe (at self.old.objects n) true ≡ true }
        ensures { self.new ≡ object_let_go n self.old }
    {
        if n < self.first_pipe {
            return;
        }
        let pipe = n - self.first_pipe;
        if self.pipes.lives(pipe) && !self.opens.held(Obj(n), 0) && !self.opens.held(Obj(n), 1) {
            self.pipes.free(pipe);
        }
    }
}
