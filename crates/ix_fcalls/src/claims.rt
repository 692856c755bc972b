ghost use Rattle.std.specs.Prelude.{◌≡◌, ◌<◌, true};
ghost use Rattle.ix_model.specs.{rows.Walks.{node}, world.World.{claimed_by, is_pipe}};
ghost use Rattle.ix_fcalls.specs.Claiming.{Claims, Unclaims};

use crate::files::Files;
use crate::open_file::OpenFile;
use ix_model::{Caller, Fd, Pid, Refusal};
use ix_pipe::Claim;

/// Claims on the ends of pipes.
impl Files {
    /// Claims the end of a pipe behind a descriptor of a process. It is refused `BadFd` where the descriptor names no open
    /// entry, and `NotPipe` where that is on no pipe; nothing has changed then. Where another process has claimed the end
    /// the answer says so, and nothing has changed. A path that becomes whole holds nothing.
    pub fn claim(&mut self, who: &Caller, fd: Fd) -> Result<Claim, Refusal>
        ensures { Claims result who.now fd.0 self.old self.new }
    {
        let Some(e) = self.entry_of(who, fd) else {
            return Err(Refusal::BadFd);
        };
        if !self.is_pipe(e.object) {
            return Err(Refusal::NotPipe);
        }
        Ok(self.tables.claim(e.object, e.end, who.pid))
    }

    /// Ends the claim of a process on the end of a pipe behind its descriptor. It is refused `BadFd` and `NotPipe` as
    /// [`claim`](Files::claim) is, and `NotClaimed` where the process hasn't claimed the end; nothing has changed then.
    pub fn unclaim(&mut self, who: &Caller, fd: Fd) -> Result<(), Refusal>
        ensures { Unclaims result who.now fd.0 self.old self.new }
    {
        let Some(e) = self.entry_of(who, fd) else {
            return Err(Refusal::BadFd);
        };
        if !self.is_pipe(e.object) {
            return Err(Refusal::NotPipe);
        }
        if !self.has_claimed(&e, who.pid) {
            return Err(Refusal::NotClaimed);
        }
        self.tables.unclaim(e.object, e.end);
        Ok(())
    }

    /// Whether a process has claimed an end of a pipe.
    pub(crate) fn has_claimed(&self, e: &OpenFile, pid: Pid) -> bool
        requires pipe { is_pipe (node self.now.objects e.now.object) ≡ true }
        requires end { e.now.end < 2 }
        ensures { result ≡ claimed_by (node self.now.objects e.now.object) e.now.end pid.0 }
    {
        match self.tables.claimant(e.object, e.end) {
            Some(claimant) => claimant == pid,
            None => false,
        }
    }
}
