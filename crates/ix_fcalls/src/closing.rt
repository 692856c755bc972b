ghost use Rattle.std.specs.{Prelude.{◌≡◌, ◌<◌, OnErr, OnOk, None, Some, true, false, if◌then◌else◌}, List.{list_any}, Option.{option_map_or}};
ghost use Rattle.ix_model.specs.{laws.Sound.{Sound}, world.{Contents.{carried}, Owners.{has_end}, World.{at, change, put, is_on, is_pipe, no_claims}}};
ghost use Rattle.ix_model.specs.rows.{Lifetimes.{has_lost, let_go}, OnDescriptors.{close_fd}, Outcomes.{Pass, RowIs}, Walks.{behind, node}};
ghost use Rattle.ix_fcalls.specs.{Around.{frame_of, world_of}, Counted.{IsCounted}, Views.{behind_of}, Remaining.{Leaves}};

use crate::caller_in::{CallerIn, Others};
use crate::files::Files;
use crate::open_file::OpenFile;
use ix_model::{Fd, Refusal, Reply};

/// What is given up: a descriptor, and what it alone kept.
impl Files {
    /// CloseFd: the descriptor is free, and what it alone kept is gone.
    #[tactic(auto, unfolding(ix_model::specs::rows::Rows::coding, ix_model::specs::rows::Walks::opened, ix_model::specs::rows::OnDescriptors::close_fd))]
    pub(crate) fn close_fd<R: Others>(
        &mut self,
        who: &mut CallerIn<R>,
        fd: Fd,
    ) -> Result<Reply, Refusal>
        requires sound { Sound (world_of R.rest self.old who.old) }
        requires counted { IsCounted self.old who.old }
        ensures row { RowIs result (frame_of R.rest self.new who.new) (close_fd R.rest.pid fd.0 (frame_of R.rest self.old who.old)) }
        ensures counted { IsCounted self.new who.new }
        ensures back { OnErr result (self.new ≡ self.old) }
        ensures content { OnOk result ((world_of R.rest self.new who.new).content ≡ carried (frame_of R.rest self.old who.old) (frame_of R.rest self.new who.new) (world_of R.rest self.old who.old).content) }
    {
        let Some(e) = self.behind(who, fd) else {
            return Err(Refusal::BadFd);
        };
        self.give_up(who, fd, &e);
        Ok(Reply::Done)
    }

    /// The descriptor is free. The claim on its end goes where it was the last one there, the open entry where nobody else
    /// has it, and the object where nothing else keeps it.
    pub(crate) fn give_up<R: Others>(&mut self, who: &mut CallerIn<R>, fd: Fd, e: &OpenFile)
        requires sound { Sound (world_of R.rest self.old who.old) }
        requires counted { IsCounted self.old who.old }
        requires descriptor { fd.0 < 32 }
        requires behind { behind (frame_of R.rest self.old who.old) R.rest.pid fd.0 ≡ Some (behind_of e.now) }
        ensures row { let_go R.rest.pid fd.0 (behind_of e.now) (frame_of R.rest self.old who.old) ≡ Pass tt (frame_of R.rest self.new who.new) }
        ensures process { who.new ≡ change who.old R.rest.pid (λ q. record q { fds = put q.fds fd.0 None }) }
        ensures counted { IsCounted self.new who.new }
        ensures leaves { Leaves (world_of R.rest self.old who.old) (world_of R.rest self.new who.new) }
        ensures content { (world_of R.rest self.new who.new).content ≡ carried (frame_of R.rest self.old who.old) (frame_of R.rest self.new who.new) (world_of R.rest self.old who.old).content }
    {
        who.set_fd(fd.0 as usize, None);
        self.let_go_claim(who, e);
        self.tables.release(e.id);
        self.tables.let_go_object(e.object);
    }

    /// The claim of the caller on an end goes where it has no descriptor on it any more.
    fn let_go_claim<R: Others>(&mut self, who: &CallerIn<R>, e: &OpenFile)
        requires end { e.now.end < 2 }
        requires unclaimed { is_pipe (node self.old.objects e.now.object) ≡ false → (node self.old.objects e.now.object).claims ≡ no_claims }
        ensures { self.new ≡ record self.old { objects = if has_lost (frame_of R.rest self.old who.now) R.rest.pid e.now.object e.now.end then change self.old.objects e.now.object (λ x. record x { claims = put x.claims e.now.end None }) else self.old.objects } }
    {
        if self.has_lost(who, e) {
            self.tables.unclaim(e.object, e.end);
        }
    }

    /// Whether the caller has claimed an end, and has no descriptor on it any more.
    fn has_lost<R: Others>(&self, who: &CallerIn<R>, e: &OpenFile) -> bool
        requires end { e.now.end < 2 }
        requires unclaimed { is_pipe (node self.now.objects e.now.object) ≡ false → (node self.now.objects e.now.object).claims ≡ no_claims }
        ensures lost { result ≡ has_lost (frame_of R.rest self.now who.now) R.rest.pid e.now.object e.now.end }
        ensures pipe { result ≡ true → is_pipe (node self.now.objects e.now.object) ≡ true }
    {
        if !self.is_pipe(e.object) {
            return false;
        }
        self.has_claimed(e, who.caller().pid) && !self.has_end(who, e)
    }

    /// Whether a pipe is there.
    pub(crate) fn is_pipe(&self, n: u32) -> bool
        ensures { result ≡ is_pipe (node self.now.objects n) }
    {
        self.tables.is_pipe(n)
    }

    /// Whether the caller has a descriptor on an end.
    fn has_end<R: Others>(&self, who: &CallerIn<R>, e: &OpenFile) -> bool
        ensures { result ≡ has_end (frame_of R.rest self.now who.now) e.now.object e.now.end R.rest.pid }
    {
        let caller = who.caller();
        self.any_on(&caller.fds, e.object, e.end)
    }

    /// Whether some of these descriptors are on an end.
    fn any_on(&self, fds: &[Option<u32>; 32], object: u32, end: u8) -> bool
        ensures { result ≡ list_any (λ d. option_map_or (λ n. is_on object end (at self.now.opens n)) d false) fds.now }
    {
        fds.iter().any(|fd| self.is_on(*fd, object, end))
    }

    /// Whether an open entry is on that end of that object.
    fn is_on(&self, id: Option<u32>, object: u32, end: u8) -> bool
        ensures { result ≡ option_map_or (λ n. is_on object end (at self.now.opens n)) id false }
    {
        match id {
            Some(id) => match self.tables.entry(id) {
                Some(e) => e.obj.0 == object && e.end == end,
                None => false,
            },
            None => false,
        }
    }
}
