ghost use Rattle.std.specs.Prelude.{◌≡◌, ◌<◌, None, Some, true};
ghost use Rattle.ix_model.specs.{laws.Sound.{Sound}, rows.{Lifetimes.{let_go_all, let_go_if_held}, Outcomes.{Pass}}};
ghost use Rattle.ix_model.specs.world.{Contents.{carried}, World.{Process, at, change, lives, put}};
ghost use Rattle.ix_tables.specs.Parts.{parts_of};
ghost use Rattle.ix_fcalls.specs.{Around.{Moment, around, frame_of, world_of, with_who}, Calling.{IsCalling}, Counted.{IsCounted}, Remaining.{Leaves}};

use crate::caller_in::{CallerIn, Others};
use crate::files::Files;
use ix_model::{Caller, Fd};
use std::marker::Brand;

/// What a process lets go when it ends.
impl Files {
    /// All that a process has goes when it ends: its descriptors and its claims, with what they alone kept, and its place
    /// at its working directory.
    #[tactic(auto, using(crate::proofs::Bare::counted_parts))]
    pub fn let_go(&mut self, who: &mut Caller)
        ghost moment: { Moment }
        requires sound { Sound moment.world }
        requires parts { self.old ≡ parts_of moment.world }
        requires who { with_who moment.world.frame.processes who.old ≡ moment.world.frame.processes }
        requires lives { lives moment.world.frame who.old.pid.0 ≡ true }
        ensures row { let_go_all who.old.pid.0 moment.world.frame ≡ Pass tt (frame_of (around moment.place who.old.pid.0 moment.world) self.new (with_who moment.world.frame.processes who.new)) }
        ensures content { (world_of (around moment.place who.old.pid.0 moment.world) self.new (with_who moment.world.frame.processes who.new)).content ≡ carried moment.world.frame (frame_of (around moment.place who.old.pid.0 moment.world) self.new (with_who moment.world.frame.processes who.new)) moment.world.content }
        ensures counted { IsCounted self.new (change (with_who moment.world.frame.processes who.new) who.old.pid.0 (λ q. record q { ended = true })) }
        ensures pid { who.new.pid.0 ≡ who.old.pid.0 }
    {
        self.leave::<Brand>(who);
    }

    /// The same, of a caller among the others.
    fn leave<R: Others>(&mut self, caller: &mut Caller)
        requires calling { IsCalling R.rest caller.old.pid.0 }
        requires sound { Sound (world_of R.rest self.old (with_who R.rest.processes caller.old)) }
        requires counted { IsCounted self.old (with_who R.rest.processes caller.old) }
        ensures row { let_go_all R.rest.pid (frame_of R.rest self.old (with_who R.rest.processes caller.old)) ≡ Pass tt (frame_of R.rest self.new (with_who R.rest.processes caller.new)) }
        ensures content { (world_of R.rest self.new (with_who R.rest.processes caller.new)).content ≡ carried (frame_of R.rest self.old (with_who R.rest.processes caller.old)) (frame_of R.rest self.new (with_who R.rest.processes caller.new)) (world_of R.rest self.old (with_who R.rest.processes caller.old)).content }
        ensures counted { IsCounted self.new (change (with_who R.rest.processes caller.new) R.rest.pid (λ q. record q { ended = true })) }
        ensures pid { caller.new.pid.0 ≡ R.rest.pid }
    {
        let mut who = CallerIn::<R>::new(caller);
        self.give_up_all(&mut who);
        *caller = *who.caller();
        self.tables.leave(caller.cwd.0);
    }

    /// All 32 descriptors are given up.
    #[tactic(auto, using(crate::proofs::Bare::giving_none, crate::proofs::Bare::given_all, crate::proofs::Bare::all_bare))]
    fn give_up_all<R: Others>(&mut self, who: &mut CallerIn<R>)
        requires sound { Sound (world_of R.rest self.old who.old) }
        requires counted { IsCounted self.old who.old }
        ensures row { let_go_all R.rest.pid (frame_of R.rest self.old who.old) ≡ Pass tt (frame_of R.rest self.new who.new) }
        ensures sound { Sound (world_of R.rest self.new who.new) }
        ensures counted { IsCounted self.new who.new }
        ensures leaves { Leaves (world_of R.rest self.old who.old) (world_of R.rest self.new who.new) }
        ensures bare { (p : Process) → at who.new R.rest.pid ≡ Some p → (fd : _) → fd < 32 → at p.fds fd ≡ None }
    {
        for fd in 0..32 {
            self.give_up_if_held(who, Fd(fd));
        }
    }

    /// A descriptor is given up, where it is one.
    #[tactic(auto, unfolding(ix_model::specs::rows::Rows::coding, ix_model::specs::rows::Lifetimes::let_go_if_held))]
    fn give_up_if_held<R: Others>(&mut self, who: &mut CallerIn<R>, fd: Fd)
        requires sound { Sound (world_of R.rest self.old who.old) }
        requires counted { IsCounted self.old who.old }
        ensures row { let_go_if_held R.rest.pid fd.0 (frame_of R.rest self.old who.old) ≡ Pass tt (frame_of R.rest self.new who.new) }
        ensures process { who.new ≡ change who.old R.rest.pid (λ q. record q { fds = put q.fds fd.0 None }) }
        ensures sound { Sound (world_of R.rest self.new who.new) }
        ensures counted { IsCounted self.new who.new }
        ensures leaves { Leaves (world_of R.rest self.old who.old) (world_of R.rest self.new who.new) }
    {
        if let Some(e) = self.behind(who, fd) {
            self.give_up(who, fd, &e);
        }
    }
}
