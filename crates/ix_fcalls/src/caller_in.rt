ghost use Rattle.std.specs.{Prelude.{◌≡◌, ◌<◌, Some, None, IfSome, not, true, false}, Option.{option_map_or}};
ghost use Rattle.ix_model.specs.world.{World.{at, put, change, living, lowest_free}, Callers.{with_caller}};
ghost use Rattle.ix_fcalls.specs.{Around.{with_who, process_of}, Calling.{IsCalling}};

use ix_label::Label;
use ix_model::{Caller, Obj};
use std::marker::{Brand, Model, PhantomData};

/// What the rest of the world is while a process calls. No code holds it.
pub trait Others {
    ghost use Rattle.ix_fcalls.specs.Around.{Around};

    ghost rest: { Around };
}

impl Others for Brand {
    ghost use Rattle.std.specs.Prelude.{[]};

    ghost rest = { record { place = 0; pid = 0; processes = []; log = []; statuses = [] } };
}

/// The calling process. Contracts see the table of all processes, in which it stands as it is now.
#[derive(Drop)]
pub struct CallerIn<R: Others> {
    caller: Caller,
    rest: PhantomData<R>,
}

impl<R: Others> Model for CallerIn<R> {
    ghost use Rattle.std.specs.{Prelude.{List, Option}, Coded.{codes}};
    ghost use Rattle.ix_label.specs.contracts.label.Label as label_type;
    ghost use Rattle.ix_model.specs.world.World.{Process};
    ghost use Rattle.ix_fcalls.specs.{Around.{with_who}, Calling.{IsCalling}};

    ghost Value = { List (Option Process) };

    ghost coded = { Prim.hlevel (codes, label_type.the_row.coded) };

    ghost view = { λ w. with_who R.rest.processes w.caller };

    ghost invariant = { λ w. IsCalling R.rest w.caller.pid.0 };
}

impl<R: Others> CallerIn<R> {
    /// The process that makes a call, as it is when the call begins.
    pub fn new(caller: &Caller) -> CallerIn<R>
        requires { IsCalling R.rest caller.now.pid.0 }
        ensures { result ≡ with_who R.rest.processes caller.now }
    {
        CallerIn {
            caller: *caller,
            rest: PhantomData,
        }
    }

    /// The record of the calling process.
    #[tactic(auto, using(crate::proofs::Callers::calling))]
    pub fn caller(&self) -> &Caller
        ensures living { living (at self.now R.rest.pid) ≡ Some (process_of R.rest result.now) }
        ensures lives { option_map_or (λ p. not p.ended) (at self.now R.rest.pid) false ≡ true }
        ensures table { self.now ≡ change R.rest.processes R.rest.pid (with_caller result.now) }
        ensures pid { result.now.pid.0 ≡ R.rest.pid }
    {
        &self.caller
    }

    /// Sets the label of the calling process.
    #[tactic(auto, using(crate::proofs::Callers::calling))]
    pub fn set_label(&mut self, label: Label)
        ensures { self.new ≡ change self.old R.rest.pid (λ q. record q { label = label }) }
    {
        self.caller.float.label = label;
    }

    /// Sets the working directory.
    #[tactic(auto, using(crate::proofs::Callers::calling))]
    pub fn set_cwd(&mut self, dir: u32)
        ensures { self.new ≡ change self.old R.rest.pid (λ q. record q { cwd = dir }) }
    {
        self.caller.cwd = Obj(dir);
    }

    /// Lets a descriptor name an open entry, or none.
    #[tactic(auto, using(crate::proofs::Callers::calling))]
    pub fn set_fd(&mut self, fd: usize, id: Option<u32>)
        requires { fd < 32 }
        ensures { self.new ≡ change self.old R.rest.pid (λ q. record q { fds = put q.fds fd id }) }
    {
        self.caller.fds[fd] = id;
    }
}

/// The lowest free descriptor.
pub fn free_fd(fds: &[Option<u32>; 32]) -> Option<usize>
    ensures free { result ≡ lowest_free fds.now }
    ensures within { IfSome result (λ fd. fd < 32) }
{
    fds.iter().position(|fd| fd.is_none())
}
