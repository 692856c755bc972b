ghost use Rattle.std.specs.Prelude.{◌≡◌, ◌++◌, ◌∷◌, [], length, nat_lt, IsTrue, IfSome, Some, true, false, is_some, unwrap_or};
ghost use Rattle.ix_label.specs.Category.{leq};
ghost use Rattle.ix_model.specs.{world.{World.{at, change, lives, living, ceiling_of}, Callers.{with_caller}}, rows.Walks.{node}};
ghost use Rattle.ix_tables.specs.Views.{Shows, object_by};
ghost use Rattle.ix_fcalls.specs.Around.{with_who, no_process};
ghost use Rattle.ix_machine.specs.Views.{is_inode};

use crate::machine::Machine;
use ix_label::Label;
use ix_model::{AuditLine, Caller, Floating, Obj, Pid, PrivSet};
use ix_tables::ObjectRow;

/// What the calls read and set of the three parts.
impl Machine {
    /// Whether a process of that pid lives.
    #[tactic(auto, using(crate::proofs::Rows::getting))]
    pub(crate) fn lives(&self, pid: Pid) -> bool
        ensures { result ≡ lives self.now.frame pid.0 }
    {
        match self.procs.get(pid) {
            Some(_) => true,
            None => false,
        }
    }

    /// A living process.
    #[tactic(auto, using(crate::proofs::Rows::getting))]
    pub(crate) fn who(&self, pid: Pid) -> &Caller
        requires { lives self.now.frame pid.0 ≡ true }
        ensures shown { with_who self.now.frame.processes result.now ≡ self.now.frame.processes }
        ensures pid { result.now.pid.0 ≡ pid.0 }
        ensures living { living (at self.now.frame.processes pid.0) ≡ Some (with_caller result.now (unwrap_or (at self.now.frame.processes pid.0) no_process)) }
    {
        match self.procs.get(pid) {
            Some(who) => who,
            None => unreachable!(),
        }
    }

    /// Sets the label of a living process.
    #[tactic(auto, using(crate::proofs::Rows::label_put))]
    pub(crate) fn set_process_label(&mut self, pid: Pid, label: Label)
        requires { lives self.old.frame pid.0 ≡ true }
        ensures { self.new ≡ record self.old { frame = record self.old.frame { processes = change self.old.frame.processes pid.0 (λ q. record q { label = label }) } } }
    {
        let who = *self.who(pid);
        self.procs.put(&Caller {
            float: Floating { label, ..who.float },
            ..who
        });
    }

    /// Freezes the label of a living process, or lets it float again.
    #[tactic(auto, using(crate::proofs::Rows::frozen_put))]
    pub(crate) fn set_process_frozen(&mut self, pid: Pid, on: bool)
        requires { lives self.old.frame pid.0 ≡ true }
        ensures { self.new ≡ record self.old { frame = record self.old.frame { processes = change self.old.frame.processes pid.0 (λ q. record q { frozen = on }) } } }
    {
        let who = *self.who(pid);
        self.procs.put(&Caller {
            float: Floating {
                frozen: on,
                ..who.float
            },
            ..who
        });
    }

    /// Sets the ceiling of a living process.
    #[tactic(auto, using(crate::proofs::Rows::ceiling_put))]
    pub(crate) fn set_process_ceiling(&mut self, pid: Pid, ceiling: Label)
        requires { lives self.old.frame pid.0 ≡ true }
        ensures { self.new ≡ record self.old { frame = record self.old.frame { processes = change self.old.frame.processes pid.0 (λ q. record q { ceiling = ceiling }) } } }
    {
        let who = *self.who(pid);
        self.procs.put(&Caller {
            float: Floating {
                ceiling,
                ..who.float
            },
            ..who
        });
    }

    /// What is told of the object of a number; `None` exactly where there is none.
    pub(crate) fn object(&self, n: u32) -> Option<ObjectRow>
        ensures object { Shows self.now.frame.objects n result }
        ensures ceiling { IfSome result (λ x. x.float.ceiling ≡ ceiling_of self.now.frame.fss (object_by (node self.now.frame.objects n) x)) }
    {
        self.files.object(Obj(n))
    }

    /// Sets the label of an object, to one at or below its ceiling.
    pub(crate) fn set_object_label(&mut self, n: u32, label: Label)
        requires lives { IsTrue (is_some (at self.old.frame.objects n)) }
        requires below { IsTrue (leq label (ceiling_of self.old.frame.fss (node self.old.frame.objects n))) }
        ensures { self.new ≡ record self.old { frame = record self.old.frame { objects = change self.old.frame.objects n (λ x. record x { label = label }) } } }
    {
        self.files.set_label(Obj(n), label);
    }

    /// Freezes the label of a file or a directory, or lets it float again.
    #[tactic(auto, using(crate::proofs::Landing::standing))]
    pub(crate) fn set_object_frozen(&mut self, n: u32, on: bool)
        requires { is_inode (at self.old.frame.objects n) ≡ true }
        ensures { self.new ≡ record self.old { frame = record self.old.frame { objects = change self.old.frame.objects n (λ x. record x { frozen = on }) } } }
    {
        self.files.set_frozen(Obj(n), on);
    }

    /// Sets the privileges that a file or a directory carries.
    #[tactic(auto, using(crate::proofs::Landing::standing))]
    pub(crate) fn set_object_privs(&mut self, n: u32, cap: PrivSet, lic: PrivSet)
        requires { is_inode (at self.old.frame.objects n) ≡ true }
        ensures { self.new ≡ record self.old { frame = record self.old.frame { objects = change self.old.frame.objects n (λ x. record x { cap = cap; lic = lic }) } } }
    {
        self.files.set_privs(Obj(n), cap, lic);
    }

    /// Whether the log takes one line more.
    pub(crate) fn log_has_room(&self) -> bool
        ensures { result ≡ nat_lt (length self.now.frame.log) self.now.frame.limits.log }
    {
        self.log.len() < self.files.limits().log
    }

    /// One line more at the end of the log.
    pub(crate) fn push_line(&mut self, line: AuditLine)
        requires { nat_lt (length self.old.frame.log) self.old.frame.limits.log ≡ true }
        ensures { self.new ≡ record self.old { frame = record self.old.frame { log = self.old.frame.log ++ line ∷ [] } } }
    {
        match self.log.push(line) {
            Ok(()) => {}
            Err(_) => unreachable!(),
        }
    }
}
