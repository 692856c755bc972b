ghost use Rattle.std.specs.Prelude.{◌≡◌, true, OnErr};
ghost use Rattle.ix_model.specs.{laws.Sound.{Sound}, rows.{OnProcesses.{exec}, Outcomes.{RowIs}}, world.{World.{change, lives}, Paths.{path_of}}};
ghost use Rattle.ix_machine.specs.Restoring.{Restores};

use crate::machine::Machine;
use ix_label::Steps;
use ix_licence::{Privs, after_exec};
use ix_model::{Caller, Kind, Path, Pid, PrivSet, Refusal, Reply};
use std::sync::ledger::Ledger;

impl Machine {
    /// Exec: the file's capabilities become the caller's, and its licences those of the caller's program. A refusal may
    /// have raised the caller's label.
    #[tactic(auto, using(crate::proofs::Restoring::restores_twice), unfolding(ix_model::specs::rows::Rows::coding, ix_model::specs::rows::OnProcesses::exec))]
    pub(crate) fn exec<L: Ledger>(
        &mut self,
        pid: Pid,
        path: &Path<'_>,
        steps: &mut Steps<L>,
    ) -> Result<Reply, Refusal>
        requires sound { Sound self.old }
        requires lives { lives self.old.frame pid.0 ≡ true }
        ensures row { RowIs result self.new.frame (exec pid.0 (path_of path.now) self.old.frame) }
        ensures content { self.new.content ≡ self.old.content }
        ensures back { OnErr result (Restores self.old.frame self.new.frame pid.0) }
    {
        let (obj, x) = self.object_row_at(pid, path, steps)?;
        if matches!(x.kind, Kind::Dir) {
            return Err(Refusal::IsDir);
        }
        self.observe(pid, &x.float.label, steps)?;
        self.take_program(pid, x.cap, x.lic);
        Ok(Reply::Done)
    }

    /// A living process takes a program with these capabilities and licences.
    #[tactic(auto, using(crate::proofs::Rows::program_put))]
    fn take_program(&mut self, pid: Pid, cap: PrivSet, lic: PrivSet)
        requires { lives self.old.frame pid.0 ≡ true }
        ensures { self.new ≡ record self.old { frame = record self.old.frame { processes = change self.old.frame.processes pid.0 (λ q. record q { cap = cap; own = lic }) } } }
    {
        let who = *self.who(pid);
        let was = Privs {
            cap: who.cap,
            lic: who.lic,
            own: who.own,
        };
        let now = after_exec(was, cap, lic);
        self.procs.put(&Caller {
            cap: now.cap,
            lic: now.lic,
            own: now.own,
            ..who
        });
    }
}
