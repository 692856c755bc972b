ghost use Rattle.std.specs.Prelude.{◌≡◌, ◌<◌, ◌≤◌, ◌-◌, ◌^◌, ℕ, List, Option, OnErr, OnOk, length, count_by, is_some, Some, true, false};
ghost use Rattle.std.specs.Option.{option_map_or};
ghost use Rattle.ix_model.specs.{laws.Sound.{Sound}, rows.{OnProcesses.{fork, has_kept}, Outcomes.{RowIs}}};
ghost use Rattle.ix_model.specs.world.{Contents.{carried}, World.{Process, at, lives, living}};
ghost use Rattle.ix_fcalls.specs.Counted.{IsCounted};
ghost use Rattle.ix_proc.specs.Table.{Adds, child_of, keeps};
ghost use Rattle.ix_machine.specs.Born.{BornIs};

use crate::machine::Machine;
use ix_fcalls::Files;
use ix_model::{Keep, Pid, Refusal, Reply};
use ix_proc::Procs;

impl Machine {
    /// Fork: a child like the caller, with the next pid and the descriptors that are kept.
    #[tactic(auto, using(crate::proofs::Births::forking), unfolding(ix_model::specs::rows::Rows::coding, ix_model::specs::rows::OnProcesses::fork))]
    pub(crate) fn fork(&mut self, pid: Pid, keep: Keep) -> Result<Reply, Refusal>
        requires sound { Sound self.old }
        requires lives { lives self.old.frame pid.0 ≡ true }
        requires few { length self.old.frame.processes < 2 ^ 32 - 1 }
        ensures row { RowIs result self.new.frame (fork pid.0 keep self.old.frame) }
        ensures content { OnOk result (self.new.content ≡ carried self.old.frame self.new.frame self.old.content) }
        ensures same { OnErr result (self.new ≡ self.old) }
    {
        if !keeps(keep, &self.who(pid).fds) {
            return Err(Refusal::BadFd);
        }
        let Some(child) = self.bear(pid, keep) else {
            return Err(Refusal::NoSlot);
        };
        Ok(Reply::Number(child.0 as u64))
    }

    /// A child of a living process; `None`, and nothing has changed, exactly where there is no room.
    fn bear(&mut self, pid: Pid, keep: Keep) -> Option<Pid>
        requires sound { Sound self.old }
        requires few { length self.old.frame.processes < 2 ^ 32 - 1 }
        requires kept { option_map_or (has_kept keep) (living (at self.old.frame.processes pid.0)) false ≡ true }
        ensures { (p : Process) → living (at self.old.frame.processes pid.0) ≡ Some p → BornIs result (child_of pid.0 keep p) self.old self.new }
    {
        add_child(&mut self.files, &mut self.procs, pid, keep)
    }
}

/// Whether the descriptor that is kept alone is one.
fn keeps(keep: Keep, fds: &[Option<u32>; 32]) -> bool
    ensures { result ≡ keeps keep fds.now }
{
    match keep {
        Keep::One(fd) => matches!(fds.get(fd.0 as usize), Some(Some(_))),
        _ => true,
    }
}

/// A child of a living process, which the files count; `None`, and nothing has changed, exactly where there is no room.
fn add_child(files: &mut Files, procs: &mut Procs, parent: Pid, keep: Keep) -> Option<Pid>
    ghost processes: { List (Option Process) }
    requires processes { procs.old.processes ≡ processes }
    requires counted { IsCounted files.old processes }
    requires next { length processes < 2 ^ 32 - 1 }
    requires few { count_by is_some processes ≤ 1024 }
    requires kept { option_map_or (has_kept keep) (living (at processes parent.0)) false ≡ true }
    requires descriptors { (p : ℕ) (q : Process) → at processes p ≡ Some q → length q.fds ≡ 32 }
    requires entries { (p : Process) (fd e : ℕ) → living (at processes parent.0) ≡ Some p → at p.fds fd ≡ Some e → is_some (at files.old.opens e) ≡ true }
    requires home { (p : Process) → living (at processes parent.0) ≡ Some p → p.cwd < length files.old.objects }
    ensures adds { (p : Process) → living (at processes parent.0) ≡ Some p → Adds result (child_of parent.0 keep p) procs.old procs.new }
    ensures counted { IsCounted files.new procs.new.processes }
    ensures rest { files.new ≡ record files.old { owners = files.new.owners; homes = files.new.homes } }
{
    let child = procs.fork(parent, keep)?;
    match procs.get(child) {
        Some(who) => files.take_up(who),
        None => unreachable!(),
    }
    Some(child)
}
