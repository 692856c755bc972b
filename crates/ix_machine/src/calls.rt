ghost use Rattle.std.specs.Prelude.{◌≡◌, ◌<◌, ◌-◌, ◌^◌, ℕ, List, IsTrue, OnErr, length, true};
ghost use Rattle.ix_model.specs.{history.{Calls.{op_of}, Step.{step}}, laws.Sound.{Sound}, world.World.{lives}};
ghost use Rattle.ix_model.specs.rows.{Outcomes.{RowIs}, Table.{row, verdict}, Telling.{nothing_told}};
ghost use Rattle.ix_model.specs.history.Events as op;
ghost use Rattle.ix_fcalls.specs.{Around.{Moment}, Filed.{Answers, is_filed}, Moving.{reply_of}, Tested.{IsKnown}};
ghost use Rattle.ix_machine.specs.{OwnCalls.{is_tested}, Restoring.{Restores}};

use crate::machine::Machine;
use ix_fcalls::Moved;
use ix_label::Steps;
use ix_model::{Buf, Call, Pid, Refusal, Reply};
use std::sync::ledger::Ledger;

impl Machine {
    /// One step of the machine: the call of a process, at a place of the history, from 1. It takes no memory. It asks that the
    /// machine's world is sound, and that a pid is left.
    ///
    /// A refusal is a reply too. The bytes that were read are at the front of the buffer, whose rest stays.
    #[inline(never)]
    #[tactic(auto, using(crate::proofs::Stepped::dead_step))]
    pub fn call<L: Ledger>(
        &mut self,
        place: u32,
        pid: Pid,
        call: &Call<'_>,
        buf: &mut Buf,
        steps: &mut Steps<L>,
    ) -> Reply
        requires sound { Sound self.old }
        requires few { length self.old.frame.processes < 2 ^ 32 - 1 }
        ensures { Answers (step self.old place pid.0 (op_of call.now)) self.new result buf.old buf.new }
    {
        if !self.lives(pid) {
            return Reply::No(Refusal::NoProcess);
        }
        if is_filed(call) {
            return self.filed(place, pid, call, buf, steps);
        }
        match call {
            Call::Fork { keep } => self.forked(place, pid, *keep, buf),
            Call::Exit { status } => self.exited(place, pid, *status, buf),
            Call::WaitChild => self.waited(place, pid, buf, steps),
            Call::Pex { fd } => self.pexed(place, pid, *fd, buf),
            Call::SelfLabel => self.told_label(pid),
            _ => self.own(place, pid, call, buf, steps),
        }
    }

    /// One step of the machine: a read or a write by a process, at a place of the history, through a descriptor of which it is
    /// known that a look at the labels would change none. It looks at no label, and takes no memory.
    pub fn call_fresh(&mut self, place: u32, pid: Pid, call: &Call<'_>, buf: &mut Buf) -> Moved
        requires sound { Sound self.old }
        requires known { IsKnown self.old.frame pid.0 (op_of call.now) }
        ensures { Answers (step self.old place pid.0 (op_of call.now)) self.new (reply_of result) buf.old buf.new }
    {
        self.filed_known(place, pid, call, buf)
    }

    /// The same, as the files answer it.
    fn filed_known(&mut self, place: u32, pid: Pid, call: &Call<'_>, buf: &mut Buf) -> Moved
        ghost moment: { Moment }
        requires world { self.old ≡ moment.world }
        requires place { place ≡ moment.place }
        requires sound { Sound moment.world }
        requires known { IsKnown moment.world.frame pid.0 (op_of call.now) }
        ensures { Answers (step moment.world moment.place pid.0 (op_of call.now)) self.new (reply_of result) buf.old buf.new }
    {
        let _ = place;
        let who = *self.who(pid);
        self.files.call_fresh(&who, call, buf)
    }

    /// A call that the files answer.
    #[tactic(auto, using(crate::proofs::Moved::parts_joined))]
    fn filed<L: Ledger>(
        &mut self,
        place: u32,
        pid: Pid,
        call: &Call<'_>,
        buf: &mut Buf,
        steps: &mut Steps<L>,
    ) -> Reply
        ghost moment: { Moment }
        requires world { self.old ≡ moment.world }
        requires place { place ≡ moment.place }
        requires sound { Sound moment.world }
        requires filed { IsTrue (is_filed (op_of call.now)) }
        requires lives { lives self.old.frame pid.0 ≡ true }
        ensures { Answers (step moment.world moment.place pid.0 (op_of call.now)) self.new result buf.old buf.new }
    {
        let _ = place;
        let mut who = *self.who(pid);
        let reply = self.files.call(&mut who, call, buf, steps);
        self.procs.put(&who);
        reply
    }

    /// One step of the machine: a look of a process at its own label, by which the world stays as it is. It looks at no other
    /// label, and takes no memory. `NoProcess` exactly where the process doesn't live.
    #[inline(always)]
    pub fn told_label(&self, pid: Pid) -> Reply
        requires { Sound self.now }
        ensures { (place : ℕ) (buf : List ℕ) → Answers (step self.now place pid.0 op.SelfLabel) self.now result buf buf }
    {
        if !self.lives(pid) {
            return Reply::No(Refusal::NoProcess);
        }
        self.self_label(pid)
    }

    /// A call that leaves what the world holds, and may be refused.
    #[tactic(auto, using(crate::proofs::Stepped::still_answers))]
    fn own<L: Ledger>(
        &mut self,
        place: u32,
        pid: Pid,
        call: &Call<'_>,
        buf: &Buf,
        steps: &mut Steps<L>,
    ) -> Reply
        requires sound { Sound self.old }
        requires tested { IsTrue (is_tested (op_of call.now)) }
        requires lives { lives self.old.frame pid.0 ≡ true }
        ensures { Answers (step self.old place pid.0 (op_of call.now)) self.new result buf.now buf.now }
    {
        let _ = buf;
        self.decide(place, pid, call, steps)
    }

    /// The reply of such a call. A refusal leaves all as it was, but for the raised label where it keeps that.
    #[tactic(auto, unfolding(ix_model::specs::rows::Table::verdict))]
    fn decide<L: Ledger>(
        &mut self,
        place: u32,
        pid: Pid,
        call: &Call<'_>,
        steps: &mut Steps<L>,
    ) -> Reply
        requires sound { Sound self.old }
        requires tested { IsTrue (is_tested (op_of call.now)) }
        requires lives { lives self.old.frame pid.0 ≡ true }
        ensures reply { result ≡ (verdict nothing_told place pid.0 (op_of call.now) self.old.frame).reply }
        ensures frame { self.new.frame ≡ (verdict nothing_told place pid.0 (op_of call.now) self.old.frame).frame }
        ensures content { self.new.content ≡ self.old.content }
    {
        let label = self.who(pid).float.label;
        match self.row(place, pid, call, steps) {
            Ok(reply) => reply,
            Err(why) => {
                if why.keeps_label() {
                    return Reply::No(why);
                }
                self.set_process_label(pid, label);
                Reply::No(why)
            }
        }
    }

    /// The row of such a call.
    #[inline(never)]
    #[tactic(auto, unfolding(ix_model::specs::rows::Table::row))]
    fn row<L: Ledger>(
        &mut self,
        place: u32,
        pid: Pid,
        call: &Call<'_>,
        steps: &mut Steps<L>,
    ) -> Result<Reply, Refusal>
        requires sound { Sound self.old }
        requires tested { IsTrue (is_tested (op_of call.now)) }
        requires lives { lives self.old.frame pid.0 ≡ true }
        ensures row { RowIs result self.new.frame (row nothing_told place pid.0 (op_of call.now) self.old.frame) }
        ensures content { self.new.content ≡ self.old.content }
        ensures back { OnErr result (Restores self.old.frame self.new.frame pid.0) }
    {
        match call {
            Call::Exec { path } => self.exec(pid, path, steps),
            Call::LabelOf { path } => self.label_of(pid, path, steps),
            Call::SetLabel { path, label } => self.set_label(place, pid, path, label, steps),
            Call::SetSelf { label } => self.set_self(place, pid, label, steps),
            Call::Freeze { path } => self.freeze(pid, path, steps),
            Call::FreezeSelf => self.freeze_self(pid),
            Call::Thaw { path } => self.thaw(place, pid, path, steps),
            Call::ThawSelf => self.thaw_self(place, pid),
            Call::SetPriv { path, cap, lic } => self.set_priv(place, pid, path, *cap, *lic, steps),
            Call::DropLic { set } => self.drop_lic(pid, *set),
            Call::GrantLic { pid: target, set } => self.grant_lic(place, pid, *target, *set),
            Call::SetCeiling { pid: target, label } => {
                self.set_ceiling(place, pid, *target, label, steps)
            }
            Call::Unpex { fd } => self.unpex(pid, *fd),
            Call::ReadLog { index } => self.read_log(place, pid, *index),
            _ => unreachable!(),
        }
    }
}

/// Whether the files answer a call.
fn is_filed(call: &Call<'_>) -> bool
    ensures { result ≡ is_filed (op_of call.now) }
{
    matches!(
        call,
        Call::CreateAt { .. }
            | Call::OpenAt { .. }
            | Call::ReadFd { .. }
            | Call::WriteFd { .. }
            | Call::CutFd { .. }
            | Call::SeekFd { .. }
            | Call::DupFd { .. }
            | Call::CloseFd { .. }
            | Call::MakePipe
            | Call::MakeDir { .. }
            | Call::LinkAt { .. }
            | Call::UnlinkAt { .. }
            | Call::RemoveDir { .. }
            | Call::ChangeDir { .. }
            | Call::StatAt { .. }
            | Call::ListAt { .. }
    )
}
