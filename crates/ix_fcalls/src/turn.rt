ghost use Rattle.std.specs.Prelude.{◌≡◌, ◌≤◌, ℕ, List, IsTrue, OnErr, OnOk};
ghost use Rattle.ix_model.specs.{history.{Calls.{op_of}, Step.{step}}, laws.Sound.{Sound}, rows.{Outcomes.{RowIs}, Table.{row, verdict}}};
ghost use Rattle.ix_fcalls.specs.{Around.{frame_of, world_of, with_who}, Calling.{IsCalling}, Counted.{IsCounted}, Moving.{reply_of}, Tested.{IsKnown}};
ghost use Rattle.ix_fcalls.specs.Filed.{Answers, IsLook, Leaves, is_filed, is_plain, lets_go};
ghost use Rattle.ix_fcalls.specs.Telling.{FileThere, TellsOfFile, size_told, told_of, with_size};

use crate::caller_in::{CallerIn, Others};
use crate::files::Files;
use crate::length_checks::{LengthChecks, NOTHING_TOLD};
use crate::moved::Moved;
use ix_label::Steps;
use ix_model::{Buf, Call, Caller, Kind, Obj, Refusal, Reply};
use std::sync::ledger::Ledger;

/// Calls, from their rows to their steps.
impl Files {
    /// The row of a call by a living process.
    #[inline(never)]
    #[tactic(auto, unfolding(ix_model::specs::rows::Table::row, ix_model::specs::rows::OnPaths::create_at, ix_model::specs::rows::OnPaths::make_dir))]
    fn row<R: Others, L: Ledger>(
        &mut self,
        told: LengthChecks,
        who: &mut CallerIn<R>,
        call: &Call<'_>,
        steps: &mut Steps<L>,
    ) -> Result<Reply, Refusal>
        requires filed { IsTrue (is_filed (op_of call.now)) }
        requires sound { Sound (world_of R.rest self.old who.old) }
        requires counted { IsCounted self.old who.old }
        requires few { self.old.limits.procs ≤ 1024 }
        ensures row { RowIs result (frame_of R.rest self.new who.new) (row (told_of told) R.rest.place R.rest.pid (op_of call.now) (frame_of R.rest self.old who.old)) }
        ensures counted { IsCounted self.new who.new }
        ensures back { OnErr result (self.new ≡ self.old) }
        ensures content { OnOk result (Leaves (lets_go (op_of call.now)) R.rest self.old self.new who.old who.new) }
    {
        match call {
            Call::CreateAt { path } => self.make(who, path, Kind::File, steps),
            Call::OpenAt { path, mode } => self.open_at(who, path, *mode, steps),
            Call::ReadFd { fd, count } => self.read_fd(told, who, *fd, *count, steps),
            Call::WriteFd { fd, .. } => self.write_fd(told, who, *fd, steps),
            Call::CutFd { fd, len } => self.cut_fd(told, who, *fd, *len, steps),
            Call::SeekFd { fd, at: offset } => self.seek_fd(who, *fd, *offset, steps),
            Call::DupFd { fd } => self.dup_fd(who, *fd),
            Call::CloseFd { fd } => self.close_fd(who, *fd),
            Call::MakePipe => self.make_pipe(who),
            Call::MakeDir { path } => self.make(who, path, Kind::Dir, steps),
            Call::LinkAt { target, path } => self.link_at(who, target, path, steps),
            Call::UnlinkAt { path } => self.unlink_at(who, path, steps),
            Call::RemoveDir { path } => self.remove_dir(who, path, steps),
            Call::ChangeDir { path } => self.change_dir(who, path, steps),
            Call::StatAt { path } => self.stat_at(who, path, steps),
            Call::ListAt { path, index } => self.list_at(who, path, *index, steps),
            _ => unreachable!(),
        }
    }

    /// A call's reply. A refusal leaves all as it was, but for the raised label where it keeps that.
    #[tactic(auto, unfolding(ix_model::specs::rows::Table::verdict))]
    pub(crate) fn decide<R: Others, L: Ledger>(
        &mut self,
        told: LengthChecks,
        who: &mut CallerIn<R>,
        call: &Call<'_>,
        steps: &mut Steps<L>,
    ) -> Reply
        requires filed { IsTrue (is_filed (op_of call.now)) }
        requires sound { Sound (world_of R.rest self.old who.old) }
        requires counted { IsCounted self.old who.old }
        requires few { self.old.limits.procs ≤ 1024 }
        ensures reply { result ≡ (verdict (told_of told) R.rest.place R.rest.pid (op_of call.now) (frame_of R.rest self.old who.old)).reply }
        ensures frame { frame_of R.rest self.new who.new ≡ (verdict (told_of told) R.rest.place R.rest.pid (op_of call.now) (frame_of R.rest self.old who.old)).frame }
        ensures counted { IsCounted self.new who.new }
        ensures content { Leaves (lets_go (op_of call.now)) R.rest self.old self.new who.old who.new }
    {
        let label = who.caller().float.label;
        match self.row(told, who, call, steps) {
            Ok(reply) => reply,
            Err(why) => {
                if why.keeps_label() {
                    return Reply::No(why);
                }
                who.set_label(label);
                Reply::No(why)
            }
        }
    }

    /// A call that neither looks at what is held nor edits it.
    fn plain<R: Others, L: Ledger>(
        &mut self,
        who: &mut CallerIn<R>,
        call: &Call<'_>,
        steps: &mut Steps<L>,
    ) -> Reply
        requires plain { IsTrue (is_plain (op_of call.now)) }
        requires sound { Sound (world_of R.rest self.old who.old) }
        requires counted { IsCounted self.old who.old }
        requires few { self.old.limits.procs ≤ 1024 }
        ensures step { (buf : List ℕ) → Answers (step (world_of R.rest self.old who.old) R.rest.place R.rest.pid (op_of call.now)) (world_of R.rest self.new who.new) result buf buf }
        ensures counted { IsCounted self.new who.new }
    {
        self.decide(NOTHING_TOLD, who, call, steps)
    }

    /// The size that is told of an object: that of a file, or what is told already.
    fn size_told(&self, obj: Obj, kind: Kind, size: u64) -> u64
        requires { FileThere self.now.objects obj.0 kind }
        ensures { result ≡ size_told self.now.holdings obj.0 kind size }
    {
        match kind {
            Kind::File => self.tables.size(obj.0),
            _ => size,
        }
    }

    /// A reply with the size of the file that it tells of.
    fn sized(&self, reply: Reply) -> Reply
        requires { TellsOfFile self.now.objects reply }
        ensures { result ≡ with_size self.now.holdings reply }
    {
        match reply {
            Reply::Stat {
                obj,
                kind,
                size,
                links,
                frozen,
                cap,
                lic,
            } => {
                let told = self.size_told(obj, kind, size);
                Reply::Stat {
                    obj,
                    kind,
                    size: told,
                    links,
                    frozen,
                    cap,
                    lic,
                }
            }
            other => other,
        }
    }

    /// A look at an object: the decision, and then the size of a file.
    fn look<R: Others, L: Ledger>(
        &mut self,
        who: &mut CallerIn<R>,
        call: &Call<'_>,
        steps: &mut Steps<L>,
    ) -> Reply
        requires look { IsLook (op_of call.now) }
        requires sound { Sound (world_of R.rest self.old who.old) }
        requires counted { IsCounted self.old who.old }
        requires few { self.old.limits.procs ≤ 1024 }
        ensures step { (buf : List ℕ) → Answers (step (world_of R.rest self.old who.old) R.rest.place R.rest.pid (op_of call.now)) (world_of R.rest self.new who.new) result buf buf }
        ensures counted { IsCounted self.new who.new }
    {
        let reply = self.decide(NOTHING_TOLD, who, call, steps);
        self.sized(reply)
    }

    /// A call, as it edits or looks at what is held.
    #[inline(never)]
    fn answer<R: Others, L: Ledger>(
        &mut self,
        who: &mut CallerIn<R>,
        call: &Call<'_>,
        buf: &mut Buf,
        steps: &mut Steps<L>,
    ) -> Reply
        requires filed { IsTrue (is_filed (op_of call.now)) }
        requires sound { Sound (world_of R.rest self.old who.old) }
        requires counted { IsCounted self.old who.old }
        requires few { self.old.limits.procs ≤ 1024 }
        ensures step { Answers (step (world_of R.rest self.old who.old) R.rest.place R.rest.pid (op_of call.now)) (world_of R.rest self.new who.new) result buf.old buf.new }
        ensures counted { IsCounted self.new who.new }
    {
        match call {
            Call::ReadFd { fd, count } => self.read(who, *fd, *count, buf, steps),
            Call::WriteFd { fd, bytes } => self.write(who, *fd, bytes, steps),
            Call::CutFd { fd, len } => self.cut(who, *fd, *len, steps),
            Call::SeekFd { fd, at: offset } => self.seek(who, *fd, *offset, steps),
            Call::StatAt { .. } => self.look(who, call, steps),
            _ => self.plain(who, call, steps),
        }
    }

    /// A read or a write where a look at the labels would change none.
    fn answer_known<R: Others>(
        &mut self,
        who: &CallerIn<R>,
        call: &Call<'_>,
        buf: &mut Buf,
    ) -> Moved
        requires known { IsKnown (frame_of R.rest self.old who.now) R.rest.pid (op_of call.now) }
        requires sound { Sound (world_of R.rest self.old who.now) }
        requires counted { IsCounted self.old who.now }
        ensures step { Answers (step (world_of R.rest self.old who.now) R.rest.place R.rest.pid (op_of call.now)) (world_of R.rest self.new who.now) (reply_of result) buf.old buf.new }
        ensures counted { IsCounted self.new who.now }
    {
        match call {
            Call::ReadFd { fd, count } => self.read_known(who, *fd, *count, buf),
            Call::WriteFd { fd, bytes } => self.write_known(who, *fd, bytes),
            _ => unreachable!(),
        }
    }

    /// The call of a process among the others.
    pub(crate) fn turn<R: Others, L: Ledger>(
        &mut self,
        caller: &mut Caller,
        call: &Call<'_>,
        buf: &mut Buf,
        steps: &mut Steps<L>,
    ) -> Reply
        requires filed { IsTrue (is_filed (op_of call.now)) }
        requires calling { IsCalling R.rest caller.old.pid.0 }
        requires sound { Sound (world_of R.rest self.old (with_who R.rest.processes caller.old)) }
        requires counted { IsCounted self.old (with_who R.rest.processes caller.old) }
        requires few { self.old.limits.procs ≤ 1024 }
        ensures step { Answers (step (world_of R.rest self.old (with_who R.rest.processes caller.old)) R.rest.place R.rest.pid (op_of call.now)) (world_of R.rest self.new (with_who R.rest.processes caller.new)) result buf.old buf.new }
        ensures counted { IsCounted self.new (with_who R.rest.processes caller.new) }
        ensures pid { caller.new.pid.0 ≡ R.rest.pid }
    {
        let mut who = CallerIn::<R>::new(caller);
        let reply = self.answer(&mut who, call, buf, steps);
        *caller = *who.caller();
        reply
    }

    /// The same where a look at the labels would change none: the process stays as it is.
    pub(crate) fn turn_known<R: Others>(
        &mut self,
        caller: &Caller,
        call: &Call<'_>,
        buf: &mut Buf,
    ) -> Moved
        requires calling { IsCalling R.rest caller.now.pid.0 }
        requires known { IsKnown (frame_of R.rest self.old (with_who R.rest.processes caller.now)) R.rest.pid (op_of call.now) }
        requires sound { Sound (world_of R.rest self.old (with_who R.rest.processes caller.now)) }
        requires counted { IsCounted self.old (with_who R.rest.processes caller.now) }
        ensures step { Answers (step (world_of R.rest self.old (with_who R.rest.processes caller.now)) R.rest.place R.rest.pid (op_of call.now)) (world_of R.rest self.new (with_who R.rest.processes caller.now)) (reply_of result) buf.old buf.new }
        ensures counted { IsCounted self.new (with_who R.rest.processes caller.now) }
    {
        let who = CallerIn::<R>::new(caller);
        self.answer_known(&who, call, buf)
    }
}
