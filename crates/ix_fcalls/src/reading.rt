ghost use Rattle.std.specs.Prelude.{◌≡◌, ◌<◌, ◌≤◌, ◌-◌, ◌&&◌, OnErr, IfOk, IfErr, Some, true, false, length, take, drop, slice_index_or, slice_set};
ghost use Rattle.std.specs.Option.{option_map_or};
ghost use Rattle.ix_model.specs.history.Events as op;
ghost use Rattle.ix_model.specs.{history.{Step.{step, put_front}, Freshness.{Reading}}, laws.Sound.{Sound}};
ghost use Rattle.ix_model.specs.rows.{Outcomes.{RowIs, RowMeans}, OnDescriptors.{read_fd, read_passed}, Telling.{told_of_read}, Walks.{node}};
ghost use Rattle.ix_model.specs.world.{Contents.{readable, after_read, holds_nothing, side, with_side}, World.{at, held, is_file, is_pipe, may_read}};
ghost use Rattle.ix_fresh.specs.Known.{Known};
ghost use Rattle.ix_tables.specs.Views.{object_by};
ghost use Rattle.ix_fcalls.specs.{Tested.{ToRead, RefusesRead}, Around.{frame_of, world_of}, Counted.{IsCounted, Keeps}, Filed.{Answers}, Views.{behind_of}};
ghost use Rattle.ix_fcalls.specs.{Moving.{reply_of}, Serving.{Serves}, Telling.{told_of}};

use crate::caller_in::{CallerIn, Others};
use crate::files::Files;
use crate::length_checks::{LengthChecks, NOTHING_TOLD};
use crate::moved::Moved;
use crate::open_file::OpenFile;
use ix_label::Steps;
use ix_model::{Buf, Call, Fd, Mode, Refusal, Reply};
use ix_tables::ObjectRow;
use std::sync::ledger::Ledger;

/// Reads through a descriptor.
impl Files {
    /// What ReadFd reads through and from, where it passes the tests before its look at a label.
    #[inline(always)]
    #[tactic(auto, unfolding(ix_model::specs::rows::Rows::coding, ix_model::specs::rows::Walks::opened, ix_model::specs::rows::OnDescriptors::read_fd))]
    fn to_read<R: Others>(
        &self,
        who: &CallerIn<R>,
        fd: Fd,
        count: u32,
    ) -> Result<(OpenFile, ObjectRow), Refusal>
        requires sound { Sound (world_of R.rest self.now who.now) }
        ensures passed { IfOk result (λ b. ToRead (frame_of R.rest self.now who.now) R.rest.pid fd.0 count (behind_of b.0) (object_by (node self.now.objects b.0.object) b.1)) }
        ensures refused { IfErr result (λ why. RefusesRead (frame_of R.rest self.now who.now) R.rest.pid fd.0 count why) }
    {
        let e = self.behind(who, fd).ok_or(Refusal::BadFd)?;
        if !reads(e.mode) {
            return Err(Refusal::NotReadable);
        }
        let Some(x) = self.tables.object(e.object) else {
            return Err(Refusal::BadFd);
        };
        if self.is_claimed_by_another(who, &e) {
            return Err(Refusal::PexHeld);
        }
        if count > 4096 {
            return Err(Refusal::TooBig);
        }
        Ok((e, x))
    }

    /// ReadFd: its tests, and the floating of the caller's label and of the open entry's. The bytes, and their number in
    /// the reply, come later.
    pub(crate) fn read_fd<R: Others, L: Ledger>(
        &mut self,
        told: LengthChecks,
        who: &mut CallerIn<R>,
        fd: Fd,
        count: u32,
        steps: &mut Steps<L>,
    ) -> Result<Reply, Refusal>
        requires sound { Sound (world_of R.rest self.old who.old) }
        requires counted { IsCounted self.old who.old }
        ensures row { RowIs result (frame_of R.rest self.new who.new) (read_fd (told_of told) R.rest.pid fd.0 count (frame_of R.rest self.old who.old)) }
        ensures counted { IsCounted self.new who.new }
        ensures back { OnErr result (self.new ≡ self.old) }
        ensures kept { Keeps self.old self.new }
    {
        let (e, x) = self.to_read(who, fd, count)?;
        let seen = x.float.label.join(&e.label, steps);
        self.observe(who, &seen, steps)?;
        if self.has_to_wait(told, &e, &x) {
            return Err(Refusal::Again);
        }
        let label = who.caller().float.label;
        if x.is_pipe() {
            return Ok(Reply::Bytes(0));
        }
        self.float_entry(e.id, &label, steps);
        Ok(Reply::Bytes(0))
    }

    /// The tests of ReadFd where a look at the labels would change none: all but that look.
    fn read_fd_known<R: Others>(
        &self,
        told: LengthChecks,
        who: &CallerIn<R>,
        fd: Fd,
        count: u32,
    ) -> Result<(), Refusal>
        requires sound { Sound (world_of R.rest self.now who.now) }
        requires known { Known Reading (frame_of R.rest self.now who.now) R.rest.pid fd.0 }
        ensures row { RowMeans (λ u. read_passed) result (frame_of R.rest self.now who.now) (read_fd (told_of told) R.rest.pid fd.0 count (frame_of R.rest self.now who.now)) }
    {
        let (e, x) = self.to_read(who, fd, count)?;
        if self.has_to_wait(told, &e, &x) {
            return Err(Refusal::Again);
        }
        Ok(())
    }

    /// Whether a read of a pipe has to wait: there is nothing to read, and some open entry is on the other end.
    fn has_to_wait(&self, told: LengthChecks, e: &OpenFile, x: &ObjectRow) -> bool
        ensures { result ≡ (is_pipe (object_by (node self.now.objects e.now.object) x.now) && told.empty && held self.now.opens e.now.object (1 - e.now.end)) }
    {
        if !x.is_pipe() {
            return false;
        }
        told.empty && self.is_held_there(e)
    }

    /// What the lengths tell of a read: whether there is nothing left.
    fn told_of_read<R: Others>(&self, who: &CallerIn<R>, e: &OpenFile) -> LengthChecks
        requires { Serves self.now e.now }
        ensures { told_of result ≡ told_of_read (frame_of R.rest self.now who.now) (world_of R.rest self.now who.now).content (Some (behind_of e.now)) }
    {
        let _ = who;
        if self.is_on_pipe(e) {
            let there = self.tables.left(e.object, e.end);
            return LengthChecks {
                empty: there == 0,
                ..NOTHING_TOLD
            };
        }
        let held = self.tables.size(e.object);
        LengthChecks {
            empty: held <= e.offset as u64,
            ..NOTHING_TOLD
        }
    }

    /// Copies what a file holds from an offset on, up to the count, to the front of the buffer, and answers how many bytes
    /// that is.
    fn copy_bytes(&self, object: u32, offset: u32, count: u32, buf: &mut Buf) -> u32
        requires file { option_map_or is_file (at self.now.objects object) false ≡ true }
        requires few { count ≤ 4096 }
        ensures count { result ≡ length (take count (drop offset (slice_index_or self.now.holdings object holds_nothing).first)) }
        ensures few { result ≤ 4096 }
        ensures bytes { buf.new ≡ put_front (take count (drop offset (slice_index_or self.now.holdings object holds_nothing).first)) buf.old }
    {
        self.tables
            .read(object, offset as u64, &mut buf[..count as usize]) as u32
    }

    /// Takes what an end of a pipe can read, up to the count, to the front of the buffer, and answers how many bytes that
    /// is.
    fn take_bytes(&mut self, object: u32, end: u8, count: u32, buf: &mut Buf) -> u32
        requires pipe { is_pipe (node self.old.objects object) ≡ true }
        requires end { end < 2 }
        requires few { count ≤ 4096 }
        ensures count { result ≡ length (take count (side end (slice_index_or self.old.holdings object holds_nothing))) }
        ensures bytes { buf.new ≡ put_front (take count (side end (slice_index_or self.old.holdings object holds_nothing))) buf.old }
        ensures rest { self.new ≡ record self.old { holdings = slice_set self.old.holdings object (with_side end (drop result (side end (slice_index_or self.old.holdings object holds_nothing))) (slice_index_or self.old.holdings object holds_nothing)) } }
    {
        self.tables.take(object, end, &mut buf[..count as usize]) as u32
    }

    /// Reads what there is behind an open entry, up to the count, into the front of the buffer, and answers how many bytes
    /// that is. They leave a pipe; a file's offset moves past them.
    fn read_bytes<R: Others>(
        &mut self,
        who: &CallerIn<R>,
        e: &OpenFile,
        count: u32,
        buf: &mut Buf,
    ) -> u32
        requires serves { Serves self.old e.now }
        requires few { count ≤ 4096 }
        requires counted { IsCounted self.old who.now }
        ensures count { result ≡ length (take count (readable (frame_of R.rest self.old who.now) (world_of R.rest self.old who.now).content (behind_of e.now))) }
        ensures bytes { buf.new ≡ put_front (take count (readable (frame_of R.rest self.old who.now) (world_of R.rest self.old who.now).content (behind_of e.now))) buf.old }
        ensures frame { frame_of R.rest self.new who.now ≡ frame_of R.rest self.old who.now }
        ensures content { (world_of R.rest self.new who.now).content ≡ after_read (frame_of R.rest self.old who.now) (behind_of e.now) result (world_of R.rest self.old who.now).content }
        ensures counted { IsCounted self.new who.now }
    {
        let _ = who;
        if self.is_on_pipe(e) {
            return self.take_bytes(e.object, e.end, count, buf);
        }
        let k = self.copy_bytes(e.object, e.offset, count, buf);
        let past = e.offset + k;
        self.tables.seek(e.id, past);
        k
    }

    /// A read: the decision, and then the bytes into the front of the buffer.
    pub(crate) fn read<R: Others, L: Ledger>(
        &mut self,
        who: &mut CallerIn<R>,
        fd: Fd,
        count: u32,
        buf: &mut Buf,
        steps: &mut Steps<L>,
    ) -> Reply
        requires sound { Sound (world_of R.rest self.old who.old) }
        requires counted { IsCounted self.old who.old }
        requires few { self.old.limits.procs ≤ 1024 }
        ensures step { Answers (step (world_of R.rest self.old who.old) R.rest.place R.rest.pid (op.ReadFd fd.0 count)) (world_of R.rest self.new who.new) result buf.old buf.new }
        ensures counted { IsCounted self.new who.new }
    {
        let call = Call::ReadFd { fd, count };
        let Some(e) = self.behind(who, fd) else {
            return self.decide(NOTHING_TOLD, who, &call, steps);
        };
        let told = self.told_of_read(who, &e);
        match self.decide(told, who, &call, steps) {
            Reply::Bytes(_) => Reply::Bytes(self.read_bytes(who, &e, count, buf)),
            reply => reply,
        }
    }

    /// A read where a look at the labels would change none: its tests, and then the bytes into the front of the buffer.
    pub(crate) fn read_known<R: Others>(
        &mut self,
        who: &CallerIn<R>,
        fd: Fd,
        count: u32,
        buf: &mut Buf,
    ) -> Moved
        requires sound { Sound (world_of R.rest self.old who.now) }
        requires counted { IsCounted self.old who.now }
        requires known { Known Reading (frame_of R.rest self.old who.now) R.rest.pid fd.0 }
        ensures step { Answers (step (world_of R.rest self.old who.now) R.rest.place R.rest.pid (op.ReadFd fd.0 count)) (world_of R.rest self.new who.now) (reply_of result) buf.old buf.new }
        ensures counted { IsCounted self.new who.now }
    {
        let Some(e) = self.behind(who, fd) else {
            unreachable!()
        };
        let told = self.told_of_read(who, &e);
        match self.read_fd_known(told, who, fd, count) {
            Ok(()) => Moved::Read(self.read_bytes(who, &e, count, buf)),
            Err(why) => Moved::No(why),
        }
    }
}

/// Whether a descriptor of that mode may read.
fn reads(mode: Mode) -> bool
    ensures { result ≡ may_read mode }
{
    matches!(mode, Mode::Read | Mode::Both)
}
