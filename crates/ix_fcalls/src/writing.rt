ghost use Rattle.std.specs.Prelude.{◌≡◌, ◌+◌, ◌<◌, ◌≤◌, ◌||◌, OnErr, IfOk, IfErr, ℕ, List, Some, true, false, length, nat_lt};
ghost use Rattle.std.specs.Option.{option_map_or};
ghost use Rattle.ix_model.specs.history.Events as op;
ghost use Rattle.ix_model.specs.{history.{Step.{step}, Freshness.{Writing}}, laws.Sound.{Sound}, rows.Walks.{node}, rows.Outcomes.{RowIs, RowMeans, Refuse}};
ghost use Rattle.ix_model.specs.{rows.OnDescriptors.{write_fd, write_passed}, world.{Contents.{after_write}, World.{at, is_pipe}}};
ghost use Rattle.ix_model.specs.rows.Telling.{nothing_told, told_of_write, told_of_file_write, told_of_pipe_write, length_then};
ghost use Rattle.ix_fresh.specs.Known.{Known};
ghost use Rattle.ix_tables.specs.Views.{object_by};
ghost use Rattle.ix_fcalls.specs.{Tested.{ToWrite}, Around.{frame_of, world_of}, Counted.{IsCounted, Keeps}, Filed.{Answers}, Views.{behind_of}};
ghost use Rattle.ix_fcalls.specs.{Moving.{reply_of}, Serving.{Serves}, Telling.{told_of}};

use crate::caller_in::{CallerIn, Others};
use crate::files::Files;
use crate::length_checks::{LengthChecks, NOTHING_TOLD};
use crate::moved::Moved;
use crate::open_file::OpenFile;
use ix_label::Steps;
use ix_model::{Call, Fd, Mode, Refusal, Reply};
use ix_tables::ObjectRow;
use std::sync::ledger::Ledger;

/// Writes through a descriptor.
impl Files {
    /// What WriteFd writes through and to, where it passes the tests before its look at a label.
    #[inline(always)]
    #[tactic(auto, unfolding(ix_model::specs::rows::Rows::coding, ix_model::specs::rows::Walks::opened, ix_model::specs::rows::OnDescriptors::write_fd))]
    fn to_write<R: Others>(
        &self,
        told: LengthChecks,
        who: &CallerIn<R>,
        fd: Fd,
    ) -> Result<(OpenFile, ObjectRow), Refusal>
        requires sound { Sound (world_of R.rest self.now who.now) }
        ensures passed { IfOk result (λ b. ToWrite (told_of told) (frame_of R.rest self.now who.now) R.rest.pid fd.0 (behind_of b.0) (object_by (node self.now.objects b.0.object) b.1)) }
        ensures refused { IfErr result (λ why. write_fd (told_of told) R.rest.pid fd.0 (frame_of R.rest self.now who.now) ≡ Refuse why (frame_of R.rest self.now who.now)) }
    {
        let e = self.behind(who, fd).ok_or(Refusal::BadFd)?;
        if !matches!(e.mode, Mode::Write | Mode::Both) {
            return Err(Refusal::NotWritable);
        }
        let Some(x) = self.tables.object(e.object) else {
            return Err(Refusal::BadFd);
        };
        if self.is_claimed_by_another(who, &e) {
            return Err(Refusal::PexHeld);
        }
        if told.too_big {
            return Err(Refusal::TooBig);
        }
        if x.is_trusted() {
            return Err(Refusal::Trusted);
        }
        if x.is_pipe() && !self.is_held_there(&e) {
            return Err(Refusal::Broken);
        }
        if told.full {
            return Err(Refusal::PipeFull);
        }
        if told.no_space {
            return Err(Refusal::NoSpace);
        }
        Ok((e, x))
    }

    /// WriteFd: its tests, and the floating of the object's label and of the open entry's. The bytes, and their number in
    /// the reply, come later.
    #[tactic(auto, using(crate::proofs::Marking::marking))]
    pub(crate) fn write_fd<R: Others, L: Ledger>(
        &mut self,
        told: LengthChecks,
        who: &mut CallerIn<R>,
        fd: Fd,
        steps: &mut Steps<L>,
    ) -> Result<Reply, Refusal>
        requires sound { Sound (world_of R.rest self.old who.old) }
        requires counted { IsCounted self.old who.old }
        ensures row { RowIs result (frame_of R.rest self.new who.new) (write_fd (told_of told) R.rest.pid fd.0 (frame_of R.rest self.old who.old)) }
        ensures counted { IsCounted self.new who.new }
        ensures back { OnErr result (self.new ≡ self.old) }
        ensures kept { Keeps self.old self.new }
    {
        let (e, x) = self.to_write(told, who, fd)?;
        let label = who.caller().float.label;
        self.affect(who, e.object, &e.label, steps)?;
        if x.is_pipe() {
            return Ok(Reply::Number(0));
        }
        self.float_entry(e.id, &label, steps);
        Ok(Reply::Number(0))
    }

    /// The tests of WriteFd where a look at the labels would change none: all but that look.
    fn write_fd_known<R: Others>(
        &self,
        told: LengthChecks,
        who: &CallerIn<R>,
        fd: Fd,
    ) -> Result<(), Refusal>
        requires sound { Sound (world_of R.rest self.now who.now) }
        requires known { Known Writing (frame_of R.rest self.now who.now) R.rest.pid fd.0 }
        ensures row { RowMeans (λ u. write_passed) result (frame_of R.rest self.now who.now) (write_fd (told_of told) R.rest.pid fd.0 (frame_of R.rest self.now who.now)) }
    {
        self.to_write(told, who, fd)?;
        Ok(())
    }

    /// What the lengths tell of a write to a file.
    fn told_of_file_write<R: Others>(
        &self,
        who: &CallerIn<R>,
        e: &OpenFile,
        n: usize,
    ) -> LengthChecks
        requires serves { Serves self.now e.now }
        requires file { option_map_or is_pipe (at self.now.objects e.now.object) false ≡ false }
        ensures { told_of result ≡ told_of_file_write (frame_of R.rest self.now who.now) (world_of R.rest self.now who.now).content (behind_of e.now) n }
    {
        let _ = who;
        if is_too_big(e.offset, n) {
            return LengthChecks {
                too_big: true,
                ..NOTHING_TOLD
            };
        }
        let old = self.tables.size(e.object);
        let len = length_then(e.offset, n, old);
        let room = self.tables.has_room(e.object, len);
        LengthChecks {
            no_space: !room,
            ..NOTHING_TOLD
        }
    }

    /// What the lengths tell of a write.
    fn told_of_write<R: Others>(&self, who: &CallerIn<R>, e: &OpenFile, n: usize) -> LengthChecks
        requires { Serves self.now e.now }
        ensures { told_of result ≡ told_of_write (frame_of R.rest self.now who.now) (world_of R.rest self.now who.now).content n (Some (behind_of e.now)) }
    {
        if self.is_on_pipe(e) {
            let other = 1u8.saturating_sub(e.end);
            let there = self.tables.left(e.object, other);
            return told_of_pipe_write(there, n);
        }
        self.told_of_file_write(who, e, n)
    }

    /// Writes bytes through an open entry, which has room for them: at the offset of a file, which moves past them, or to
    /// what the pipe's other end can read.
    fn write_bytes<R: Others>(&mut self, who: &CallerIn<R>, e: &OpenFile, bytes: &[u8])
        requires serves { Serves self.old e.now }
        requires room { told_of_write (frame_of R.rest self.old who.now) (world_of R.rest self.old who.now).content (length bytes.now) (Some (behind_of e.now)) ≡ nothing_told }
        requires counted { IsCounted self.old who.now }
        ensures frame { frame_of R.rest self.new who.now ≡ frame_of R.rest self.old who.now }
        ensures content { (world_of R.rest self.new who.now).content ≡ after_write (frame_of R.rest self.old who.now) (behind_of e.now) bytes.now (world_of R.rest self.old who.now).content }
        ensures counted { IsCounted self.new who.now }
    {
        let _ = who;
        if self.is_on_pipe(e) {
            self.tables.append(e.object, e.end, bytes);
            return;
        }
        let n = bytes.len() as u32;
        let past = e.offset + n;
        self.tables.write(e.object, e.offset as u64, bytes);
        self.tables.seek(e.id, past);
    }

    /// A write: the decision, and then the bytes.
    pub(crate) fn write<R: Others, L: Ledger>(
        &mut self,
        who: &mut CallerIn<R>,
        fd: Fd,
        bytes: &[u8],
        steps: &mut Steps<L>,
    ) -> Reply
        requires sound { Sound (world_of R.rest self.old who.old) }
        requires counted { IsCounted self.old who.old }
        requires few { self.old.limits.procs ≤ 1024 }
        ensures step { (buf : List ℕ) → Answers (step (world_of R.rest self.old who.old) R.rest.place R.rest.pid (op.WriteFd fd.0 bytes.now)) (world_of R.rest self.new who.new) result buf buf }
        ensures counted { IsCounted self.new who.new }
    {
        let call = Call::WriteFd { fd, bytes };
        let Some(e) = self.behind(who, fd) else {
            return self.decide(NOTHING_TOLD, who, &call, steps);
        };
        let told = self.told_of_write(who, &e, bytes.len());
        match self.decide(told, who, &call, steps) {
            Reply::Number(_) => {
                self.write_bytes(who, &e, bytes);
                Reply::Number(bytes.len() as u64)
            }
            reply => reply,
        }
    }

    /// A write where a look at the labels would change none: its tests, and then the bytes.
    pub(crate) fn write_known<R: Others>(
        &mut self,
        who: &CallerIn<R>,
        fd: Fd,
        bytes: &[u8],
    ) -> Moved
        requires sound { Sound (world_of R.rest self.old who.now) }
        requires counted { IsCounted self.old who.now }
        requires known { Known Writing (frame_of R.rest self.old who.now) R.rest.pid fd.0 }
        ensures step { (buf : List ℕ) → Answers (step (world_of R.rest self.old who.now) R.rest.place R.rest.pid (op.WriteFd fd.0 bytes.now)) (world_of R.rest self.new who.now) (reply_of result) buf buf }
        ensures counted { IsCounted self.new who.now }
    {
        let Some(e) = self.behind(who, fd) else {
            unreachable!()
        };
        let told = self.told_of_write(who, &e, bytes.len());
        match self.write_fd_known(told, who, fd) {
            Ok(()) => {
                self.write_bytes(who, &e, bytes);
                Moved::Written(bytes.len() as u64)
            }
            Err(why) => Moved::No(why),
        }
    }
}

/// Whether a write of `n` bytes at an offset is too big: more than 4,096 bytes, or past 1,048,576.
fn is_too_big(offset: u32, n: usize) -> bool
    ensures { result ≡ (nat_lt 4096 n || nat_lt 1048576 (offset + n)) }
{
    n > 4096 || offset as usize + n > 1048576
}

/// The length of a file of `old` bytes once `n` bytes stand at an offset.
fn length_then(offset: u32, n: usize, old: u64) -> u64
    requires { n ≤ 4096 }
    ensures { result ≡ length_then offset n old }
{
    if n == 0 {
        old
    } else {
        old.max(offset as u64 + n as u64)
    }
}

/// What the lengths tell of a write of `n` bytes to a pipe that holds so many.
fn told_of_pipe_write(there: u32, n: usize) -> LengthChecks
    requires { there ≤ 4096 }
    ensures { told_of result ≡ told_of_pipe_write there n }
{
    let left = 4096 - there as usize;
    LengthChecks {
        too_big: n > 4096,
        full: n > left,
        ..NOTHING_TOLD
    }
}
