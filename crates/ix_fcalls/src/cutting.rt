ghost use Rattle.std.specs.{Prelude.{◌≡◌, ◌≤◌, ◌||◌, OnErr, ℕ, List, Some, false, nat_lt}, Option.{option_map_or}};
ghost use Rattle.ix_model.specs.history.Events as op;
ghost use Rattle.ix_model.specs.{history.Step.{step}, laws.Sound.{Sound}, world.{Contents.{after_cut}, World.{at, is_pipe}}};
ghost use Rattle.ix_model.specs.rows.{Outcomes.{RowIs}, OnDescriptors.{cut_fd, seek_fd}, Telling.{nothing_told, told_of_cut}};
ghost use Rattle.ix_fcalls.specs.{Around.{frame_of, world_of}, Counted.{IsCounted, Keeps}, Filed.{Answers}, Views.{behind_of}, Serving.{Serves}};
ghost use Rattle.ix_fcalls.specs.Telling.{told_of};

use crate::caller_in::{CallerIn, Others};
use crate::files::Files;
use crate::length_checks::{LengthChecks, NOTHING_TOLD};
use crate::open_file::OpenFile;
use ix_label::{Label, Steps};
use ix_model::{Call, Fd, Mode, Refusal, Reply};
use std::sync::ledger::Ledger;

/// Cuts of files to a length, and seeks in them.
impl Files {
    /// CutFd: its tests, and the floating of the file's label. The bytes come later.
    #[tactic(auto, unfolding(ix_model::specs::rows::Rows::coding, ix_model::specs::rows::Walks::opened, ix_model::specs::rows::OnDescriptors::cut_fd))]
    pub(crate) fn cut_fd<R: Others, L: Ledger>(
        &mut self,
        told: LengthChecks,
        who: &mut CallerIn<R>,
        fd: Fd,
        len: u32,
        steps: &mut Steps<L>,
    ) -> Result<Reply, Refusal>
        requires counted { IsCounted self.old who.old }
        ensures row { RowIs result (frame_of R.rest self.new who.new) (cut_fd (told_of told) R.rest.pid fd.0 len (frame_of R.rest self.old who.old)) }
        ensures counted { IsCounted self.new who.new }
        ensures back { OnErr result (self.new ≡ self.old) }
        ensures kept { Keeps self.old self.new }
    {
        let e = self.behind(who, fd).ok_or(Refusal::BadFd)?;
        if !matches!(e.mode, Mode::Write | Mode::Both) {
            return Err(Refusal::NotWritable);
        }
        let Some(x) = self.tables.object(e.object) else {
            return Err(Refusal::BadFd);
        };
        if x.is_pipe() {
            return Err(Refusal::IsPipe);
        }
        if len > 1048576 {
            return Err(Refusal::TooBig);
        }
        if x.is_trusted() {
            return Err(Refusal::Trusted);
        }
        if told.no_space {
            return Err(Refusal::NoSpace);
        }
        self.affect(who, e.object, &Label::bottom(), steps)?;
        Ok(Reply::Done)
    }

    /// SeekFd: its tests, and the floating of the open entry's label. The offset comes later.
    #[tactic(auto, unfolding(ix_model::specs::rows::Rows::coding, ix_model::specs::rows::Walks::opened, ix_model::specs::rows::OnDescriptors::float_entry, ix_model::specs::rows::OnDescriptors::seek_fd))]
    pub(crate) fn seek_fd<R: Others, L: Ledger>(
        &mut self,
        who: &mut CallerIn<R>,
        fd: Fd,
        offset: u32,
        steps: &mut Steps<L>,
    ) -> Result<Reply, Refusal>
        requires counted { IsCounted self.old who.old }
        ensures row { RowIs result (frame_of R.rest self.new who.new) (seek_fd R.rest.pid fd.0 offset (frame_of R.rest self.old who.old)) }
        ensures counted { IsCounted self.new who.new }
        ensures back { OnErr result (self.new ≡ self.old) }
        ensures kept { Keeps self.old self.new }
    {
        let e = self.behind(who, fd).ok_or(Refusal::BadFd)?;
        let Some(x) = self.tables.object(e.object) else {
            return Err(Refusal::BadFd);
        };
        if x.is_pipe() {
            return Err(Refusal::IsPipe);
        }
        if offset > 1048576 {
            return Err(Refusal::TooBig);
        }
        self.float_entry(e.id, &who.caller().float.label, steps);
        Ok(Reply::Done)
    }

    /// What the length tells of a cut of a file.
    fn told_of_cut<R: Others>(&self, who: &CallerIn<R>, e: &OpenFile, len: u32) -> LengthChecks
        requires serves { Serves self.now e.now }
        requires file { option_map_or is_pipe (at self.now.objects e.now.object) false ≡ false }
        requires most { len ≤ 1048576 }
        ensures { told_of result ≡ told_of_cut (frame_of R.rest self.now who.now) (world_of R.rest self.now who.now).content len (Some (behind_of e.now)) }
    {
        let _ = who;
        let room = self.tables.has_room(e.object, len as u64);
        LengthChecks {
            no_space: !room,
            ..NOTHING_TOLD
        }
    }

    /// Whether a cut is refused whatever blocks there are: it is of a pipe, or to more than 1,048,576 bytes.
    fn is_no_cut(&self, e: &OpenFile, len: u32) -> bool
        ensures { result ≡ (nat_lt 1048576 len || option_map_or is_pipe (at self.now.objects e.now.object) false) }
    {
        len > 1048576 || self.is_on_pipe(e)
    }

    /// Sets the length of the file behind an open entry. There has to be room.
    fn cut_bytes<R: Others>(&mut self, who: &CallerIn<R>, e: &OpenFile, len: u32)
        requires serves { Serves self.old e.now }
        requires file { option_map_or is_pipe (at self.old.objects e.now.object) false ≡ false }
        requires most { len ≤ 1048576 }
        requires room { told_of_cut (frame_of R.rest self.old who.now) (world_of R.rest self.old who.now).content len (Some (behind_of e.now)) ≡ nothing_told }
        requires counted { IsCounted self.old who.now }
        ensures frame { frame_of R.rest self.new who.now ≡ frame_of R.rest self.old who.now }
        ensures content { (world_of R.rest self.new who.now).content ≡ after_cut (behind_of e.now) len (world_of R.rest self.old who.now).content }
        ensures counted { IsCounted self.new who.now }
    {
        let _ = who;
        self.tables.cut(e.object, len as u64);
    }

    /// A cut: the decision, and then the bytes.
    pub(crate) fn cut<R: Others, L: Ledger>(
        &mut self,
        who: &mut CallerIn<R>,
        fd: Fd,
        len: u32,
        steps: &mut Steps<L>,
    ) -> Reply
        requires sound { Sound (world_of R.rest self.old who.old) }
        requires counted { IsCounted self.old who.old }
        requires few { self.old.limits.procs ≤ 1024 }
        ensures step { (buf : List ℕ) → Answers (step (world_of R.rest self.old who.old) R.rest.place R.rest.pid (op.CutFd fd.0 len)) (world_of R.rest self.new who.new) result buf buf }
        ensures counted { IsCounted self.new who.new }
    {
        let call = Call::CutFd { fd, len };
        let Some(e) = self.behind(who, fd) else {
            return self.decide(NOTHING_TOLD, who, &call, steps);
        };
        if self.is_no_cut(&e, len) {
            return self.decide(NOTHING_TOLD, who, &call, steps);
        }
        let told = self.told_of_cut(who, &e, len);
        match self.decide(told, who, &call, steps) {
            Reply::Done => {
                self.cut_bytes(who, &e, len);
                Reply::Done
            }
            reply => reply,
        }
    }

    /// A seek: the decision, and then the offset.
    pub(crate) fn seek<R: Others, L: Ledger>(
        &mut self,
        who: &mut CallerIn<R>,
        fd: Fd,
        offset: u32,
        steps: &mut Steps<L>,
    ) -> Reply
        requires sound { Sound (world_of R.rest self.old who.old) }
        requires counted { IsCounted self.old who.old }
        requires few { self.old.limits.procs ≤ 1024 }
        ensures step { (buf : List ℕ) → Answers (step (world_of R.rest self.old who.old) R.rest.place R.rest.pid (op.SeekFd fd.0 offset)) (world_of R.rest self.new who.new) result buf buf }
        ensures counted { IsCounted self.new who.new }
    {
        let call = Call::SeekFd { fd, at: offset };
        let Some(e) = self.behind(who, fd) else {
            return self.decide(NOTHING_TOLD, who, &call, steps);
        };
        match self.decide(NOTHING_TOLD, who, &call, steps) {
            Reply::Done => {
                self.tables.seek(e.id, offset);
                Reply::Done
            }
            reply => reply,
        }
    }
}
