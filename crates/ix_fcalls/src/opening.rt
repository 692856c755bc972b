ghost use Rattle.std.specs.Prelude.{◌≡◌, ◌+◌, ◌<◌, ◌≤◌, ℕ, length, count_by, is_none, is_some, IsTrue, OnErr, IfSome, Some, None, true, slice_index_or};
ghost use Rattle.std.specs.Prelude.{slice_set};
ghost use Rattle.ix_label.specs.Category.{bottom};
ghost use Rattle.ix_model.specs.{laws.Sound.{Sound}, rows.{OnDescriptors.{dup_fd, make_pipe, pipe_end}, OnPaths.{open_at}, Outcomes.{RowIs}}};
ghost use Rattle.ix_model.specs.world.{World.{at, put, change, living, lowest_free}, Paths.{path_of}};
ghost use Rattle.ix_fcalls.specs.{Around.{frame_of, world_of}, Counted.{IsCounted, IsClear, Keeps, has_free, free_beside}};

use crate::caller_in::{CallerIn, Others, free_fd};
use crate::files::Files;
use ix_label::Steps;
use ix_model::{Fd, Kind, Mode, Path, Refusal, Reply};
use std::sync::ledger::Ledger;

/// The calls that give descriptors.
impl Files {
    /// DupFd: the caller's lowest free descriptor shares the open entry.
    #[tactic(auto, using(crate::proofs::Giving::giving), unfolding(ix_model::specs::rows::Rows::coding, ix_model::specs::rows::Walks::opened, ix_model::specs::rows::OnDescriptors::dup_fd))]
    pub(crate) fn dup_fd<R: Others>(
        &mut self,
        who: &mut CallerIn<R>,
        fd: Fd,
    ) -> Result<Reply, Refusal>
        requires sound { Sound (world_of R.rest self.old who.old) }
        requires counted { IsCounted self.old who.old }
        requires few { self.old.limits.procs ≤ 1024 }
        ensures row { RowIs result (frame_of R.rest self.new who.new) (dup_fd R.rest.pid fd.0 (frame_of R.rest self.old who.old)) }
        ensures counted { IsCounted self.new who.new }
        ensures back { OnErr result (self.new ≡ self.old) }
        ensures kept { Keeps self.old self.new }
    {
        let e = self.behind(who, fd).ok_or(Refusal::BadFd)?;
        let n = free_fd(&who.caller().fds).ok_or(Refusal::NoFd)?;
        self.share_under(who, n, e.id);
        Ok(Reply::Number(n as u64))
    }

    /// A free descriptor of the caller is one owner more of an open entry.
    #[tactic(auto, using(crate::proofs::Giving::giving))]
    fn share_under<R: Others>(&mut self, who: &mut CallerIn<R>, fd: usize, id: u32)
        requires counted { IsCounted self.old who.old }
        requires stands { IsTrue (is_some (at self.old.opens id)) }
        requires few { slice_index_or self.old.owners id 0 ≤ 32768 }
        requires free { has_free who.old R.rest.pid fd ≡ true }
        requires within { fd < 32 }
        ensures who { who.new ≡ change who.old R.rest.pid (λ q. record q { fds = put q.fds fd (Some id) }) }
        ensures counted { IsCounted self.new who.new }
        ensures owner { self.new ≡ record self.old { owners = slice_set self.old.owners id (slice_index_or self.old.owners id 0 + 1) } }
    {
        self.tables.share(id);
        who.set_fd(fd, Some(id));
    }

    /// OpenAt: an open entry on the file of the path, under the caller's lowest free descriptor. A refusal may have raised
    /// the caller's label.
    #[tactic(auto, using(crate::proofs::Giving::giving), unfolding(ix_model::specs::rows::Rows::coding, ix_model::specs::rows::OnPaths::open_at))]
    pub(crate) fn open_at<R: Others, L: Ledger>(
        &mut self,
        who: &mut CallerIn<R>,
        path: &Path<'_>,
        mode: Mode,
        steps: &mut Steps<L>,
    ) -> Result<Reply, Refusal>
        requires sound { Sound (world_of R.rest self.old who.old) }
        requires counted { IsCounted self.old who.old }
        ensures row { RowIs result (frame_of R.rest self.new who.new) (open_at R.rest.pid (path_of path.now) mode (frame_of R.rest self.old who.old)) }
        ensures counted { IsCounted self.new who.new }
        ensures back { OnErr result (self.new ≡ self.old) }
        ensures kept { Keeps self.old self.new }
    {
        let (object, x) = self.object_row_at(who, path, steps)?;
        if matches!(x.kind, Kind::Dir) {
            return Err(Refusal::IsDir);
        }
        let fd = free_fd(&who.caller().fds).ok_or(Refusal::NoFd)?;
        self.open_under(who, fd, object, 0, mode)
            .ok_or(Refusal::NoOpen)?;
        Ok(Reply::Number(fd as u64))
    }

    /// A new entry under the lowest free number, which a free descriptor of the caller names; `None`, with no change,
    /// exactly where none is free.
    #[tactic(auto, using(crate::proofs::Giving::giving))]
    fn open_under<R: Others>(
        &mut self,
        who: &mut CallerIn<R>,
        fd: usize,
        object: u32,
        end: u8,
        mode: Mode,
    ) -> Option<u32>
        requires counted { IsCounted self.old who.old }
        requires clear { IsClear self.old }
        requires object { object < length self.old.objects }
        requires end { end < 2 }
        requires free { has_free who.old R.rest.pid fd ≡ true }
        requires within { fd < 32 }
        ensures id { result ≡ lowest_free self.old.opens }
        ensures none { result ≡ None → (self.new ≡ self.old) × (who.new ≡ who.old) }
        ensures who { IfSome result (λ e. who.new ≡ change who.old R.rest.pid (λ q. record q { fds = put q.fds fd (Some e) })) }
        ensures some { IfSome result (λ e. self.new ≡ record self.old { opens = put self.old.opens e (Some (record { object = object; end = end; mode = mode; label = bottom })); owners = slice_set self.old.owners e 1 }) }
        ensures counted { IsCounted self.new who.new }
        ensures clear { IsClear self.new }
    {
        let id = self.tables.open(object, end, mode)?;
        who.set_fd(fd, Some(id));
        Some(id)
    }

    /// MakePipe: the lowest free pipe under the caller's two lowest free descriptors and two new entries, end 0 under the
    /// lower one.
    #[tactic(auto, using(crate::proofs::Ends::ends, crate::proofs::Giving::clear_sound), unfolding(ix_model::specs::rows::Rows::coding, ix_model::specs::rows::OnDescriptors::make_pipe, ix_model::specs::world::Numbers::free_pipe))]
    pub(crate) fn make_pipe<R: Others>(&mut self, who: &mut CallerIn<R>) -> Result<Reply, Refusal>
        requires sound { Sound (world_of R.rest self.old who.old) }
        requires counted { IsCounted self.old who.old }
        ensures row { RowIs result (frame_of R.rest self.new who.new) (make_pipe R.rest.pid (frame_of R.rest self.old who.old)) }
        ensures counted { IsCounted self.new who.new }
        ensures back { OnErr result (self.new ≡ self.old) }
        ensures kept { Keeps self.old self.new }
    {
        let n = self.tables.vacant_pipe().ok_or(Refusal::NoInode)?;
        let a = free_fd(&who.caller().fds).ok_or(Refusal::NoFd)?;
        let b = second_fd(&who.caller().fds, a).ok_or(Refusal::NoFd)?;
        if self.tables.free_opens() < 2 {
            return Err(Refusal::NoOpen);
        }
        self.tables.make_pipe(n);
        self.open_both(who, a, b, n);
        Ok(Reply::Two(Fd(a as u8), Fd(b as u8)))
    }

    /// Two new entries on the ends of a pipe under two free descriptors of the caller; the numbers of the entries.
    #[tactic(auto, using(crate::proofs::Ends::ends))]
    fn open_both<R: Others>(
        &mut self,
        who: &mut CallerIn<R>,
        a: usize,
        b: usize,
        pipe: u32,
    ) -> (u32, u32)
        requires counted { IsCounted self.old who.old }
        requires clear { IsClear self.old }
        requires object { pipe < length self.old.objects }
        requires two { 2 ≤ count_by is_none self.old.opens }
        requires first { has_free who.old R.rest.pid a ≡ true }
        requires second { free_beside (living (at who.old R.rest.pid)) a 0 b ≡ true }
        requires within { (a < 32) × (b < 32) }
        ensures first { Some result.0 ≡ lowest_free self.old.opens }
        ensures second { Some result.1 ≡ lowest_free (put self.old.opens result.0 (pipe_end pipe 0)) }
        ensures who { who.new ≡ change who.old R.rest.pid (λ q. record q { fds = put (put q.fds a (Some result.0)) b (Some result.1) }) }
        ensures new { self.new ≡ record self.old { opens = put (put self.old.opens result.0 (pipe_end pipe 0)) result.1 (pipe_end pipe 1); owners = slice_set (slice_set self.old.owners result.0 1) result.1 1 } }
        ensures counted { IsCounted self.new who.new }
    {
        let Some(d) = self.open_under(who, a, pipe, 0, Mode::Both) else {
            unreachable!()
        };
        let Some(e) = self.open_under(who, b, pipe, 1, Mode::Both) else {
            unreachable!()
        };
        (d, e)
    }
}

/// The lowest free descriptor beside one that is taken.
fn second_fd(fds: &[Option<u32>; 32], first: usize) -> Option<usize>
    requires { first < 32 }
    ensures second { result ≡ lowest_free (put fds.now first (Some 0)) }
    ensures within { IfSome result (λ fd. fd < 32) }
{
    let mut rest = *fds;
    rest[first] = Some(0);
    free_fd(&rest)
}
