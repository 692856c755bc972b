ghost use Rattle.std.{specs.Prelude.{◌≡◌, ◌<◌, IfSome, is_some, slice_index_or, true}, proofs.Common.{option_map}};
ghost use Rattle.ix_model.specs.{rows.Walks.{behind}, world.{Contents.{offset_of}, World.{at, lives}}};
ghost use Rattle.ix_fcalls.specs.{Around.{frame_of, world_of}, Claiming.{entry_of}, Views.{behind_of}};

use crate::caller_in::{CallerIn, Others};
use crate::files::Files;
use ix_label::Label;
use ix_model::{Caller, Fd, Mode};

/// The open entry behind a descriptor, with its number.
#[derive(Clone, Copy)]
pub(crate) struct OpenFile {
    pub(crate) id: u32,
    pub(crate) object: u32,
    pub(crate) end: u8,
    pub(crate) mode: Mode,
    pub(crate) offset: u32,
    pub(crate) label: Label,
}

impl Files {
    /// The open entry behind a descriptor of the caller, which lives; `None` exactly where there is none.
    #[tactic(auto, unfolding(ix_model::specs::rows::Walks::behind))]
    pub(crate) fn behind<R: Others>(&self, who: &CallerIn<R>, fd: Fd) -> Option<OpenFile>
        ensures behind { option_map behind_of result ≡ behind (frame_of R.rest self.now who.now) R.rest.pid fd.0 }
        ensures stands { IfSome result (λ e. is_some (at self.now.opens e.id) ≡ true) }
        ensures offset { IfSome result (λ e. e.offset ≡ offset_of (world_of R.rest self.now who.now).content e.id) }
        ensures descriptor { IfSome result (λ e. fd.0 < 32) }
        ensures lives { lives (frame_of R.rest self.now who.now) R.rest.pid ≡ true }
    {
        self.entry_of(who.caller(), fd)
    }

    /// The open entry behind a descriptor of a process; `None` exactly where there is none.
    pub(crate) fn entry_of(&self, who: &Caller, fd: Fd) -> Option<OpenFile>
        ensures entry { option_map behind_of result ≡ entry_of who.now fd.0 self.now }
        ensures stands { IfSome result (λ e. is_some (at self.now.opens e.id) ≡ true) }
        ensures offset { IfSome result (λ e. e.offset ≡ slice_index_or self.now.offsets e.id 0) }
        ensures descriptor { IfSome result (λ e. fd.0 < 32) }
        ensures end { IfSome result (λ e. e.end < 2) }
    {
        match who.fds.get(fd.0 as usize) {
            Some(Some(id)) => match self.tables.entry(*id) {
                Some(e) => Some(OpenFile {
                    id: *id,
                    object: e.obj.0,
                    end: e.end,
                    mode: e.mode,
                    offset: e.at,
                    label: e.label,
                }),
                None => None,
            },
            _ => None,
        }
    }
}
