ghost use Rattle.std.{specs.Prelude.{◌≡◌, Some}, proofs.Common.{option_map}};
ghost use Rattle.ix_fresh.specs.Touched.{label_of_entry};
ghost use Rattle.ix_model.specs.rows.Walks.{node};
ghost use Rattle.ix_tables.specs.Views.{frame_alone};
ghost use Rattle.ix_fcalls.specs.{Claiming.{entry_of}, Spots.{size_in, spot_in, spot_through, view_in}};

use crate::files::Files;
use ix_label::Label;
use ix_model::{Caller, Fd, Kind, Obj};
use ix_open::OpenView;

/// What stands behind descriptors, and the labels there.
impl Files {
    /// The open entry behind a descriptor of a process, by its number, and the object on which it is; `None` exactly where
    /// there is none.
    pub fn spot(&self, who: &Caller, fd: Fd) -> Option<(u32, Obj)>
        ensures { option_map spot_in result ≡ option_map spot_through (entry_of who.now fd.0 self.now) }
    {
        match self.entry_of(who, fd) {
            Some(e) => Some((e.id, Obj(e.object))),
            None => None,
        }
    }

    /// The open entry behind a descriptor of a process, with its offset; `None` exactly where there is none.
    pub fn opened(&self, who: &Caller, fd: Fd) -> Option<OpenView>
        ensures { result ≡ option_map (view_in self.now) (entry_of who.now fd.0 self.now) }
    {
        match who.fds.get(fd.0 as usize) {
            Some(Some(id)) => self.tables.entry(*id),
            _ => None,
        }
    }

    /// How much there is at an end of an object: the length of a file, at end 0, or what that end of a pipe can read.
    /// `None` exactly where no file or pipe is there, or it has no such end.
    pub fn size(&self, obj: Obj, end: u8) -> Option<u64>
        ensures { result ≡ size_in self.now obj.0 end }
    {
        let kind = self.object(obj)?.kind;
        match kind {
            Kind::File if end == 0 => Some(self.tables.size(obj.0)),
            Kind::Pipe if end < 2 => Some(u64::from(self.tables.left(obj.0, end))),
            _ => None,
        }
    }

    /// The label of the object of a number; bottom where there is none.
    pub fn label_of(&self, obj: Obj) -> Label
        ensures { result ≡ (node self.now.objects obj.0).label }
    {
        self.tables.label_of(obj.0)
    }

    /// The label of the open entry of a number; bottom where there is none.
    pub fn entry_label(&self, id: u32) -> Label
        ensures { result ≡ label_of_entry (frame_alone self.now) (Some id) }
    {
        match self.tables.entry(id) {
            Some(e) => e.label,
            None => Label::bottom(),
        }
    }
}
