ghost use Rattle.std.specs.Prelude.{◌≡◌};
ghost use Rattle.ix_name.specs.Entries.{is_of};
ghost use Rattle.ix_model.specs.world.NameRefs.{name_of};

use ix_model::{Name, NameRef, Obj};

/// A name of a directory, and the object that it names.
#[derive(Clone, Copy)]
pub struct Entry {
    pub dir: u32,
    pub name: Name,
    pub obj: Obj,
}

/// No entry is free for one name more.
#[derive(Debug, Clone, Copy, PartialEq, Eq)]
pub struct NoEntry;

impl Entry {
    /// Whether it is that directory's, under that name.
    pub fn is_of(&self, dir: u32, name: &NameRef<'_>) -> bool
        ensures { result ≡ is_of dir (name_of name.now) self.now }
    {
        self.dir == dir && self.name.as_ref().same(name)
    }
}
