ghost use Rattle.std.specs.{Prelude.{◌≡◌, ◌++◌, length, take, drop, min, None, Some, slice_get}, Option.{option_and_then, option_map}};
ghost use Rattle.ix_model.specs.{history.Views.{names_there}, world.{Directories.{IsBehind}, NameRefs.{name_of}, World.{at}}};
ghost use Rattle.ix_fcalls.specs.Spots.{bytes_in};

use crate::files::Files;
use ix_model::{Name, NameRef, Obj, PrivSet};

/// What files and directories hold, as it is stored. Nobody is asked whether he may see it.
impl Files {
    /// Copies the bytes of a file from an offset on into the front of `out`, and answers their number; none where no file
    /// is there.
    #[tactic(auto, unfolding(crate::specs::Spots::bytes_in))]
    pub fn inside(&self, obj: Obj, at: u64, out: &mut [u8]) -> usize
        ensures count { result ≡ min (length out.old) (length (bytes_in self.now obj.0 at)) }
        ensures out { out.new ≡ take result (bytes_in self.now obj.0 at) ++ drop result out.old }
    {
        let Some(x) = self.object(obj) else {
            return 0;
        };
        if !x.is_file() {
            return 0;
        }
        self.tables.read(obj.0, at, out)
    }

    /// The name at a place of a directory's order of making, from 0, with its object; `None` exactly where no directory is
    /// there or past the last. It costs a step for each name before it.
    pub fn named(&self, dir: Obj, index: u32) -> Option<(Name, Obj)>
        ensures { option_map (λ e. (e.0, e.1.0)) result ≡ option_and_then (λ names. slice_get names index) (names_there self.now.objects dir.0) }
    {
        if !self.tables.is_dir(dir.0) {
            return None;
        }
        match self.tables.name_at(dir.0, index) {
            Some((name, obj)) => Some((name, Obj(obj))),
            None => None,
        }
    }

    /// The name behind one that a directory has, in its order of making; `None` behind the last, and where no directory is
    /// there. It costs no walk.
    pub fn named_after(&self, dir: Obj, name: &NameRef<'_>) -> Option<(Name, Obj)>
        ensures next { (names : _) → names_there self.now.objects dir.0 ≡ Some names → IsBehind names (name_of name.now) (option_map (λ e. (e.0, e.1.0)) result) }
        ensures nowhere { names_there self.now.objects dir.0 ≡ None → result ≡ None }
    {
        if !self.tables.is_dir(dir.0) {
            return None;
        }
        match self.tables.name_after(dir.0, name) {
            Some((name, obj)) => Some((name, Obj(obj))),
            None => None,
        }
    }

    /// How many names a directory has; `None` exactly where none is there.
    pub fn names(&self, dir: Obj) -> Option<u32>
        ensures { result ≡ option_map length (names_there self.now.objects dir.0) }
    {
        if !self.tables.is_dir(dir.0) {
            return None;
        }
        Some(self.tables.count_names(dir.0))
    }

    /// The capabilities and licences of an object; `None` exactly where there is none.
    pub fn privs(&self, obj: Obj) -> Option<(PrivSet, PrivSet)>
        ensures { result ≡ option_map (λ x. (x.cap, x.lic)) (at self.now.objects obj.0) }
    {
        let x = self.object(obj)?;
        Some((x.cap, x.lic))
    }
}
