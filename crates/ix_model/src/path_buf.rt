ghost use Rattle.std.specs.{Prelude.{◌≡◌, ◌<◌, ◌≤◌, ◌+◌, ◌++◌, [], length, take, IsTrue, ◌↔◌}, Bool.{OnTrue, OnFalse}};
ghost use Rattle.ix_model.specs.world.{Naming.{add_name}, NameRefs.{name_of}, Texts.{with_name}};

use crate::name_ref::NameRef;
use crate::path::{PATH_MAX, Path};
use std::marker::Model;

const TEXT_MAX: usize = 463;

/// A path that is built, name by name. Contracts see the path.
#[derive(Drop)]
pub struct PathBuf {
    absolute: bool,
    count: u8,
    len: u16,
    bytes: [u8; 463],
}

impl Model for PathBuf {
    ghost use Rattle.std.specs.Prelude.{take};
    ghost use Rattle.ix_model.specs.world.{Naming.{PathOf}, Texts.{IsTextInside, names_in}};

    ghost Value = { PathOf };

    ghost view = { λ p. record { absolute = p.absolute; names = names_in (take p.len p.bytes) } };

    ghost invariant = { λ p. IsTextInside p.bytes p.len p.count };
}

/// Writes bytes at a place, and tells the place behind them.
fn put(bytes: &mut [u8; 463], at: usize, more: &[u8]) -> usize
    requires { at + length more.now ≤ 463 }
    ensures written { take result bytes.new ≡ take at bytes.old ++ more.now }
    ensures end { result ≡ at + length more.now }
{
    bytes[at..at + more.len()].copy_from_slice(more);
    at + more.len()
}

/// Writes one name more behind a text of that length, and tells the length then.
fn put_name(bytes: &mut [u8; 463], len: usize, name: &[u8]) -> usize
    requires room { length (with_name (take len bytes.old) name.now) ≤ 463 }
    requires within { len ≤ 463 }
    ensures written { take result bytes.new ≡ with_name (take len bytes.old) name.now }
    ensures fits { result ≤ 463 }
{
    if len == 0 {
        put(bytes, 0, name)
    } else {
        let at = put(bytes, len, b"/");
        put(bytes, at, name)
    }
}

impl PathBuf {
    ghost use Rattle.ix_model.specs.world.Paths.{path_of};

    /// A path of no names.
    pub fn new(absolute: bool) -> PathBuf
        ensures { result ≡ record { absolute = absolute; names = [] } }
    {
        PathBuf {
            absolute,
            count: 0,
            len: 0,
            bytes: [0; 463],
        }
    }

    /// A path of its own with the same names.
    pub fn from_path(path: &Path<'_>) -> PathBuf
        ensures { result ≡ path_of path.now }
    {
        let mut own = PathBuf::new(path.absolute());
        'names: for name in path.names() {
            own.push(name);
        }
        own
    }

    /// One name more, at the end. It is false, and changes nothing, exactly where there are 16 names.
    pub fn push(&mut self, name: NameRef<'_>) -> bool
        ensures pushed { OnTrue result (self.new ≡ add_name self.old (name_of name.entry)) }
        ensures full { OnFalse result (self.new ≡ self.old) }
        ensures exactly { IsTrue result ↔ (length self.old.names < 16) }
    {
        if self.count as usize >= PATH_MAX {
            return false;
        }
        let len = put_name(&mut self.bytes, self.len as usize, name.as_bytes());
        self.len = len as u16;
        self.count += 1;
        true
    }

    /// The path. Nothing is copied.
    pub fn as_path(&self) -> Path<'_>
        ensures { path_of result ≡ self.now }
    {
        Path::from_text(self.absolute, &self.bytes[..self.len as usize])
    }
}
