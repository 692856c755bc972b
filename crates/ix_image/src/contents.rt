ghost use Rattle.std.specs.Prelude.{◌≡◌};
ghost use Rattle.ix_image.specs.{Trees.{links_held, size_held, are_links}, Meant.{Gives, held_of, links_in}, Reading.{file_at, directory_at}};

use crate::fault::Fault;
use crate::fields::{bytes_at, number_at};
use crate::links::links_at;
use crate::naming::Links;

/// The most bytes that a file has.
const MOST_BYTES: u32 = 1_048_576;

/// The most names that a directory has.
const MOST_NAMES: u32 = 65_536;

/// What an object holds.
#[derive(Clone, Copy)]
pub enum Contents<'a> {
    /// The bytes of a file.
    File(&'a [u8]),
    /// The names of a directory.
    Dir(Links<'a>),
}

/// The bytes of a file, behind their number.
#[tactic(auto, unfolding(crate::specs::Reading::file_at))]
pub fn file_at(bytes: &[u8]) -> Result<(Contents<'_>, &[u8]), Fault>
    ensures { Gives (λ x. (held_of x.0, x.1.now)) result (file_at bytes.now) }
{
    let (count, rest) = number_at(0, MOST_BYTES, bytes)?;
    let (held, rest) = bytes_at(count as usize, rest)?;
    Ok((Contents::File(held), rest))
}

/// The names of a directory, behind their number.
#[tactic(auto, unfolding(crate::specs::Reading::directory_at))]
pub fn directory_at(bytes: &[u8]) -> Result<(Contents<'_>, &[u8]), Fault>
    ensures { Gives (λ x. (held_of x.0, x.1.now)) result (directory_at bytes.now) }
{
    let (count, rest) = number_at(0, MOST_NAMES, bytes)?;
    let (held, rest) = links_at(count, rest)?;
    Ok((Contents::Dir(held), rest))
}

impl<'a> Contents<'a> {
    /// How many bytes a file has; a directory has none.
    pub fn size(&self) -> usize
        ensures { result ≡ size_held (held_of self.now) }
    {
        match self {
            Contents::File(bytes) => bytes.len(),
            Contents::Dir(_) => 0,
        }
    }

    /// The names of a directory; a file has none.
    pub fn links(&self) -> Links<'a>
        ensures { links_in result ≡ links_held (held_of self.now) }
    {
        match self {
            Contents::File(_) => Links::none(),
            Contents::Dir(links) => *links,
        }
    }

    /// Whether it is those of a directory.
    pub fn is_dir(&self) -> bool
        ensures { result ≡ are_links (held_of self.now) }
    {
        match self {
            Contents::File(_) => false,
            Contents::Dir(_) => true,
        }
    }
}
