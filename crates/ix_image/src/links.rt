ghost use Rattle.std.specs.Prelude.{◌≡◌, [], ◌∷◌, MatchOption, length};
ghost use Rattle.ix_image.specs.{Meant.{Gives, link_of, links_in}, Reading.{link_at, links_at}};

use crate::fault::Fault;
use crate::fields::{name_at, word_at};
use crate::naming::{Link, Links};

/// A name with the number of its object.
#[tactic(auto, unfolding(crate::specs::Reading::link_at))]
fn link_at(bytes: &[u8]) -> Result<(Link<'_>, &[u8]), Fault>
    ensures { Gives (λ x. (link_of x.0, x.1.now)) result (link_at bytes.now) }
{
    let (name, rest) = name_at(bytes)?;
    let (object, rest) = word_at(rest)?;
    Ok((Link { name, object }, rest))
}

/// So many names with their objects.
pub fn links_at(count: u32, bytes: &[u8]) -> Result<(Links<'_>, &[u8]), Fault>
    ensures { Gives (λ x. (links_in x.0, x.1.now)) result (links_at count bytes.now) }
{
    let mut rest = bytes;
    for _ in 0..count {
        let (_, after) = link_at(rest)?;
        rest = after;
    }
    Ok((Links { count, text: bytes }, rest))
}

impl<'a> Links<'a> {
    /// None.
    pub fn none() -> Links<'a>
        ensures { links_in result ≡ [] }
    {
        Links {
            count: 0,
            text: &[],
        }
    }

    /// How many there are.
    pub fn len(&self) -> usize
        ensures { result ≡ length (links_in self.now) }
    {
        self.count as usize
    }

    /// The first one, and those behind it; `None` exactly where there is none.
    pub fn split_first(&self) -> Option<(Link<'a>, Links<'a>)>
        ensures { MatchOption result (links_in self.now ≡ []) (λ x. links_in self.now ≡ link_of x.0 ∷ links_in x.1) }
    {
        if self.count == 0 {
            return None;
        }
        let Ok((first, text)) = link_at(self.text) else {
            unreachable!();
        };
        let rest = Links {
            count: self.count - 1,
            text,
        };
        Some((first, rest))
    }
}
