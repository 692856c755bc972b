ghost use Rattle.std.specs.Prelude.{◌≡◌};
ghost use Rattle.ix_image.specs.{Meant.{Gives}, Reading.{flag_at, set_at, marks_at}};

use crate::fault::Fault;
use crate::fields::small_at;
use ix_model::PrivSet;
use ix_text::set_of_bits;

/// All five privileges.
const ALL_FIVE: u8 = 31;

/// What stands between an object's number and its label.
#[derive(Clone, Copy)]
pub struct Marks {
    /// Whether it is a directory.
    pub is_dir: bool,
    pub frozen: bool,
    pub cap: PrivSet,
    pub lic: PrivSet,
}

/// Whether something holds: 0 or 1.
#[tactic(auto, unfolding(crate::specs::Reading::flag_at))]
fn flag_at(bytes: &[u8]) -> Result<(bool, &[u8]), Fault>
    ensures { Gives (λ x. (x.0, x.1.now)) result (flag_at bytes.now) }
{
    let (number, rest) = small_at(1, bytes)?;
    Ok((number == 1, rest))
}

/// A set of privileges.
#[tactic(auto, unfolding(crate::specs::Reading::set_at))]
fn set_at(bytes: &[u8]) -> Result<(PrivSet, &[u8]), Fault>
    ensures { Gives (λ x. (x.0, x.1.now)) result (set_at bytes.now) }
{
    let (number, rest) = small_at(ALL_FIVE, bytes)?;
    Ok((set_of_bits(number), rest))
}

/// The marks of an object.
#[tactic(auto, unfolding(crate::specs::Reading::marks_at))]
pub fn marks_at(bytes: &[u8]) -> Result<(Marks, &[u8]), Fault>
    ensures { Gives (λ x. (x.0, x.1.now)) result (marks_at bytes.now) }
{
    let (is_dir, rest) = flag_at(bytes)?;
    let (frozen, rest) = flag_at(rest)?;
    let (cap, rest) = set_at(rest)?;
    let (lic, rest) = set_at(rest)?;
    let marks = Marks {
        is_dir,
        frozen,
        cap,
        lic,
    };
    Ok((marks, rest))
}
