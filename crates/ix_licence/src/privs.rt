ghost use Rattle.std.specs.Prelude.{◌≡◌};
ghost use Rattle.ix_model.specs.world.Privs.{without};
ghost use Rattle.ix_licence.specs.Exercise.{exercised};

use bitflags::Flags;
use ix_model::{PrivSet, Refusal};

/// The privileges of a process. The exercise of one needs a capability of its program, and a licence of either kind.
#[derive(Clone, Copy, Debug, PartialEq, Eq)]
pub struct Privs {
    /// The capabilities, from the program that it last took.
    pub cap: PrivSet,
    /// The licences of its own.
    pub lic: PrivSet,
    /// The licences of that program.
    pub own: PrivSet,
}

/// Whether a process of these sets may exercise a privilege. It may exactly where that is in its capabilities, and in its
/// licences or its program's.
///
/// Else it is refused: `NoCapability` where the privilege isn't in the capabilities, and `NoLicence` where it is in these
/// and in no licences. It takes no memory.
#[tactic(auto, unfolding(ix_model::specs::world::Privs::has_all))]
pub fn may(privs: &Privs, x: PrivSet) -> Result<(), Refusal>
    ensures { result ≡ exercised privs.now x }
{
    if !privs.cap.contains(x) {
        return Err(Refusal::NoCapability);
    }
    if !privs.lic.contains(x) && !privs.own.contains(x) {
        return Err(Refusal::NoLicence);
    }
    Ok(())
}

/// What a process of these sets has once it takes a program with those capabilities and licences: the program's
/// capabilities, the program's licences as the program's, and the licences of its own as they were. It takes no memory.
pub fn after_exec(privs: Privs, cap: PrivSet, lic: PrivSet) -> Privs
    ensures { result ≡ record privs { cap = cap; own = lic } }
{
    Privs {
        cap,
        own: lic,
        ..privs
    }
}

/// What is left of the sets without those privileges, which go from all three. It takes no memory.
pub fn dropped(privs: Privs, set: PrivSet) -> Privs
    ensures { result ≡ record { cap = without privs.cap set; lic = without privs.lic set; own = without privs.own set } }
{
    Privs {
        cap: without(privs.cap, set),
        lic: without(privs.lic, set),
        own: without(privs.own, set),
    }
}

/// The privileges of a set that aren't in another.
fn without(set: PrivSet, other: PrivSet) -> PrivSet
    ensures { result ≡ without set other }
{
    set.difference(other)
}
