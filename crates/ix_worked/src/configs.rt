//! Configs: which of them are valid, by the definition alone. These functions do nothing: each states of some at the edge
//! that they are, and of some just past it that they aren't.

ghost use Rattle.std.specs.Prelude.{true, false};
ghost use Rattle.ix_worked.specs.Configs.{
  AllValid,
  file_systems_that_fit,
  file_systems_that_do_not,
  limits_that_fit,
  limits_that_do_not,
  processes_that_fit,
  processes_that_do_not,
  objects_that_fit,
  objects_that_do_not,
};

/// There are 1 to 16 file systems, with names that differ and 1 to 65,536 blocks and inodes each.
#[tactic(auto, using(crate::proofs::Fitting::file_systems_fit, crate::proofs::Fitting::file_systems_do_not))]
pub fn file_systems_are_few_and_differ()
    ensures valid { AllValid true file_systems_that_fit }
    ensures invalid { AllValid false file_systems_that_do_not }
{}

/// Each limit has its range, and a journal its greatest length.
#[tactic(auto, using(crate::proofs::Fitting::limits_fit, crate::proofs::Fitting::limits_do_not))]
pub fn limits_are_in_their_ranges()
    ensures valid { AllValid true limits_that_fit }
    ensures invalid { AllValid false limits_that_do_not }
{}

/// There are as many processes as the limit says at most, each at or below its ceiling.
#[tactic(auto, using(crate::proofs::Fitting::processes_fit, crate::proofs::Fitting::processes_do_not))]
pub fn processes_are_below_their_ceilings()
    ensures valid { AllValid true processes_that_fit }
    ensures invalid { AllValid false processes_that_do_not }
{}

/// Each file and directory has a place in the tree that is free, is below its ceiling, and has room.
#[tactic(auto, using(crate::proofs::Fitting::objects_fit, crate::proofs::Fitting::objects_do_not))]
pub fn objects_have_a_place_and_room()
    ensures valid { AllValid true objects_that_fit }
    ensures invalid { AllValid false objects_that_do_not }
{}
