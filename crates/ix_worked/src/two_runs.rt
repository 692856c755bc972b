//! What the definitions on two runs, on fresh descriptors, on lowerings and on costs mean, on worked histories. These
//! functions do nothing: each states what holds of some history, and mostly of another that it doesn't.

ghost use Rattle.std.specs.Prelude.{◌≡◌, true, false, [], ◌∷◌, codes, replicate};
ghost use Rattle.ix_label.specs.Category.{Categories, bottom};
ghost use Rattle.ix_model.specs.{history.Cost.{cost_of, cost_of_history}, history.Events.{CreateAt, LinkAt, WriteFd, SelfLabel}};
ghost use Rattle.ix_model.specs.{history.Freshness.{Reading, Writing}, history.Lowering.{Lowered, Crosses}, opening.Opening.{opening_world}};
ghost use Rattle.ix_model.specs.two_runs.{EqualLengths.{AlikeInLength}, TwoRuns.{Alike}};
ghost use Rattle.ix_worked.specs.{privileges.Downgrading.{one_line, lowering}, floating.LooksAnew.{held_low, reading_twice}};
ghost use Rattle.ix_worked.specs.short.{OnDescriptors.{desk}, OnEntries.{shared_desk, seeking_high}, OnProcesses.{family}};
ghost use Rattle.ix_worked.specs.PairsOfRuns.{
  before,
  after,
  BothAgree,
  BothAgreeInLength,
  LowReadAlone,
  fresh_along,
  LowersNowhere,
  CrossesNowhere,
  writing_low,
  leaving_high,
};
ghost use Rattle.ix_worked.specs.{Scripts.{seven, in_root, under}, Sessions.{calls}, files.SharedEntry.{one_file, sharing}};
ghost use Rattle.ix_worked.specs.floating.TwoLevels.{two_levels, writing};

/// What a high process writes is replaced by other bytes: at bottom the two histories agree, and the one low read is
/// that of the other file.
#[tactic(auto, using(crate::proofs::runs::Agreeing::other_bytes_agree, crate::proofs::runs::Agreeing::other_bytes_agree_in_length, crate::proofs::runs::Agreeing::reads_low_once))]
pub fn what_is_written_high_may_be_replaced()
    ensures agree { BothAgree bottom two_levels (writing (codes "AA")) (writing (codes "BB")) }
    ensures in_length { BothAgreeInLength bottom two_levels (writing (codes "AA")) (writing (codes "BB")) }
    ensures low { LowReadAlone bottom 5 (opening_world two_levels) 1 (writing (codes "AA")) }
{}

/// More bytes agree too, but not where lengths have to be equal. Bytes that are refused don't, since the two replies are
/// of two kinds.
#[tactic(auto, using(crate::proofs::runs::Agreeing::more_bytes_agree, crate::proofs::runs::Agreeing::more_bytes_do_not_in_length, crate::proofs::runs::Agreeing::too_many_do_not))]
pub fn how_much_is_written_high_may_differ()
    ensures agree { BothAgree bottom two_levels (writing (codes "AA")) (writing (codes "ABC")) }
    ensures in_length { BothAgreeInLength bottom two_levels (writing (codes "AA")) (writing (codes "ABC")) → ⊥ }
    ensures kinds { BothAgree bottom two_levels (writing (codes "AA")) (writing (replicate 4097 65)) → ⊥ }
{}

/// Who is at or below the label has nothing replaced: neither a low process at bottom, nor the high one at its own label.
#[tactic(auto, using(crate::proofs::runs::Agreeing::low_bytes_do_not, crate::proofs::runs::Agreeing::low_bytes_do_not_in_length, crate::proofs::runs::Agreeing::own_bytes_do_not, crate::proofs::runs::Agreeing::own_bytes_do_not_in_length))]
pub fn what_is_written_low_may_not_be_replaced()
    ensures low { BothAgree bottom desk (writing_low (codes "x")) (writing_low (codes "y")) → ⊥ }
    ensures low_in_length { BothAgreeInLength bottom desk (writing_low (codes "x")) (writing_low (codes "y")) → ⊥ }
    ensures own { BothAgree seven two_levels (writing (codes "AA")) (writing (codes "BB")) → ⊥ }
    ensures own_in_length { BothAgreeInLength seven two_levels (writing (codes "AA")) (writing (codes "BB")) → ⊥ }
{}

/// The status with which a high process ends may be another.
#[tactic(auto, using(crate::proofs::runs::Agreeing::statuses_agree, crate::proofs::runs::Agreeing::statuses_agree_in_length))]
pub fn a_status_that_is_given_high_may_be_replaced()
    ensures agree { BothAgree bottom family (leaving_high 3) (leaving_high 4) }
    ensures in_length { BothAgreeInLength bottom family (leaving_high 3) (leaving_high 4) }
{}

/// After the write the worlds are alike at bottom, whatever was written, and at 7 they aren't. Where more was written they
/// have one shape still, but not the same lengths.
#[tactic(auto, using(crate::proofs::runs::Alikeness::two_are_alike, crate::proofs::runs::Alikeness::two_are_alike_in_length, crate::proofs::runs::Alikeness::three_are_alike, crate::proofs::runs::Alikeness::three_are_not_in_length, crate::proofs::runs::Alikeness::two_are_not_at_seven))]
pub fn worlds_are_alike_below_what_was_written()
    ensures alike { Alike bottom (after two_levels (writing (codes "AA")) 4) (after two_levels (writing (codes "BB")) 4) }
    ensures in_length { AlikeInLength bottom (after two_levels (writing (codes "AA")) 4) (after two_levels (writing (codes "BB")) 4) }
    ensures longer { Alike bottom (after two_levels (writing (codes "AA")) 4) (after two_levels (writing (codes "ABC")) 4) }
    ensures lengths { AlikeInLength bottom (after two_levels (writing (codes "AA")) 4) (after two_levels (writing (codes "ABC")) 4) → ⊥ }
    ensures own { Alike seven (after two_levels (writing (codes "AA")) 4) (after two_levels (writing (codes "BB")) 4) → ⊥ }
{}

/// A descriptor is fresh for reading from its first read until another process raises the file, and a refused read
/// doesn't make it so. One that is written is fresh for writing, though the write raised the file.
#[tactic(auto, using(crate::proofs::runs::Freshened::read_is_fresh, crate::proofs::runs::Freshened::write_is_fresh))]
pub fn a_descriptor_is_fresh_until_its_file_is_raised()
    ensures reading { fresh_along held_low reading_twice 1 0 Reading ≡ false ∷ false ∷ true ∷ false ∷ false ∷ [] }
    ensures writing { fresh_along held_low reading_twice 2 0 Writing ≡ false ∷ false ∷ false ∷ true ∷ true ∷ [] }
{}

/// Of two descriptors on one open entry each is fresh by itself, until it is closed.
#[tactic(auto, using(crate::proofs::runs::Freshened::first_is_closed, crate::proofs::runs::Freshened::second_is_kept))]
pub fn a_descriptor_is_fresh_until_it_is_closed()
    ensures closed { fresh_along one_file sharing 1 0 Reading ≡ false ∷ false ∷ true ∷ true ∷ false ∷ false ∷ false ∷ [] }
    ensures kept { fresh_along one_file sharing 1 1 Reading ≡ false ∷ false ∷ false ∷ true ∷ true ∷ true ∷ true ∷ [] }
{}

/// A seek of a high process, which marks the open entry that both have, ends it too.
#[tactic(auto, using(crate::proofs::runs::Freshened::marked_is_stale))]
pub fn a_descriptor_is_fresh_until_its_open_entry_is_marked()
    ensures reading { fresh_along shared_desk (calls seeking_high) 1 0 Reading ≡ false ∷ true ∷ true ∷ true ∷ false ∷ false ∷ false ∷ false ∷ true ∷ [] }
{}

/// Where a file is set from 3 to bottom a label is lowered, and bottom is crossed.
pub fn a_lowering_is_one()
    ensures lowered { Lowered (before one_line lowering 3).frame (after one_line lowering 3).frame }
    ensures crosses { Crosses bottom (before one_line lowering 3).frame (after one_line lowering 3).frame }
{}

/// Reads and writes lower nothing, and cross no label.
pub fn what_floats_lowers_nothing()
    ensures lowers { LowersNowhere (opening_world two_levels) 1 (writing (codes "AA")) }
    ensures crosses { (l : Categories) → CrossesNowhere l (opening_world two_levels) 1 (writing (codes "AA")) }
{}

/// A call costs 128, and the bytes that it writes, and of each path each name and one byte more. A history costs what its
/// calls do.
#[tactic(auto, using(crate::proofs::runs::Costing::making, crate::proofs::runs::Costing::linking, crate::proofs::runs::Costing::writing_three, crate::proofs::runs::Costing::asking_itself, crate::proofs::runs::Costing::the_session))]
pub fn calls_cost_what_they_carry()
    ensures creates { cost_of (CreateAt (in_root (codes "a"))) ≡ 130 }
    ensures links { cost_of (LinkAt (in_root (codes "a")) (under (codes "d") (codes "key"))) ≡ 136 }
    ensures writes { cost_of (WriteFd 0 (codes "abc")) ≡ 131 }
    ensures asks { cost_of SelfLabel ≡ 128 }
    ensures session { cost_of_history (writing (codes "AA")) ≡ 776 }
{}
