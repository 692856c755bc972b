//! Pairs of histories that agree at bottom, and where what a high process did comes to one that was low. It is told by a read
//! or a wait that raises the reader, so that nothing that a low process is told differs; or it was let down before.

ghost use Rattle.std.specs.Prelude.{◌≡◌, ℕ, true, codes};
ghost use Rattle.ix_label.specs.Category.{bottom};
ghost use Rattle.ix_model.specs.{history.Lowering.{Crosses}, opening.Valid.{is_valid}};
ghost use Rattle.ix_worked.specs.{short.OnProcesses.{family}, PairsOfRuns.{before, after, BothAgree}, Sessions.{Goes, calls}};
ghost use Rattle.ix_worked.specs.ToldUp.{
  waiting_for_high,
  piping_from_high,
  notebook,
  sharing_with_high,
  drawer,
  looking_at_high,
  bureau,
  letting_down,
};

/// The status that a high child leaves is told to its parent, which is high then.
#[tactic(auto, using(crate::proofs::ToldUp::waited_for_high))]
pub fn a_status_is_told_up()
    ensures goes { (status : ℕ) → Goes family (waiting_for_high status) }
    ensures agree { (a b : ℕ) → BothAgree bottom family (calls (waiting_for_high a)) (calls (waiting_for_high b)) }
{}

/// What a high child writes into a pipe is read at its other end by its parent, which is high then.
#[tactic(auto, using(crate::proofs::ToldUp::piped_from_high))]
pub fn a_pipe_tells_up()
    ensures goes { (byte : ℕ) → Goes family (piping_from_high byte) }
    ensures agree { (a b : ℕ) → BothAgree bottom family (calls (piping_from_high a)) (calls (piping_from_high b)) }
{}

/// How much a high child writes through an open entry that it shares with its parent shows in what the parent reads next,
/// and the parent is high then.
#[tactic(auto, using(crate::proofs::Fitting::notebook_fits, crate::proofs::ToldUp::shared_with_one, crate::proofs::ToldUp::shared_with_three))]
pub fn a_shared_offset_tells_up()
    ensures valid { is_valid notebook ≡ true }
    ensures one { Goes notebook (sharing_with_high (codes "x") (codes "b")) }
    ensures three { Goes notebook (sharing_with_high (codes "xyz") (codes "d")) }
    ensures agree { BothAgree bottom notebook (calls (sharing_with_high (codes "x") (codes "b"))) (calls (sharing_with_high (codes "xyz") (codes "d"))) }
{}

/// How much a high process has written into a file shows in the size that is told of it, to one that is high then.
#[tactic(auto, using(crate::proofs::Fitting::drawer_fits, crate::proofs::ToldUp::looked_at_two, crate::proofs::ToldUp::looked_at_three))]
pub fn a_size_is_told_up()
    ensures valid { is_valid drawer ≡ true }
    ensures two { Goes drawer (looking_at_high (codes "AA")) }
    ensures three { Goes drawer (looking_at_high (codes "ABC")) }
    ensures agree { BothAgree bottom drawer (calls (looking_at_high (codes "AA"))) (calls (looking_at_high (codes "ABC"))) }
{}

/// What a high process wrote is read by one that stays low, once the file was let down across bottom. The log tells that,
/// and tells the same whatever was written.
#[tactic(auto, using(crate::proofs::Fitting::bureau_fits, crate::proofs::ToldUp::let_down))]
pub fn a_lowering_lets_through_and_is_logged()
    ensures valid { is_valid bureau ≡ true }
    ensures goes { (byte : ℕ) → Goes bureau (letting_down byte) }
    ensures agree { (a b : ℕ) → BothAgree bottom bureau (calls (letting_down a)) (calls (letting_down b)) }
    ensures crosses { (byte : ℕ) → Crosses bottom (before bureau (calls (letting_down byte)) 3).frame (after bureau (calls (letting_down byte)) 3).frame }
{}
