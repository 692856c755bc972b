//! The laws of freshness. These functions do nothing: each states a law, which is proved.
ghost use Rattle.ix_fresh.specs.Laws.{FreshMeansKnown, KnownChangesNothing, DescriptorsStay, WhereLabelsChange, FreshnessByWhatWasTouched, FreshnessAlongHistories, SpotsAlongHistories};

/// Where a descriptor is fresh after a history, its process lives, an open entry and an object stand behind it, and a call
/// that way would change no label: the label that a look could raise, the process's for a read and the object's for a write,
/// is at or above the other two, and the open entry of what is no pipe has taken in the process's.
pub fn fresh_means_known()
    ensures known { FreshMeansKnown }
{}

/// Of a descriptor of which that is known, the two rules of labels in a call that way pass and change nothing: the look of a
/// read or the effect of a write, and what the open entry takes in.
pub fn known_changes_nothing()
    ensures nothing { KnownChangesNothing }
{}

/// A call leaves behind each descriptor of a living process the same open entry, on the same end of the same object and with
/// the same mode, unless the process itself closes that descriptor or exits.
pub fn descriptors_stay()
    ensures stay { DescriptorsStay }
{}

/// Of the labels that stand behind a descriptor a call changes that of the process only where it made the call, that of the
/// object only where the call writes, cuts, labels, freezes or gives privileges to it, and that of the open entry only where
/// the call reads, writes or seeks through it.
#[tactic(auto, using(crate::proofs::Remaining::labels_remain))]
pub fn where_labels_change()
    ensures stay { WhereLabelsChange }
{}

/// Whether a descriptor is fresh after a call is told by who called, whether the call refreshed or closed the descriptor, and
/// whether it changed the label of the caller, of the one object or of the one open entry that it may touch.
#[tactic(auto, using(crate::proofs::Freshly::freshness_by_touch))]
pub fn freshness_by_what_was_touched()
    ensures told { FreshnessByWhatWasTouched }
{}

/// The same of every descriptor after any history with one entry more.
#[tactic(auto, using(crate::proofs::Freshly::fresh_along))]
pub fn freshness_along_histories()
    ensures told { FreshnessAlongHistories }
{}

/// So a table of the spots at which descriptors are fresh, the open entry and the object of each, is kept along a history by
/// the same facts: a refreshed descriptor is at its spot, a closed one at none, and of all others those stay whose process,
/// object and open entry have the labels that they had.
#[tactic(auto, using(crate::proofs::Spots::spots_along))]
pub fn spots_along_histories()
    ensures told { SpotsAlongHistories }
{}
