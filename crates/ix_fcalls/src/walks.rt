ghost use Rattle.std.specs.Prelude.{◌≡◌, ℕ, Some, IsSome, ◌<◌, length, OnOk, IfOk};
ghost use Rattle.ix_model.specs.{laws.Sound.{Sound}, rows.OnPaths.{links_of}, rows.Outcomes.{RowIs, RowMeans}, world.Paths.{names_left, path_of}};
ghost use Rattle.ix_model.specs.rows.Walks.{walk, walked_to, node, found_object, vacant, object_at, spot_at, missing, lacking};
ghost use Rattle.ix_tables.specs.Views.{Shows, frame_alone, object_by};
ghost use Rattle.ix_fcalls.specs.{Around.{frame_of, world_of}, Counted.{IsCounted}, Views.{NamedWell, sought_of, spot_of, seen_of, seen_in}};

use crate::caller_in::{CallerIn, Others};
use crate::files::Files;
use ix_label::{Label, Steps};
use ix_model::{Caller, Names, Obj, Path, Refusal};
use ix_tables::ObjectRow;
use std::sync::ledger::Ledger;

/// Where a walk ends.
#[derive(Clone, Copy)]
pub enum Outcome {
    /// At an object, with the last directory looked into.
    Found { obj: Obj, dir: Option<Obj> },
    /// The directory lacks the last name.
    Missing { dir: Obj },
    /// A name before the last one is missing.
    NotFound,
    /// A name is sought in what is no directory.
    NotDir,
}

/// Where a walk ends, and the label joined from those of the directories looked into.
#[derive(Clone, Copy)]
pub struct Walked {
    pub outcome: Outcome,
    pub seen: Label,
}

/// Where a path leads: an object, and the directory in which its last name stands; a path of no names has none.
#[derive(Clone, Copy)]
pub(crate) struct Spot {
    pub(crate) object: u32,
    pub(crate) dir: Option<u32>,
}

impl Files {
    /// Goes along a path, and joins the labels of the directories that it looks into.
    #[tactic(auto, using(crate::proofs::Walking::steps))]
    pub fn walk<L: Ledger>(&self, who: &Caller, path: &Path<'_>, steps: &mut Steps<L>) -> Walked
        ensures named { NamedWell result.outcome (length (path_of path.now).names) }
        ensures walk { (p : _) → p.cwd ≡ who.now.cwd.0 → seen_of result ≡ seen_in (walk self.now.objects p (path_of path.now)) }
    {
        let mut at = if path.absolute() { 0 } else { who.cwd.0 };
        let mut dir = None;
        let mut seen = Label::bottom();
        let mut left = path.names();
        'names: while let Some(name) = left.next() {
            let Some(label) = self.tables.directory(at) else {
                return Walked {
                    outcome: Outcome::NotDir,
                    seen,
                };
            };
            seen = seen.join(label, steps);
            let Some(next) = self.tables.child(at, &name) else {
                return Walked {
                    outcome: lacking(&left, at),
                    seen,
                };
            };
            dir = Some(Obj(at));
            at = next;
        }
        Walked {
            outcome: Outcome::Found { obj: Obj(at), dir },
            seen,
        }
    }

    /// All directories that a walk looks into are observed before its outcome is answered.
    #[tactic(auto, unfolding(ix_model::specs::rows::Rows::coding, ix_model::specs::rows::Walks::walked_to))]
    pub(crate) fn walked_to<R: Others, L: Ledger>(
        &self,
        who: &mut CallerIn<R>,
        path: &Path<'_>,
        steps: &mut Steps<L>,
    ) -> Result<Outcome, Refusal>
        requires counted { IsCounted self.now who.old }
        ensures named { IfOk result (λ o. NamedWell o (length (path_of path.now).names)) }
        ensures row { RowMeans sought_of result (frame_of R.rest self.now who.new) (walked_to R.rest.pid (path_of path.now) (frame_of R.rest self.now who.old)) }
        ensures counted { IsCounted self.now who.new }
    {
        let walked = self.walk(who.caller(), path, steps);
        self.observe(who, &walked.seen, steps)?;
        Ok(walked.outcome)
    }

    /// The object of a path, which must be there.
    #[tactic(auto, unfolding(ix_model::specs::rows::Rows::coding, ix_model::specs::rows::Walks::object_at))]
    pub(crate) fn object_at<R: Others, L: Ledger>(
        &self,
        who: &mut CallerIn<R>,
        path: &Path<'_>,
        steps: &mut Steps<L>,
    ) -> Result<u32, Refusal>
        requires counted { IsCounted self.now who.old }
        ensures row { RowIs result (frame_of R.rest self.now who.new) (object_at R.rest.pid (path_of path.now) (frame_of R.rest self.now who.old)) }
        ensures counted { IsCounted self.now who.new }
    {
        let walked = self.walked_to(who, path, steps)?;
        self.found_object(who, walked)
    }

    /// The number of the object of a path, which must be there, and what is told of it. In a sound world one stands
    /// wherever a walk ends.
    #[tactic(auto, using(crate::proofs::Standing::stands_found))]
    pub(crate) fn object_row_at<R: Others, L: Ledger>(
        &self,
        who: &mut CallerIn<R>,
        path: &Path<'_>,
        steps: &mut Steps<L>,
    ) -> Result<(u32, ObjectRow), Refusal>
        requires sound { Sound (world_of R.rest self.now who.old) }
        requires counted { IsCounted self.now who.old }
        ensures row { RowMeans (λ r. r.0) result (frame_of R.rest self.now who.new) (object_at R.rest.pid (path_of path.now) (frame_of R.rest self.now who.old)) }
        ensures object { IfOk result (λ r. Shows self.now.objects r.0 (Some r.1)) }
        ensures links { IfOk result (λ r. r.1.links ≡ links_of (frame_alone self.now) r.0 (object_by (node self.now.objects r.0) r.1)) }
        ensures within { IfOk result (λ r. r.0 < length self.now.objects) }
        ensures counted { IsCounted self.now who.new }
    {
        let object = self.object_at(who, path, steps)?;
        let Some(x) = self.tables.object(object) else {
            return Err(Refusal::BadFd);
        };
        Ok((object, x))
    }

    /// The object of a path, which must be there, with the directory in which its last name stands.
    #[tactic(auto, unfolding(ix_model::specs::rows::Rows::coding, ix_model::specs::rows::Walks::spot_at, ix_model::specs::rows::Walks::found_spot))]
    pub(crate) fn spot_at<R: Others, L: Ledger>(
        &self,
        who: &mut CallerIn<R>,
        path: &Path<'_>,
        steps: &mut Steps<L>,
    ) -> Result<Spot, Refusal>
        requires counted { IsCounted self.now who.old }
        ensures row { RowMeans spot_of result (frame_of R.rest self.now who.new) (spot_at R.rest.pid (path_of path.now) (frame_of R.rest self.now who.old)) }
        ensures named { IfOk result (λ s. IsSome s.dir → 0 < length (path_of path.now).names) }
        ensures counted { IsCounted self.now who.new }
    {
        match self.walked_to(who, path, steps)? {
            Outcome::Found {
                obj,
                dir: Some(dir),
            } => Ok(Spot {
                object: obj.0,
                dir: Some(dir.0),
            }),
            Outcome::Found { obj, dir: None } => Ok(Spot {
                object: obj.0,
                dir: None,
            }),
            Outcome::Missing { .. } => Err(Refusal::NotFound),
            Outcome::NotFound => Err(Refusal::NotFound),
            Outcome::NotDir => Err(Refusal::NotDir),
        }
    }

    /// The directory of a path whose last name must be missing.
    #[tactic(auto, unfolding(ix_model::specs::rows::Rows::coding, ix_model::specs::rows::Walks::missing))]
    pub(crate) fn missing<R: Others, L: Ledger>(
        &self,
        who: &mut CallerIn<R>,
        path: &Path<'_>,
        steps: &mut Steps<L>,
    ) -> Result<u32, Refusal>
        requires counted { IsCounted self.now who.old }
        ensures named { OnOk result (0 < length (path_of path.now).names) }
        ensures row { RowIs result (frame_of R.rest self.now who.new) (missing R.rest.pid (path_of path.now) (frame_of R.rest self.now who.old)) }
        ensures counted { IsCounted self.now who.new }
    {
        let walked = self.walked_to(who, path, steps)?;
        self.vacant(who, walked)
    }

    /// The object at which a walk ended, which must have found one.
    #[tactic(auto, unfolding(ix_model::specs::rows::Rows::coding, ix_model::specs::rows::Walks::found_object))]
    pub(crate) fn found_object<R: Others>(
        &self,
        who: &CallerIn<R>,
        walked: Outcome,
    ) -> Result<u32, Refusal>
        ensures row { RowIs result (frame_of R.rest self.now who.now) (found_object (sought_of walked) (frame_of R.rest self.now who.now)) }
    {
        let _ = who;
        match walked {
            Outcome::Found { obj, .. } => Ok(obj.0),
            Outcome::Missing { .. } => Err(Refusal::NotFound),
            Outcome::NotFound => Err(Refusal::NotFound),
            Outcome::NotDir => Err(Refusal::NotDir),
        }
    }

    /// The directory that lacks the last name of a walk, which must have found nothing under it.
    #[tactic(auto, unfolding(ix_model::specs::rows::Rows::coding, ix_model::specs::rows::Walks::vacant))]
    pub(crate) fn vacant<R: Others>(
        &self,
        who: &CallerIn<R>,
        walked: Outcome,
    ) -> Result<u32, Refusal>
        ensures named { (n : ℕ) → NamedWell walked n → OnOk result (0 < n) }
        ensures row { RowIs result (frame_of R.rest self.now who.now) (vacant (sought_of walked) (frame_of R.rest self.now who.now)) }
    {
        let _ = who;
        match walked {
            Outcome::Found { .. } => Err(Refusal::Exists),
            Outcome::Missing { dir } => Ok(dir.0),
            Outcome::NotFound => Err(Refusal::NotFound),
            Outcome::NotDir => Err(Refusal::NotDir),
        }
    }
}

/// A missing name: the last one, or one before it.
fn lacking(left: &Names<'_>, at: u32) -> Outcome
    ensures named { (n : ℕ) → 0 < n → NamedWell result n }
    ensures lacking { sought_of result ≡ (lacking at (names_left left.now)).outcome }
{
    if left.is_empty() {
        Outcome::Missing { dir: Obj(at) }
    } else {
        Outcome::NotFound
    }
}
