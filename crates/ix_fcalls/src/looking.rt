ghost use Rattle.std.specs.Prelude.{◌≡◌, OnErr};
ghost use Rattle.ix_model.specs.{laws.Sound.{Sound}, rows.{OnPaths.{stat_at, list_at}, Outcomes.{RowIs}}, world.Paths.{path_of}};
ghost use Rattle.ix_fcalls.specs.{Around.{frame_of, world_of}, Counted.{IsCounted, Keeps}};

use crate::caller_in::{CallerIn, Others};
use crate::files::Files;
use ix_label::Steps;
use ix_model::{Kind, Obj, Path, Refusal, Reply};
use std::sync::ledger::Ledger;

/// Looks at objects by their paths.
impl Files {
    /// StatAt: what an object is; its size comes later. A refusal may have raised the caller's label.
    #[tactic(auto, unfolding(ix_model::specs::rows::Rows::coding, ix_model::specs::rows::OnPaths::stat_at))]
    pub(crate) fn stat_at<R: Others, L: Ledger>(
        &mut self,
        who: &mut CallerIn<R>,
        path: &Path<'_>,
        steps: &mut Steps<L>,
    ) -> Result<Reply, Refusal>
        requires sound { Sound (world_of R.rest self.old who.old) }
        requires counted { IsCounted self.old who.old }
        ensures row { RowIs result (frame_of R.rest self.new who.new) (stat_at R.rest.pid (path_of path.now) (frame_of R.rest self.old who.old)) }
        ensures counted { IsCounted self.new who.new }
        ensures back { OnErr result (self.new ≡ self.old) }
        ensures kept { Keeps self.old self.new }
    {
        let (object, x) = self.object_row_at(who, path, steps)?;
        self.observe(who, &x.float.label, steps)?;
        Ok(Reply::Stat {
            obj: Obj(object),
            kind: x.kind,
            size: 0,
            links: x.links,
            frozen: x.float.frozen,
            cap: x.cap,
            lic: x.lic,
        })
    }

    /// ListAt: a name of a directory, counted from 0 in order of making, and what it names. A refusal may have raised the
    /// caller's label.
    #[tactic(auto, unfolding(ix_model::specs::rows::Rows::coding, ix_model::specs::rows::OnPaths::list_at))]
    pub(crate) fn list_at<R: Others, L: Ledger>(
        &mut self,
        who: &mut CallerIn<R>,
        path: &Path<'_>,
        index: u32,
        steps: &mut Steps<L>,
    ) -> Result<Reply, Refusal>
        requires sound { Sound (world_of R.rest self.old who.old) }
        requires counted { IsCounted self.old who.old }
        ensures row { RowIs result (frame_of R.rest self.new who.new) (list_at R.rest.pid (path_of path.now) index (frame_of R.rest self.old who.old)) }
        ensures counted { IsCounted self.new who.new }
        ensures back { OnErr result (self.new ≡ self.old) }
        ensures kept { Keeps self.old self.new }
    {
        let (object, x) = self.object_row_at(who, path, steps)?;
        let Kind::Dir = x.kind else {
            return Err(Refusal::NotDir);
        };
        self.observe(who, &x.float.label, steps)?;
        let Some((name, obj)) = self.tables.name_at(object, index) else {
            return Err(Refusal::EndOfList);
        };
        Ok(Reply::Named {
            name,
            obj: Obj(obj),
        })
    }
}
