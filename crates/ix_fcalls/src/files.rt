ghost use Rattle.std.specs.Prelude.{◌≡◌, ◌<◌, ◌≤◌, is_some, length, IsTrue, IfOk, IfSome, true, false};
ghost use Rattle.ix_label.specs.Category.{leq};
ghost use Rattle.ix_model.specs.{history.{Calls.{op_of}, Step.{step}}, laws.Sound.{Sound}, opening.{Opening.{opening_world}, Valid.{is_valid}}};
ghost use Rattle.ix_model.specs.{rows.Walks.{node}, world.World.{at, change, ceiling_of, is_pipe, lives}};
ghost use Rattle.ix_tables.specs.{Views.{Shows, object_by}, Parts.{parts_of}};
ghost use Rattle.ix_fcalls.specs.{Around.{Moment, around, world_of, with_who}, Filed.{Answers, is_filed}, Moving.{reply_of}, Tested.{IsKnown}};

use crate::moved::Moved;
use ix_label::{Label, Steps};
use ix_model::{Buf, Call, Caller, Config, Limits, NoMemory, Obj, PrivSet, Reply};
use ix_tables::{ObjectRow, Tables};
use std::alloc::Global;
use std::marker::{Brand, Model};
use std::sync::ledger::Ledger;

/// Files, directories, pipes and open entries, with the calls on them.
///
/// Contracts see the parts of a world that these are. All memory is taken by [`new`](Files::new). Each call with a
/// process asks that its descriptors and its working directory are counted, as the last call with it left them.
#[derive(Drop)]
pub struct Files {
    pub(crate) tables: Tables,
}

impl Model for Files {
    ghost use Rattle.std.specs.Coded.{codes};
    ghost use Rattle.ix_label.specs.contracts.label.Label as label_type;
    ghost use Rattle.ix_tables.specs.Parts.{Parts};

    ghost Value = { Parts };

    ghost coded = { Prim.hlevel (codes, label_type.the_row.coded) };

    ghost view = { λ m. m.tables };
}

impl Files {
    /// Files as a config describes them, with its processes at home in the root and without descriptors. It takes all
    /// memory that there will be.
    pub fn new(alloc: Global, config: &Config) -> Result<Files, NoMemory>
        requires { IsTrue (is_valid config.now) }
        ensures { IfOk result (λ f. f ≡ parts_of (opening_world config.now)) }
    {
        Ok(Files {
            tables: Tables::new(alloc, config)?,
        })
    }

    /// A call on files by a process, in a sound world whose parts these files are and in which it lives: they move as the
    /// world's step says, and so does the process; all else in the world stays. There are at most 1,024 processes.
    pub fn call<L: Ledger>(
        &mut self,
        who: &mut Caller,
        call: &Call<'_>,
        buf: &mut Buf,
        steps: &mut Steps<L>,
    ) -> Reply
        ghost moment: { Moment }
        requires filed { IsTrue (is_filed (op_of call.now)) }
        requires sound { Sound moment.world }
        requires parts { self.old ≡ parts_of moment.world }
        requires who { with_who moment.world.frame.processes who.old ≡ moment.world.frame.processes }
        requires lives { lives moment.world.frame who.old.pid.0 ≡ true }
        requires few { moment.world.frame.limits.procs ≤ 1024 }
        ensures step { Answers (step moment.world moment.place who.old.pid.0 (op_of call.now)) (world_of (around moment.place who.old.pid.0 moment.world) self.new (with_who moment.world.frame.processes who.new)) result buf.old buf.new }
        ensures parts { self.new ≡ parts_of (step moment.world moment.place who.old.pid.0 (op_of call.now)).world }
        ensures pid { who.new.pid.0 ≡ who.old.pid.0 }
    {
        self.turn::<Brand, L>(who, call, buf, steps)
    }

    /// A read or a write through a descriptor of which it is known that a look at the labels would change none. It moves the
    /// files as [`call`](Files::call) does, and looks at no label; the process stays as it is.
    pub fn call_fresh(&mut self, who: &Caller, call: &Call<'_>, buf: &mut Buf) -> Moved
        ghost moment: { Moment }
        requires known { IsKnown moment.world.frame who.now.pid.0 (op_of call.now) }
        requires sound { Sound moment.world }
        requires parts { self.old ≡ parts_of moment.world }
        requires who { with_who moment.world.frame.processes who.now ≡ moment.world.frame.processes }
        requires lives { lives moment.world.frame who.now.pid.0 ≡ true }
        ensures step { Answers (step moment.world moment.place who.now.pid.0 (op_of call.now)) (world_of (around moment.place who.now.pid.0 moment.world) self.new moment.world.frame.processes) (reply_of result) buf.old buf.new }
        ensures parts { self.new ≡ parts_of (step moment.world moment.place who.now.pid.0 (op_of call.now)).world }
    {
        self.turn_known::<Brand>(who, call, buf)
    }

    /// Sets the label of an object, to one at or below its ceiling.
    pub fn set_label(&mut self, obj: Obj, label: Label)
        requires lives { IsTrue (is_some (at self.old.objects obj.0)) }
        requires below { IsTrue (leq label (ceiling_of self.old.fss (node self.old.objects obj.0))) }
        ensures { self.new ≡ record self.old { objects = change self.old.objects obj.0 (λ x. record x { label = label }) } }
    {
        self.tables.set_label(obj.0, label);
    }

    /// Freezes the label of a file or a directory, or lets it float again. It asks that it is no pipe, and looks at no label.
    pub fn set_frozen(&mut self, obj: Obj, on: bool)
        requires lives { IsTrue (is_some (at self.old.objects obj.0)) }
        requires inode { is_pipe (node self.old.objects obj.0) ≡ false }
        ensures { self.new ≡ record self.old { objects = change self.old.objects obj.0 (λ x. record x { frozen = on }) } }
    {
        self.tables.set_frozen(obj.0, on);
    }

    /// Sets the capabilities and the licences that a file or a directory carries. It asks that it is no pipe.
    pub fn set_privs(&mut self, obj: Obj, cap: PrivSet, lic: PrivSet)
        requires lives { IsTrue (is_some (at self.old.objects obj.0)) }
        requires inode { is_pipe (node self.old.objects obj.0) ≡ false }
        ensures { self.new ≡ record self.old { objects = change self.old.objects obj.0 (λ x. record x { cap = cap; lic = lic }) } }
    {
        self.tables.set_privs(obj.0, cap, lic);
    }

    /// What is told of an object; `None` exactly where there is none.
    pub fn object(&self, obj: Obj) -> Option<ObjectRow>
        ensures object { Shows self.now.objects obj.0 result }
        ensures ceiling { IfSome result (λ x. x.float.ceiling ≡ ceiling_of self.now.fss (object_by (node self.now.objects obj.0) x)) }
    {
        self.tables.object(obj.0)
    }

    /// How many numbers of objects there are: all inodes and all pipes.
    pub fn objects(&self) -> u32
        ensures { result ≡ length self.now.objects }
    {
        self.tables.objects()
    }

    /// How many there can be at most.
    pub fn limits(&self) -> &Limits
        ensures { result.now ≡ self.now.limits }
    {
        self.tables.limits()
    }
}
