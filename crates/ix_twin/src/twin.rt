ghost use Rattle.std.specs.Prelude.{◌<◌, ◌≡◌, ◌↔◌, ◌==◌, ◌&&◌, ◌||◌, not, true, [], IfOk, IsTrue, length, slice_get};
ghost use Rattle.ix_label.specs.Category.{leq};
ghost use Rattle.ix_model.specs.{history.Calls.{event_of}, history.Cost.{cost_of, cost_of_history}, history.History.{History, next, with_entry, world_of}};
ghost use Rattle.ix_model.specs.{history.Step.{put_front}, opening.Valid.{is_valid}, two_runs.TwoRuns.{is_one_kind}};
ghost use Rattle.ix_iso.specs.Configs.{DifferAbove};
ghost use Rattle.ix_twin.specs.{Configs.{differ_above}, Tests.{agrees, crosses, is_high, is_low}, Twins.{HasRoomFor, HaveAgreed, IsGiven, StepsTo, Twins}};

use crate::configs::differ_above;
use crate::tests::{agrees, has_crossed, is_low, is_one_kind};
use ix_core::Core;
use ix_label::{Label, Steps};
use ix_model::{Answer, Buf, Config, Entry, NoMemory, Reply};
use std::alloc::Global;
use std::marker::{Brand, Model};
use std::sync::ledger::{Blank, Ledger};

/// What a step of two runs answers.
#[derive(Clone, Copy)]
pub enum TwinStep {
    /// The entries so far agree.
    Same {
        /// What the machine replied in the first run; the bytes are in its buffer.
        first: Reply,
        /// The same in the second run.
        second: Reply,
        /// Whether the caller lives after its call in the first run, with a label at or below the one at which the runs are compared.
        low: bool,
        /// Whether no entry before this one crossed that label.
        clear: bool,
    },
    /// They don't agree. The two runs aren't gone on with.
    Apart,
}

/// Two runs that are compared at a label, step by step.
#[derive(Drop)]
pub struct Twin {
    at: Label,
    first: Core,
    second: Core,
    /// The configs differ in no more than the journal's size and what files hold that aren't at or below the label.
    alike: bool,
    /// No entry of the first run has crossed the label.
    clear: bool,
}

impl Model for Twin {
    ghost use Rattle.std.specs.{Prelude.{◌≡◌}, Coded.{codes}};
    ghost use Rattle.ix_label.specs.contracts.label.Label as label_type;
    ghost use Rattle.ix_model.specs.opening.Opening.{opening_world};
    ghost use Rattle.ix_twin.specs.{Configs.{differ_above}, Tests.{none_crosses}, Twins.{Twins}};

    ghost Value = { Twins };

    ghost coded = { Prim.hlevel (codes, label_type.the_row.coded) };

    ghost view = { λ t. record { at = t.at; first = t.first; second = t.second } };

    ghost invariant = { λ t. (t.alike ≡ differ_above t.at t.first.config t.second.config)
        × (t.clear ≡ none_crosses t.at (opening_world t.first.config) 1 t.first.events) };
}

impl Twin {
    /// Two runs without entries, each from a valid config, which are to be compared at a label. It takes all memory that there will be.
    pub fn new(alloc: Global, first: Config, second: Config, at: &Label) -> Result<Twin, NoMemory>
        requires first { IsTrue (is_valid first) }
        requires second { IsTrue (is_valid second) }
        ensures { IfOk result (λ twin. twin ≡ record { at = at.now; first = record { config = first; events = [] }; second = record { config = second; events = [] } }) }
    {
        let alike = configs_alike::<Brand>(&first, &second, at, Blank::new(1));
        Ok(Twin {
            at: *at,
            first: Core::boot(alloc, first)?,
            second: Core::boot(alloc, second)?,
            alike,
            clear: true,
        })
    }

    /// Whether the two configs differ in no more than the journal's size and what files hold that aren't at or below the label.
    pub fn start(&self) -> bool
        ensures { IsTrue result ↔ DifferAbove self.now.at self.now.first.config self.now.second.config }
    {
        self.alike
    }

    /// Makes one entry more in each run. It takes no memory. Where the entries so far agree at the label, it answers what both runs gave, with the
    /// bytes of each in its buffer, whether the caller is low in the first run after it, and whether no entry before it crossed the label.
    pub fn step(
        &mut self,
        one: &Entry<'_>,
        two: &Entry<'_>,
        buf1: &mut Buf,
        buf2: &mut Buf,
    ) -> TwinStep
        requires agreed { HaveAgreed self.old }
        requires first { HasRoomFor self.old.first (event_of one.now) }
        requires second { HasRoomFor self.old.second (event_of two.now) }
        ensures { StepsTo result self.old self.new (event_of one.now) (event_of two.now) buf1.old buf1.new buf2.old buf2.new }
    {
        step_uncounted::<Brand>(self, one, two, buf1, buf2, Blank::new(1))
    }

    /// The first run.
    pub fn first(&self) -> &Core
        ensures { result.now ≡ self.now.first }
    {
        &self.first
    }

    /// The second run.
    pub fn second(&self) -> &Core
        ensures { result.now ≡ self.now.second }
    {
        &self.second
    }
}

/// Whether two configs differ no further, where nobody is told of the looks at labels.
fn configs_alike<L: Ledger>(first: &Config, second: &Config, at: &Label, blank: Blank) -> bool
    requires name { blank.name ≡ L.name }
    requires parts { blank.parts ≡ L.parts }
    requires some { 0 < L.parts }
    ensures { result ≡ differ_above at.now first.now second.now }
{
    let mut steps = Steps::<L>::new(blank);
    differ_above(first, second, at, &mut steps)
}

/// A step of both runs, with the looks at labels counted under a ledger of the caller's choice, who isn't told how many they were.
fn step_uncounted<L: Ledger>(
    twin: &mut Twin,
    one: &Entry<'_>,
    two: &Entry<'_>,
    buf1: &mut Buf,
    buf2: &mut Buf,
    blank: Blank,
) -> TwinStep
    requires name { blank.name ≡ L.name }
    requires parts { blank.parts ≡ L.parts }
    requires some { 0 < L.parts }
    requires agreed { HaveAgreed twin.old }
    requires first { HasRoomFor twin.old.first (event_of one.now) }
    requires second { HasRoomFor twin.old.second (event_of two.now) }
    ensures { StepsTo result twin.old twin.new (event_of one.now) (event_of two.now) buf1.old buf1.new buf2.old buf2.new }
{
    let mut steps = Steps::<L>::new(blank);
    if !agrees(&twin.first, one, two, &twin.at, &mut steps) {
        return TwinStep::Apart;
    }
    let lines = twin.first.log_len();
    let first = make(&mut twin.first, one, buf1, &mut steps);
    let second = make(&mut twin.second, two, buf2, &mut steps);
    let low = is_low(&twin.first, one.pid, &twin.at, &mut steps);
    let clear = twin.clear;
    twin.clear = clear && !has_crossed(&twin.first, lines, &twin.at, &mut steps);
    if is_one_kind(&first, &second) {
        TwinStep::Same {
            first,
            second,
            low,
            clear,
        }
    } else {
        TwinStep::Apart
    }
}

/// Makes an entry for which the journal has room.
fn make<L: Ledger>(core: &mut Core, entry: &Entry<'_>, buf: &mut Buf, steps: &mut Steps<L>) -> Reply
    requires { HasRoomFor core.old (event_of entry.now) }
    ensures made { core.new ≡ with_entry core.old (event_of entry.now) }
    ensures given { IsGiven core.old (event_of entry.now) result buf.old buf.new }
{
    match core.step(entry.seat, entry.line, entry.pid, &entry.call, buf, steps) {
        Answer::Given(reply) => reply,
        Answer::JournalFull { .. } => unreachable!(),
        Answer::NoMemory => unreachable!(),
    }
}
