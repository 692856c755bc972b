//! Whether two configs differ no further than in what high files hold.
ghost use Rattle.std.specs.{Prelude.{◌≡◌}, Cmp.Lexicographic.{pointwise}};
ghost use Rattle.ix_twin.specs.Configs.{differ_above, same_fs, same_limits, same_object, same_proc};

use crate::sameness::same_path;
use ix_label::{Label, Steps};
use ix_model::{Config, FsSpec, Limits, ObjSpec, ProcSpec};
use std::sync::ledger::Ledger;

/// Whether two file systems are one.
fn same_fs<L: Ledger>(one: &FsSpec, other: &FsSpec, steps: &mut Steps<L>) -> bool
    ensures { result ≡ same_fs one.now other.now }
{
    one.name.as_ref().same(&other.name.as_ref())
        && one.ceiling.same(&other.ceiling, steps)
        && one.blocks == other.blocks
        && one.inodes == other.inodes
}

fn same_fss<L: Ledger>(one: &[FsSpec], two: &[FsSpec], steps: &mut Steps<L>) -> bool
    ensures { result ≡ pointwise same_fs one.now two.now }
{
    if one.len() != two.len() {
        return false;
    }
    for i in 0..one.len() {
        if !same_fs(&one[i], &two[i], steps) {
            return false;
        }
    }
    true
}

fn same_limits(one: &Limits, two: &Limits) -> bool
    ensures { result ≡ same_limits one.now two.now }
{
    one.procs == two.procs
        && one.opens == two.opens
        && one.pipes == two.pipes
        && one.names == two.names
        && one.log == two.log
}

/// Whether two processes that are there at the start are one.
fn same_proc<L: Ledger>(one: &ProcSpec, two: &ProcSpec, steps: &mut Steps<L>) -> bool
    ensures { result ≡ same_proc one.now two.now }
{
    one.label.same(&two.label, steps)
        && one.ceiling.same(&two.ceiling, steps)
        && one.cap == two.cap
        && one.lic == two.lic
}

fn same_procs<L: Ledger>(one: &[ProcSpec], two: &[ProcSpec], steps: &mut Steps<L>) -> bool
    ensures { result ≡ pointwise same_proc one.now two.now }
{
    if one.len() != two.len() {
        return false;
    }
    for i in 0..one.len() {
        if !same_proc(&one[i], &two[i], steps) {
            return false;
        }
    }
    true
}

/// Whether two objects that are there at the start are one, but for what a file holds that isn't at or below a label.
fn same_object<L: Ledger>(one: &ObjSpec, two: &ObjSpec, at: &Label, steps: &mut Steps<L>) -> bool
    ensures { result ≡ same_object at.now one.now two.now }
{
    same_path(&one.path.as_path(), &two.path.as_path())
        && one.dir == two.dir
        && one.label.same(&two.label, steps)
        && one.frozen == two.frozen
        && one.cap == two.cap
        && one.lic == two.lic
        && (!one.label.leq(at, steps) || one.bytes.same(&two.bytes))
}

fn same_objects<L: Ledger>(
    one: &[ObjSpec],
    two: &[ObjSpec],
    at: &Label,
    steps: &mut Steps<L>,
) -> bool
    ensures { result ≡ pointwise (same_object at.now) one.now two.now }
{
    if one.len() != two.len() {
        return false;
    }
    for i in 0..one.len() {
        if !same_object(&one[i], &two[i], at, steps) {
            return false;
        }
    }
    true
}

/// Whether two configs differ in nothing but the journal's size and what files hold that aren't at or below a label.
#[tactic(auto, unfolding(crate::specs::Configs::differ_above))]
pub fn differ_above<L: Ledger>(one: &Config, two: &Config, at: &Label, steps: &mut Steps<L>) -> bool
    ensures { result ≡ differ_above at.now one.now two.now }
{
    same_fss(one.fss.as_slice(), two.fss.as_slice(), steps)
        && same_limits(&one.limits, &two.limits)
        && same_procs(one.procs.as_slice(), two.procs.as_slice(), steps)
        && same_objects(one.objects.as_slice(), two.objects.as_slice(), at, steps)
}
