//! Two scripts, run side by side in the order of their lines.
ghost use Rattle.std.{specs.{Prelude.{true, [], ◌≡◌, ℕ, ◌++◌, ◌≤◌, List, Option, Some, None, IfOk, OnOk, codes}, Fmt.{decimal}}, proofs.Common.{option_map}};
ghost use Rattle.ix_lanes.specs.asking.Ruled.{rules_told};
ghost use Rattle.ix_model.specs.world.Naming.{same_bytes, same_names};
ghost use Rattle.ix_script.specs.{lines.Before.{lanes_of}, scripts.Scripts.{config_of}};
ghost use Rattle.ix_twin.specs.{Running.{Compares}, Lines.{begin_alike, end_line, have_same_lanes, same_form, twin_text}};

use crate::side::Side;
use crate::turn::{Bufs, Turn, push, take_turn};
use crate::twin::Twin;
use itoa::Buffer;
use ix_label::{Form, Label};
use ix_model::NoMemory;
use ix_policy::Policy;
use ix_script::Script;
use std::alloc::Global;

/// Appends a word, a number and a line feed.
fn push_number(out: &mut Vec<u8>, word: &[u8], n: u32) -> Result<(), NoMemory>
    ensures { OnOk result (out.new.items ≡ out.old.items ++ (word.now ++ decimal n ++ codes "\n")) }
{
    let mut digits = Buffer::new();
    push(out, word)?;
    push(out, digits.format(n).as_bytes())?;
    push(out, b"\n")
}

/// Whether two forms are one.
fn same_form(one: Form, two: Form) -> bool
    ensures { result ≡ same_form one two }
{
    match (one, two) {
        (Form::One, Form::One) => true,
        (Form::Two, Form::Two) => true,
        _ => false,
    }
}

/// Whether two names are one.
fn same_name(one: &[u8], two: &[u8]) -> bool
    ensures { result ≡ same_bytes one.now two.now }
{
    one == two
}

/// Whether the lanes of two scripts have the same names.
fn same_lanes(one: &Script<'_>, two: &Script<'_>) -> bool
    ensures { result ≡ same_names (lanes_of one.now) (lanes_of two.now) }
{
    if one.lanes() != two.lanes() {
        return false;
    }
    for seat in 0..one.lanes() {
        let (Some(name), Some(other)) = (one.lane(seat), two.lane(seat)) else {
            unreachable!()
        };
        if !same_name(name, other) {
            return false;
        }
    }
    true
}

/// Whether two scripts have one form and the same lanes.
#[tactic(auto, unfolding(crate::specs::Lines::have_same_lanes))]
fn have_same_lanes(one: &Script<'_>, two: &Script<'_>) -> bool
    ensures { result ≡ have_same_lanes one.now two.now }
{
    same_form(one.form(), two.form()) && same_lanes(one, two)
}

/// The lines, with the first line of a word and a number in front of them, and behind them how many places they are of.
#[tactic(auto, unfolding(crate::specs::Lines::end_line))]
fn framed(
    alloc: Global,
    lines: &[u8],
    word: &[u8],
    n: u32,
    places: u32,
) -> Result<Vec<u8>, NoMemory>
    ensures { IfOk result (λ text. text.items ≡ word.now ++ decimal n ++ codes "\n" ++ lines.now ++ end_line places) }
{
    let mut text = Vec::new(alloc);
    push_number(&mut text, word, n)?;
    push(&mut text, lines)?;
    push_number(&mut text, b"end ", places)?;
    Ok(text)
}

/// Makes the entries of two runs that begin alike, as long as they agree, and gives what is written of them. After `NoMemory` the runs aren't
/// gone on with.
fn run_both(
    alloc: Global,
    twin: &mut Twin,
    first: &mut Side<'_>,
    second: &mut Side<'_>,
) -> Result<Vec<u8>, NoMemory>
    requires first { first.old.calls.script ≡ first.old.script.now }
    requires second { second.old.calls.script ≡ second.old.script.now }
    requires alike { begin_alike twin.old.at first.old.script.now second.old.script.now ≡ true }
    requires begun { Compares twin.old.at first.old.script.now second.old.script.now (record { twins = twin.old; first = first.old.calls; second = second.old.calls }) [] 0 0 }
    ensures { IfOk result (λ text. text.items ≡ twin_text twin.old.at first.old.script.now second.old.script.now) }
{
    let mut lines = Vec::new(alloc);
    let mut bufs = Bufs {
        first: [0; 4096],
        second: [0; 4096],
    };
    let mut places = 0;
    let mut agreed = 0;
    'turns: loop {
        match take_turn(twin, first, second, &mut bufs, &mut lines)? {
            Turn::Agree { shown, .. } => {
                agreed = twin.first().len();
                places += u32::from(shown);
            }
            Turn::Apart => {
                return framed(alloc, lines.as_slice(), b"differ ", agreed + 1, places);
            }
            Turn::Over => return framed(alloc, lines.as_slice(), b"agree ", agreed, places),
        }
    }
}

/// What is written of two scripts that begin alike, whose runs have no entries yet.
fn run_scripts(
    alloc: Global,
    twin: &mut Twin,
    one: &Script<'_>,
    policy: Option<&Policy>,
    two: &Script<'_>,
    other_policy: Option<&Policy>,
) -> Result<Vec<u8>, NoMemory>
    requires first { option_map (λ p. p.now) policy ≡ rules_told one.now }
    requires second { option_map (λ p. p.now) other_policy ≡ rules_told two.now }
    requires bare { twin.old ≡ record { at = twin.old.at; first = record { config = config_of one.now; events = [] }; second = record { config = config_of two.now; events = [] } } }
    requires alike { begin_alike twin.old.at one.now two.now ≡ true }
    ensures { IfOk result (λ text. text.items ≡ twin_text twin.old.at one.now two.now) }
{
    let mut first = Side::new(alloc, one, policy)?;
    let mut second = Side::new(alloc, two, other_policy)?;
    run_both(alloc, twin, &mut first, &mut second)
}

/// The runs of two scripts, which are to be compared at a label, without entries.
fn twin_of(alloc: Global, at: &Label, one: &Script<'_>, two: &Script<'_>) -> Result<Twin, NoMemory>
    ensures { IfOk result (λ twin. twin ≡ record { at = at.now; first = record { config = config_of one.now; events = [] }; second = record { config = config_of two.now; events = [] } }) }
{
    let first = one.config(alloc)?;
    let second = two.config(alloc)?;
    Twin::new(alloc, first, second, at)
}

/// Whether two scripts begin alike at a label, whose runs have no entries yet.
#[tactic(auto, unfolding(crate::specs::Lines::begin_alike))]
fn begin_alike(twin: &Twin, one: &Script<'_>, two: &Script<'_>) -> bool
    requires first { twin.now.first.config ≡ config_of one.now }
    requires second { twin.now.second.config ≡ config_of two.now }
    ensures { result ≡ begin_alike twin.now.at one.now two.now }
{
    have_same_lanes(one, two) && twin.start()
}

/// What is written of two scripts whose runs have no entries yet.
fn compare_runs(
    alloc: Global,
    twin: &mut Twin,
    one: &Script<'_>,
    policy: Option<&Policy>,
    two: &Script<'_>,
    other_policy: Option<&Policy>,
) -> Result<Vec<u8>, NoMemory>
    requires first { option_map (λ p. p.now) policy ≡ rules_told one.now }
    requires second { option_map (λ p. p.now) other_policy ≡ rules_told two.now }
    requires bare { twin.old ≡ record { at = twin.old.at; first = record { config = config_of one.now; events = [] }; second = record { config = config_of two.now; events = [] } } }
    ensures { IfOk result (λ text. text.items ≡ twin_text twin.old.at one.now two.now) }
{
    if !begin_alike(twin, one, two) {
        return framed(alloc, b"", b"differ ", 0, 0);
    }
    run_scripts(alloc, twin, one, policy, two, other_policy)
}

/// What is written of two scripts that are compared at a label: whether their serial runs agree there, the lines of both at each place where
/// the caller is low in the first run, up to the first entry that crosses the label, and how many such places there are. Each script comes
/// with its policy, if it has one.
pub fn compare(
    alloc: Global,
    at: &Label,
    one: &Script<'_>,
    policy: Option<&Policy>,
    two: &Script<'_>,
    other_policy: Option<&Policy>,
) -> Result<Vec<u8>, NoMemory>
    requires first { option_map (λ p. p.now) policy ≡ rules_told one.now }
    requires second { option_map (λ p. p.now) other_policy ≡ rules_told two.now }
    ensures { IfOk result (λ text. text.items ≡ twin_text at.now one.now two.now) }
{
    let mut twin = twin_of(alloc, at, one, two)?;
    compare_runs(alloc, &mut twin, one, policy, two, other_policy)
}
