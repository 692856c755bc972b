ghost use Rattle.std.specs.{Prelude.{◌≡◌, ◌++◌, ◌<◌, ◌||◌, OnOk, OnErr, IfOk}, List.{flat_map, list_any, range_with_len}};
ghost use Rattle.ix_policy_texts.specs.Differences.{difference_line, difference_text, none_text, pair_differs, pair_lines, policies_differ, policy_lines, rule_differs, rule_lines};

use crate::requests::{push_request, push_ruling};
use ix_label::{Form, Steps};
use ix_model::{Name, NoMemory};
use ix_policing::{Difference, Sought, difference_at, unnamed_user};
use ix_policy::Policy;
use ix_report::Line;
use std::marker::Brand;
use std::sync::ledger::{Blank, Ledger};

/// Appends a line for each two rules, of the first policy and of the second, that decide a request differently, as is sought: the
/// greatest such request, and both rulings. Where there are none it says so. It answers whether there are any.
///
/// After `NoMemory` the bytes are as they were. It decides at most 257 times 257 requests under each, and takes memory for the text
/// alone.
pub fn difference_text(
    out: &mut Vec<u8>,
    form: Form,
    sought: Sought,
    first: &Policy,
    second: &Policy,
) -> Result<bool, NoMemory>
    ensures ok { OnOk result (out.new.items ≡ out.old.items ++ difference_text form sought first.now second.now) }
    ensures differ { IfOk result (λ any. any ≡ policies_differ sought first.now second.now) }
    ensures err { OnErr result (out.new.items ≡ out.old.items) }
{
    difference_counted::<Brand>(out, form, sought, first, second, Blank::new(1))
}

/// The same, with a counter of its own.
fn difference_counted<L: Ledger>(
    out: &mut Vec<u8>,
    form: Form,
    sought: Sought,
    first: &Policy,
    second: &Policy,
    blank: Blank,
) -> Result<bool, NoMemory>
    requires name { blank.name ≡ L.name }
    requires parts { blank.parts ≡ L.parts }
    requires some { 0 < L.parts }
    ensures ok { OnOk result (out.new.items ≡ out.old.items ++ difference_text form sought first.now second.now) }
    ensures differ { IfOk result (λ any. any ≡ policies_differ sought first.now second.now) }
    ensures err { OnErr result (out.new.items ≡ out.old.items) }
{
    let mut steps = Steps::<L>::new(blank);
    let mut line = Line::begin(out);
    match push_all(&mut line, form, sought, first, second, &mut steps) {
        Ok(any) => {
            line.end(out, Ok(()))?;
            Ok(any)
        }
        Err(_) => {
            let _ = line.end(out, Err(NoMemory));
            Err(NoMemory)
        }
    }
}

/// The line of a difference.
#[tactic(auto, unfolding(crate::specs::Differences::difference_line))]
fn push_line(line: &mut Line, form: Form, found: &Difference) -> Result<(), NoMemory>
    ensures stays { line.new.before ≡ line.old.before }
    ensures text { OnOk result (line.new.text ≡ line.old.text ++ difference_line form found.now) }
{
    push_request(line, form, &found.request)?;
    line.push(b" first ")?;
    push_ruling(line, form, &found.request, &found.first)?;
    line.push(b" second ")?;
    push_ruling(line, form, &found.request, &found.second)?;
    line.push(b"\n")
}

/// The line of the rules of these numbers, if they differ; and whether they do.
#[tactic(auto, unfolding(crate::specs::Differences::pair_lines, crate::specs::Differences::pair_differs))]
fn push_pair<L: Ledger>(
    line: &mut Line,
    form: Form,
    sought: Sought,
    first: &Policy,
    second: &Policy,
    other: &Name,
    numbers: (u32, u32),
    steps: &mut Steps<L>,
) -> Result<bool, NoMemory>
    ensures stays { line.new.before ≡ line.old.before }
    ensures text { OnOk result (line.new.text ≡ line.old.text ++ pair_lines form sought first.now second.now other.now numbers.0 numbers.1) }
    ensures differ { IfOk result (λ any. any ≡ pair_differs sought first.now second.now other.now numbers.0 numbers.1) }
{
    match difference_at(first, second, sought, numbers, other, steps) {
        None => Ok(false),
        Some(found) => {
            push_line(line, form, &found)?;
            Ok(true)
        }
    }
}

/// Whether one of the two holds.
fn either(one: bool, other: bool) -> bool
    ensures { result ≡ (one || other) }
{
    one || other
}

/// The lines of a rule of the first policy and so many of the second; and whether there are any.
#[tactic(auto, using(crate::proofs::Lines::next_pair, crate::proofs::Lines::no_pair, crate::proofs::Lines::next_pair_any, crate::proofs::Lines::no_pair_any))]
fn push_pairs<L: Ledger>(
    line: &mut Line,
    form: Form,
    sought: Sought,
    first: &Policy,
    second: &Policy,
    other: &Name,
    number: u32,
    count: u32,
    steps: &mut Steps<L>,
) -> Result<bool, NoMemory>
    ensures stays { line.new.before ≡ line.old.before }
    ensures text { OnOk result (line.new.text ≡ line.old.text ++ flat_map (pair_lines form sought first.now second.now other.now number) (range_with_len 0 count)) }
    ensures differ { IfOk result (λ any. any ≡ list_any (pair_differs sought first.now second.now other.now number) (range_with_len 0 count)) }
{
    let mut any = false;
    for theirs in 0..count {
        let numbers = (number, theirs);
        let wrote = push_pair(line, form, sought, first, second, other, numbers, steps)?;
        any = either(any, wrote);
    }
    Ok(any)
}

/// The lines of a rule of the first policy; and whether there are any.
#[tactic(auto, unfolding(crate::specs::Differences::rule_lines, crate::specs::Differences::rule_differs))]
fn push_rule<L: Ledger>(
    line: &mut Line,
    form: Form,
    sought: Sought,
    first: &Policy,
    second: &Policy,
    other: &Name,
    number: u32,
    steps: &mut Steps<L>,
) -> Result<bool, NoMemory>
    ensures stays { line.new.before ≡ line.old.before }
    ensures text { OnOk result (line.new.text ≡ line.old.text ++ rule_lines form sought first.now second.now other.now number) }
    ensures differ { IfOk result (λ any. any ≡ rule_differs sought first.now second.now other.now number) }
{
    let count = second.rules().len() as u32 + 1;
    push_pairs(
        line, form, sought, first, second, other, number, count, steps,
    )
}

/// The lines of so many rules of the first policy; and whether there are any.
#[tactic(auto, using(crate::proofs::Lines::next_rule, crate::proofs::Lines::no_rule, crate::proofs::Lines::next_rule_any, crate::proofs::Lines::no_rule_any))]
fn push_rules<L: Ledger>(
    line: &mut Line,
    form: Form,
    sought: Sought,
    first: &Policy,
    second: &Policy,
    other: &Name,
    count: u32,
    steps: &mut Steps<L>,
) -> Result<bool, NoMemory>
    ensures stays { line.new.before ≡ line.old.before }
    ensures text { OnOk result (line.new.text ≡ line.old.text ++ flat_map (rule_lines form sought first.now second.now other.now) (range_with_len 0 count)) }
    ensures differ { IfOk result (λ any. any ≡ list_any (rule_differs sought first.now second.now other.now) (range_with_len 0 count)) }
{
    let mut any = false;
    for number in 0..count {
        let wrote = push_rule(line, form, sought, first, second, other, number, steps)?;
        any = either(any, wrote);
    }
    Ok(any)
}

/// The lines of all rules of the first policy; and whether there are any.
#[tactic(auto, unfolding(crate::specs::Differences::policy_lines, crate::specs::Differences::policies_differ))]
fn push_policy<L: Ledger>(
    line: &mut Line,
    form: Form,
    sought: Sought,
    first: &Policy,
    second: &Policy,
    steps: &mut Steps<L>,
) -> Result<bool, NoMemory>
    ensures stays { line.new.before ≡ line.old.before }
    ensures text { OnOk result (line.new.text ≡ line.old.text ++ policy_lines form sought first.now second.now) }
    ensures differ { IfOk result (λ any. any ≡ policies_differ sought first.now second.now) }
{
    let other = unnamed_user(first, second);
    let count = first.rules().len() as u32 + 1;
    push_rules(line, form, sought, first, second, &other, count, steps)
}

/// What is said where no rules differ.
fn none_words(sought: Sought) -> &'static [u8]
    ensures { result.now ≡ none_text sought }
{
    match sought {
        Sought::Every => b"alike\n",
        Sought::Allowed => b"allows no more\n",
    }
}

/// The whole text, and whether any rules differ.
#[tactic(auto, unfolding(crate::specs::Differences::difference_text))]
fn push_all<L: Ledger>(
    line: &mut Line,
    form: Form,
    sought: Sought,
    first: &Policy,
    second: &Policy,
    steps: &mut Steps<L>,
) -> Result<bool, NoMemory>
    ensures stays { line.new.before ≡ line.old.before }
    ensures text { OnOk result (line.new.text ≡ line.old.text ++ difference_text form sought first.now second.now) }
    ensures differ { IfOk result (λ any. any ≡ policies_differ sought first.now second.now) }
{
    let any = push_policy(line, form, sought, first, second, steps)?;
    if any {
        return Ok(true);
    }
    line.push(none_words(sought))?;
    Ok(false)
}
