ghost use Rattle.std.specs.{Prelude.{◌≡◌, ◌++◌, ◌<◌, ◌≤◌, OnOk, OnErr}, List.{flat_map, range_with_len}};
ghost use Rattle.ix_policy_texts.specs.Answers.{can_line, can_text, decide_text, policy_text, reach_line, reach_text, shadowed_by, shadowed_text};

use crate::requests::{push_request, push_ruling};
use ix_label::{Form, Steps};
use ix_model::{Name, NoMemory, PrivSet};
use ix_policing::{Reach, reach_at, ruling_on, unnamed_user, widest_grant};
use ix_policy::{Policy, Request};
use ix_report::{Line, push_number};
use std::marker::Brand;
use std::sync::ledger::{Blank, Ledger};

/// Appends a line for each rule of a policy, that names a request which the rule decides, or the rule that shadows it, or says that
/// it grants nothing; and the last line. The user that stands for all whom no rule names is the first of `user000` and so on.
///
/// After `NoMemory` the bytes are as they were. It decides one request for each rule, and takes memory for the text alone.
pub fn policy_text(out: &mut Vec<u8>, form: Form, policy: &Policy) -> Result<(), NoMemory>
    ensures ok { OnOk result (out.new.items ≡ out.old.items ++ policy_text form policy.now) }
    ensures err { OnErr result (out.new.items ≡ out.old.items) }
{
    policy_text_counted::<Brand>(out, form, policy, Blank::new(1))
}

/// The same, with a counter of its own.
fn policy_text_counted<L: Ledger>(
    out: &mut Vec<u8>,
    form: Form,
    policy: &Policy,
    blank: Blank,
) -> Result<(), NoMemory>
    requires name { blank.name ≡ L.name }
    requires parts { blank.parts ≡ L.parts }
    requires some { 0 < L.parts }
    ensures ok { OnOk result (out.new.items ≡ out.old.items ++ policy_text form policy.now) }
    ensures err { OnErr result (out.new.items ≡ out.old.items) }
{
    let mut steps = Steps::<L>::new(blank);
    let mut line = Line::begin(out);
    let written = push_reaches(&mut line, form, policy, &mut steps);
    line.end(out, written)
}

/// Appends a line for each rule that grants these privileges, with the greatest label at which it does; and the last line.
///
/// After `NoMemory` the bytes are as they were. It decides one request for each rule, and takes memory for the text alone.
pub fn can_text(
    out: &mut Vec<u8>,
    form: Form,
    policy: &Policy,
    want: PrivSet,
) -> Result<(), NoMemory>
    ensures ok { OnOk result (out.new.items ≡ out.old.items ++ can_text form policy.now want) }
    ensures err { OnErr result (out.new.items ≡ out.old.items) }
{
    can_text_counted::<Brand>(out, form, policy, want, Blank::new(1))
}

/// The same, with a counter of its own.
fn can_text_counted<L: Ledger>(
    out: &mut Vec<u8>,
    form: Form,
    policy: &Policy,
    want: PrivSet,
    blank: Blank,
) -> Result<(), NoMemory>
    requires name { blank.name ≡ L.name }
    requires parts { blank.parts ≡ L.parts }
    requires some { 0 < L.parts }
    ensures ok { OnOk result (out.new.items ≡ out.old.items ++ can_text form policy.now want) }
    ensures err { OnErr result (out.new.items ≡ out.old.items) }
{
    let mut steps = Steps::<L>::new(blank);
    let mut line = Line::begin(out);
    let written = push_grants(&mut line, form, policy, want, &mut steps);
    line.end(out, written)
}

/// Appends the line of a request: the rule that decides it, and what is given. After `NoMemory` the bytes are as they were.
pub fn decide_text(
    out: &mut Vec<u8>,
    form: Form,
    policy: &Policy,
    request: &Request,
) -> Result<(), NoMemory>
    ensures ok { OnOk result (out.new.items ≡ out.old.items ++ decide_text form policy.now request.now) }
    ensures err { OnErr result (out.new.items ≡ out.old.items) }
{
    decide_text_counted::<Brand>(out, form, policy, request, Blank::new(1))
}

/// The same, with a counter of its own.
fn decide_text_counted<L: Ledger>(
    out: &mut Vec<u8>,
    form: Form,
    policy: &Policy,
    request: &Request,
    blank: Blank,
) -> Result<(), NoMemory>
    requires name { blank.name ≡ L.name }
    requires parts { blank.parts ≡ L.parts }
    requires some { 0 < L.parts }
    ensures ok { OnOk result (out.new.items ≡ out.old.items ++ decide_text form policy.now request.now) }
    ensures err { OnErr result (out.new.items ≡ out.old.items) }
{
    let mut steps = Steps::<L>::new(blank);
    let mut line = Line::begin(out);
    let written = push_decided(&mut line, form, policy, request, &mut steps);
    line.end(out, written)
}

/// The words before the number of a rule that shadows one.
#[tactic(auto, unfolding(crate::specs::Answers::shadowed_by))]
fn shadowed_by() -> &'static [u8]
    ensures { result.now ≡ shadowed_by }
{
    b" shadowed by "
}

/// That the rule of a number shadows one.
fn push_shadowed(line: &mut Line, by: u32) -> Result<(), NoMemory>
    ensures stays { line.new.before ≡ line.old.before }
    ensures text { OnOk result (line.new.text ≡ line.old.text ++ shadowed_text by) }
{
    line.push(shadowed_by())?;
    push_number(line, u64::from(by))?;
    line.push(b"\n")
}

/// Whether a rule ever decides.
fn push_reach(line: &mut Line, form: Form, reach: &Reach) -> Result<(), NoMemory>
    ensures stays { line.new.before ≡ line.old.before }
    ensures text { OnOk result (line.new.text ≡ line.old.text ++ reach_text form reach.now) }
{
    match reach {
        Reach::Decides(request) => {
            line.push(b" live ")?;
            push_request(line, form, request)?;
            line.push(b"\n")
        }
        Reach::Shadowed(by) => push_shadowed(line, *by),
        Reach::GrantsNothing => line.push(b" grants nothing\n"),
    }
}

/// The line of the rule of a number.
#[tactic(auto, unfolding(crate::specs::Answers::reach_line))]
fn push_reach_line<L: Ledger>(
    line: &mut Line,
    form: Form,
    policy: &Policy,
    other: &Name,
    rule: u32,
    steps: &mut Steps<L>,
) -> Result<(), NoMemory>
    ensures stays { line.new.before ≡ line.old.before }
    ensures text { OnOk result (line.new.text ≡ line.old.text ++ reach_line form policy.now other.now rule) }
{
    push_number(line, u64::from(rule))?;
    push_reach(line, form, &reach_at(policy, other, rule, steps))
}

/// The lines of so many rules.
#[tactic(auto, using(crate::proofs::Lines::next_reach, crate::proofs::Lines::no_reach))]
fn push_reach_lines<L: Ledger>(
    line: &mut Line,
    form: Form,
    policy: &Policy,
    other: &Name,
    count: u32,
    steps: &mut Steps<L>,
) -> Result<(), NoMemory>
    requires { count ≤ 256 }
    ensures stays { line.new.before ≡ line.old.before }
    ensures text { OnOk result (line.new.text ≡ line.old.text ++ flat_map (reach_line form policy.now other.now) (range_with_len 1 count)) }
{
    for rule in 1..count + 1 {
        push_reach_line(line, form, policy, other, rule, steps)?;
    }
    Ok(())
}

/// The lines of all rules, and the last line.
#[tactic(auto, unfolding(crate::specs::Answers::policy_text))]
fn push_reaches<L: Ledger>(
    line: &mut Line,
    form: Form,
    policy: &Policy,
    steps: &mut Steps<L>,
) -> Result<(), NoMemory>
    ensures stays { line.new.before ≡ line.old.before }
    ensures text { OnOk result (line.new.text ≡ line.old.text ++ policy_text form policy.now) }
{
    let other = unnamed_user(policy, policy);
    let count = policy.rules().len() as u32;
    push_reach_lines(line, form, policy, &other, count, steps)?;
    line.push(b"end\n")
}

/// The line of the rule of a number, if it grants these privileges.
#[tactic(auto, unfolding(crate::specs::Answers::can_line))]
fn push_grant_line<L: Ledger>(
    line: &mut Line,
    form: Form,
    policy: &Policy,
    want: PrivSet,
    rule: u32,
    steps: &mut Steps<L>,
) -> Result<(), NoMemory>
    ensures stays { line.new.before ≡ line.old.before }
    ensures text { OnOk result (line.new.text ≡ line.old.text ++ can_line form policy.now want rule) }
{
    let Some(label) = widest_grant(policy, rule, want, steps) else {
        return Ok(());
    };
    push_number(line, u64::from(rule))?;
    line.push(b" allows ")?;
    push_request(line, form, &Request::Grant { label, want })?;
    line.push(b"\n")
}

/// The lines of so many rules, where they grant these privileges.
#[tactic(auto, using(crate::proofs::Lines::next_can, crate::proofs::Lines::no_can))]
fn push_grant_lines<L: Ledger>(
    line: &mut Line,
    form: Form,
    policy: &Policy,
    want: PrivSet,
    count: u32,
    steps: &mut Steps<L>,
) -> Result<(), NoMemory>
    requires { count ≤ 256 }
    ensures stays { line.new.before ≡ line.old.before }
    ensures text { OnOk result (line.new.text ≡ line.old.text ++ flat_map (can_line form policy.now want) (range_with_len 1 count)) }
{
    for rule in 1..count + 1 {
        push_grant_line(line, form, policy, want, rule, steps)?;
    }
    Ok(())
}

/// The lines of all rules that grant these privileges, and the last line.
#[tactic(auto, unfolding(crate::specs::Answers::can_text))]
fn push_grants<L: Ledger>(
    line: &mut Line,
    form: Form,
    policy: &Policy,
    want: PrivSet,
    steps: &mut Steps<L>,
) -> Result<(), NoMemory>
    ensures stays { line.new.before ≡ line.old.before }
    ensures text { OnOk result (line.new.text ≡ line.old.text ++ can_text form policy.now want) }
{
    let count = policy.rules().len() as u32;
    push_grant_lines(line, form, policy, want, count, steps)?;
    line.push(b"end\n")
}

/// The ruling on a request.
#[tactic(auto, unfolding(crate::specs::Answers::decide_text))]
fn push_decided<L: Ledger>(
    line: &mut Line,
    form: Form,
    policy: &Policy,
    request: &Request,
    steps: &mut Steps<L>,
) -> Result<(), NoMemory>
    ensures stays { line.new.before ≡ line.old.before }
    ensures text { OnOk result (line.new.text ≡ line.old.text ++ decide_text form policy.now request.now) }
{
    let ruling = ruling_on(policy, request, steps);
    push_ruling(line, form, request, &ruling)?;
    line.push(b"\n")
}
