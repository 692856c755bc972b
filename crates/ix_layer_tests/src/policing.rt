//! The analysis of policies agrees with a walk over all requests of a small universe: three categories, two privileges, two users and
//! one whom no rule names.

ghost use Rattle.std.specs.Prelude.{◌≡◌, ◌<◌};

use ix_label::{Form, Steps};
use ix_model::PrivSet;
use ix_policing::{Difference, Reach, find_allowed, find_difference, reach_of, widest_grant};
use ix_policy::Policy;
use std::alloc::{AllocError, Global};
use std::marker::Brand;
use std::process::Abort;
use std::sync::ledger::{Blank, Ledger};
use std::test::Fail;

/// A rule of the universe. A label is the sum of 1, 2 and 4 for its categories 0, 1 and 2; a set of privileges that of 1 for DOWN and 2 for
/// PRIV. User 0 stands for all.
#[derive(Clone, Copy)]
struct Plain {
    session: bool,
    user: u64,
    clear: u64,
    privs: u64,
    allow: bool,
}

/// A request of the universe. No rule names user 3.
#[derive(Clone, Copy)]
struct Asked {
    session: bool,
    user: u64,
    label: u64,
    want: u64,
}

/// What comes of a request. Only a session that is allowed has a label and privileges.
#[derive(Clone, Copy, PartialEq, Eq)]
struct Came {
    allow: bool,
    clear: u64,
    privs: u64,
}

const DENIED: Came = Came {
    allow: false,
    clear: 0,
    privs: 0,
};

/// The next number of a linear congruence, below a bound.
fn pick(seed: &mut u64, below: u64) -> u64
    requires { 0 < below }
    ensures { result < below }
{
    *seed = seed
        .wrapping_mul(6364136223846793005)
        .wrapping_add(1442695040888963407);
    (*seed >> 33) % below
}

fn rule(seed: &mut u64) -> Plain {
    let session = pick(seed, 2) == 0;
    let user = if session { pick(seed, 3) } else { 0 };
    Plain {
        session,
        user,
        clear: pick(seed, 8),
        privs: pick(seed, 4),
        allow: pick(seed, 2) == 0,
    }
}

fn rules(seed: &mut u64) -> [Plain; 5] {
    [rule(seed), rule(seed), rule(seed), rule(seed), rule(seed)]
}

/// Other rules: all of them others, or one, or two of them in each other's place.
fn changed(seed: &mut u64, old: &[Plain; 5]) -> [Plain; 5] {
    let mut new = *old;
    let way = pick(seed, 3);
    if way == 0 {
        return rules(seed);
    }
    let place = pick(seed, 4) as usize;
    if way == 1 {
        new[place] = rule(seed);
    } else {
        new[place] = old[place + 1];
        new[place + 1] = old[place];
    }
    new
}

fn label_word(label: u64) -> &'static [u8] {
    match label {
        0 => b"-",
        1 => b"0",
        2 => b"1",
        3 => b"0-1",
        4 => b"2",
        5 => b"0,2",
        6 => b"1-2",
        _ => b"0-2",
    }
}

fn privs_word(privs: u64) -> &'static [u8] {
    match privs {
        0 => b"-",
        1 => b"D",
        2 => b"P",
        _ => b"DP",
    }
}

fn user_word(user: u64) -> &'static [u8] {
    match user {
        0 => b"*",
        1 => b"ann",
        _ => b"bob",
    }
}

/// A key with its text, and what follows them.
fn push_field(out: &mut Vec<u8>, key: &[u8], word: &[u8]) -> Result<(), AllocError> {
    out.extend_from_slice(b"\"")?;
    out.extend_from_slice(key)?;
    out.extend_from_slice(b"\":\"")?;
    out.extend_from_slice(word)?;
    out.extend_from_slice(b"\",")
}

fn push_rule(out: &mut Vec<u8>, rule: &Plain) -> Result<(), AllocError> {
    let act: &[u8] = if rule.session { b"session" } else { b"grant" };
    let allow: &[u8] = if rule.allow { b"true}" } else { b"false}" };
    out.extend_from_slice(b"{")?;
    push_field(out, b"act", act)?;
    push_field(out, b"user", user_word(rule.user))?;
    push_field(out, b"clear", label_word(rule.clear))?;
    push_field(out, b"privs", privs_word(rule.privs))?;
    out.extend_from_slice(b"\"allow\":")?;
    out.extend_from_slice(allow)
}

fn text(alloc: Global, rules: &[Plain; 5]) -> Result<Vec<u8>, AllocError> {
    let mut out = Vec::new(alloc);
    out.extend_from_slice(b"{\"rules\":[")?;
    for at in 0..5 {
        if at > 0 {
            out.extend_from_slice(b",")?;
        }
        push_rule(&mut out, &rules[at])?;
    }
    out.extend_from_slice(b"]}")?;
    Ok(out)
}

/// One of the 48 requests: 24 grants, then 24 sessions.
fn request_of(number: u64) -> Asked {
    let third = number / 8 % 3 + 1;
    Asked {
        session: number >= 24,
        user: third,
        label: number % 8,
        want: third,
    }
}

fn is_on(rule: &Plain, asked: &Asked) -> bool {
    if rule.session {
        rule.user == 0 || rule.user == asked.user
    } else {
        asked.want & rule.privs == asked.want
    }
}

fn came_of(rule: &Plain) -> Came {
    if !rule.allow {
        return DENIED;
    }
    if !rule.session {
        return Came {
            allow: true,
            ..DENIED
        };
    }
    Came {
        allow: true,
        clear: rule.clear,
        privs: rule.privs,
    }
}

/// The number of the first rule that matches, from 1, and what comes of the request; 0 where none does.
fn decided(rules: &[Plain; 5], asked: &Asked) -> (u32, Came) {
    for at in 0..5 {
        let rule = &rules[at as usize];
        let below = asked.label & rule.clear == asked.label;
        if rule.session == asked.session && below && is_on(rule, asked) {
            return (at + 1, came_of(rule));
        }
    }
    (0, DENIED)
}

fn differ(first: &Came, second: &Came, allowed: bool) -> bool {
    if allowed {
        !first.allow && second.allow
    } else {
        first != second
    }
}

/// The first pair of rules, in order, that decide some request differently; of those alone that the second allows and the first denies,
/// where these are wanted.
fn first_pair(first: &[Plain; 5], second: &[Plain; 5], allowed: bool) -> Option<(u32, u32)> {
    let mut least = None;
    for number in 0..48 {
        let request = request_of(number);
        let (own, came) = decided(first, &request);
        let (theirs, other) = decided(second, &request);
        if differ(&came, &other, allowed) {
            least = Some(earlier(least, (own, theirs)));
        }
    }
    least
}

fn earlier(least: Option<(u32, u32)>, pair: (u32, u32)) -> (u32, u32) {
    match least {
        None => pair,
        Some(old) => {
            if pair.0 < old.0 || pair.0 == old.0 && pair.1 < old.1 {
                pair
            } else {
                old
            }
        }
    }
}

fn is_of(found: Option<Difference>, pair: Option<(u32, u32)>) -> bool {
    match (found, pair) {
        (None, None) => true,
        (Some(found), Some(pair)) => found.first.rule == pair.0 && found.second.rule == pair.1,
        _ => false,
    }
}

/// Whether the rule of that number decides any of the requests.
fn decides_any(rules: &[Plain; 5], rule: u32) -> bool {
    for number in 0..48 {
        if decided(rules, &request_of(number)).0 == rule {
            return true;
        }
    }
    false
}

/// Whether it grants these privileges at any label.
fn grants_any(rules: &[Plain; 5], rule: u32, want: u64) -> bool {
    for label in 0..8 {
        let request = Asked {
            session: false,
            user: 0,
            label,
            want,
        };
        let (own, came) = decided(rules, &request);
        if own == rule && came.allow {
            return true;
        }
    }
    false
}

fn set(want: u64) -> PrivSet {
    match want {
        1 => PrivSet::DOWN,
        2 => PrivSet::PRIV,
        _ => PrivSet::DOWN | PrivSet::PRIV,
    }
}

/// Whether the differences of two policies are those of their rules.
fn differences_are_right(
    policies: (&Policy, &Policy),
    first: &[Plain; 5],
    second: &[Plain; 5],
) -> bool {
    differences_agree::<Brand>(policies, first, second, Blank::new(1))
}

/// Whether what a policy's rules decide and grant is what they do.
fn rules_are_right(policy: &Policy, rules: &[Plain; 5]) -> bool {
    rules_agree::<Brand>(policy, rules, Blank::new(1))
}

/// The same, with a counter of its own.
fn differences_agree<L: Ledger>(
    policies: (&Policy, &Policy),
    first: &[Plain; 5],
    second: &[Plain; 5],
    blank: Blank,
) -> bool
    requires name { blank.name ≡ L.name }
    requires parts { blank.parts ≡ L.parts }
    requires some { 0 < L.parts }
{
    let mut steps = Steps::<L>::new(blank);
    let all = find_difference(policies.0, policies.1, &mut steps);
    let allowed = find_allowed(policies.0, policies.1, &mut steps);
    is_of(all, first_pair(first, second, false)) && is_of(allowed, first_pair(first, second, true))
}

/// The same, with a counter of its own.
fn rules_agree<L: Ledger>(policy: &Policy, rules: &[Plain; 5], blank: Blank) -> bool
    requires name { blank.name ≡ L.name }
    requires parts { blank.parts ≡ L.parts }
    requires some { 0 < L.parts }
{
    let mut steps = Steps::<L>::new(blank);
    if policy.rules().len() != 5 {
        return false;
    }
    for rule in 1..6 {
        let reach = reach_of(policy, rule, &mut steps);
        if matches!(reach, Reach::Decides(_)) != decides_any(rules, rule) {
            return false;
        }
        for want in 1..4 {
            let label = widest_grant(policy, rule, set(want), &mut steps);
            if label.is_some() != grants_any(rules, rule, want) {
                return false;
            }
        }
    }
    true
}

#[test]
fn two_thousand_pairs_of_policies_agree_with_a_walk_over_all_requests(
    rt: HostRuntime,
) -> Result<(), Fail> {
    let alloc = rt.alloc();
    let mut seed = 1;
    for pair in 0..2000 {
        let old = rules(&mut seed);
        let new = changed(&mut seed, &old);
        let first = Policy::read(alloc, Form::One, text(alloc, &old)?.as_slice())?;
        let second = Policy::read(alloc, Form::One, text(alloc, &new)?.as_slice())?;
        assert!(rt; rules_are_right(&first, &old), "rules of {pair}");
        let policies = (&first, &second);
        assert!(rt; differences_are_right(policies, &old, &new), "pair {pair}");
    }
    Ok(())
}
