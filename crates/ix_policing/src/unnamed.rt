//! A user that no rule names.

ghost use Rattle.std.specs.{Prelude.{◌≡◌, ◌+◌, ◌<◌, ◌≤◌, ◌%◌, true, length}, List.{list_any}};
ghost use Rattle.ix_text.specs.Names.{is_script_name};
ghost use Rattle.ix_policing.specs.Unnamed.{digit, is_free, names, spare, unnamed_user, IsUnnamed};

use ix_model::Name;
use ix_policy::{Policy, Rule};
use ix_text::name_of;

/// Two policies name at most this many users.
const MOST_NAMES: u16 = 512;

/// The last decimal digit of a number.
fn digit(number: u16) -> u8
    ensures { result ≡ digit number }
{
    b'0' + (number % 10) as u8
}

/// The spare user of a number: `user000`, `user001` and so on.
fn spare_user(number: u16) -> Name
    ensures { result ≡ spare number }
{
    let text = [
        b'u',
        b's',
        b'e',
        b'r',
        digit(number / 100),
        digit(number / 10),
        digit(number),
    ];
    match name_of(&text) {
        Some(user) => user,
        None => unreachable!(),
    }
}

/// Whether the rule names that user.
fn names(rule: &Rule, user: &Name) -> bool
    ensures { result ≡ names user.now rule.now }
{
    match &rule.user {
        None => false,
        Some(own) => own.as_ref().same(&user.as_ref()),
    }
}

/// Whether one of the rules names that user.
fn is_named(rules: &[Rule], user: &Name) -> bool
    ensures { result ≡ list_any (names user.now) rules.now }
{
    for rule in rules {
        if names(rule, user) {
            return true;
        }
    }
    false
}

/// Whether no rule of the two policies names that user.
fn is_free(first: &[Rule], second: &[Rule], user: &Name) -> bool
    ensures { result ≡ is_free first.now second.now user.now }
{
    !is_named(first, user) && !is_named(second, user)
}

/// The first spare user that no rule of the two policies names.
fn free_user(first: &[Rule], second: &[Rule]) -> Name
    ensures { result ≡ unnamed_user first.now second.now }
{
    for number in 0..MOST_NAMES {
        let user = spare_user(number);
        if is_free(first, second, &user) {
            return user;
        }
    }
    spare_user(MOST_NAMES)
}

/// The user that stands for all whom no rule of the two policies names: the first of `user000`, `user001` and so on that none names.
#[tactic(auto, using(crate::proofs::Spares::first_unnamed, crate::proofs::Spares::second_unnamed, crate::proofs::Spares::unnamed_is_name))]
pub fn unnamed_user(first: &Policy, second: &Policy) -> Name
    ensures user { result ≡ unnamed_user first.now second.now }
    ensures unnamed { IsUnnamed result first.now }
    ensures other_unnamed { IsUnnamed result second.now }
    ensures name { is_script_name result ≡ true }
{
    free_user(first.rules(), second.rules())
}
