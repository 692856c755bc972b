//! The rules in a JSON value.

ghost use Rattle.std.specs.Prelude.{◌≡◌, ◌+◌, ◌<◌, ◌≤◌, length, option_map, IfOk, IfErr, OnOk, Ok};
ghost use Rattle.serde_json.specs.View.{items_view, view};
ghost use Rattle.ix_policy.specs.Policies.{elements, next_rules, rules_in, rules_of, HasCause};
ghost use Rattle.ix_policy.specs.declared.fault.PolicyFault.TheVariants as fault;

use crate::fault::{Field, PolicyFault};
use crate::fields::{act_at, allow_at, clear_at, key_count, privs_at, user_at};
use crate::rule::Rule;
use ix_label::Form;
use ix_model::List;
use serde_json::Value;
use std::alloc::Global;

/// The elements of the array under the one key `rules`.
#[tactic(auto, unfolding(crate::specs::Policies::elements))]
fn elements(value: &Value) -> Option<&Vec<Value>>
    ensures { option_map (λ v. items_view v.now.items) result ≡ elements (view value.now) }
{
    if key_count(value) != 1 {
        return None;
    }
    let found = value.get("rules")?;
    found.as_array()
}

fn wrong(index: u32, field: Field) -> PolicyFault
    ensures { result ≡ fault.Rule index field }
{
    PolicyFault::Rule { index, field }
}

/// Adds the rule that the element is, or tells its number and its first wrong field. After a fault the rules are as they were.
#[tactic(auto, using(crate::proofs::Walking::cause), unfolding(crate::specs::Policies::next_rules, crate::specs::Policies::rule_of))]
fn push_rule(rules: &mut List<Rule>, form: Form, element: &Value) -> Result<(), PolicyFault>
    requires { length rules.old < 256 }
    ensures ok { OnOk result (next_rules form rules.old (view element.now) ≡ Ok rules.new) }
    ensures count { OnOk result (length rules.new ≡ length rules.old + 1) }
    ensures err { IfErr result (λ e. HasCause e (next_rules form rules.old (view element.now))) }
{
    let index = rules.len() as u32 + 1;
    let Some(act) = act_at(element) else {
        return Err(wrong(index, Field::Act));
    };
    let Some(user) = user_at(act, element) else {
        return Err(wrong(index, Field::User));
    };
    let Some(clear) = clear_at(form, element) else {
        return Err(wrong(index, Field::Clear));
    };
    let Some(privs) = privs_at(element) else {
        return Err(wrong(index, Field::Privs));
    };
    let Some(allow) = allow_at(element) else {
        return Err(wrong(index, Field::Allow));
    };
    if key_count(element) != 5 {
        return Err(wrong(index, Field::Other));
    }
    let rule = Rule {
        act,
        user,
        clear,
        privs,
        allow,
    };
    match rules.push(rule) {
        Ok(()) => Ok(()),
        Err(_) => Err(PolicyFault::NoMemory),
    }
}

/// The rules that the elements are, or the fault of the first that is none.
fn rules_of(alloc: Global, form: Form, elements: &[Value]) -> Result<List<Rule>, PolicyFault>
    ensures ok { IfOk result (λ rules. rules_of form (items_view elements.now) ≡ Ok rules) }
    ensures few { IfOk result (λ rules. length rules ≤ 256) }
    ensures err { IfErr result (λ e. HasCause e (rules_of form (items_view elements.now))) }
{
    if elements.len() > 256 {
        return Err(PolicyFault::TooMany);
    }
    let mut rules = List::new(alloc);
    'elements: for element in elements {
        push_rule(&mut rules, form, element)?;
    }
    Ok(rules)
}

/// The rules in the value, or its fault.
#[tactic(auto, unfolding(crate::specs::Policies::rules_in))]
pub(crate) fn rules_in(alloc: Global, form: Form, value: &Value) -> Result<List<Rule>, PolicyFault>
    ensures ok { IfOk result (λ rules. rules_in form (view value.now) ≡ Ok rules) }
    ensures few { IfOk result (λ rules. length rules ≤ 256) }
    ensures err { IfErr result (λ e. HasCause e (rules_in form (view value.now))) }
{
    match elements(value) {
        Some(elements) => rules_of(alloc, form, elements.as_slice()),
        None => Err(PolicyFault::Shape),
    }
}
