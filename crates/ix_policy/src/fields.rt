//! The fields of a rule in a JSON value. A field that is wrong, or whose key is missing, is `None`.

ghost use Rattle.std.specs.Prelude.{◌≡◌, option_map};
ghost use Rattle.serde_json.specs.View.{view};
ghost use Rattle.ix_policy.specs.Fields.{act_at, act_of, allow_at, clear_at, key_count, privs_at, text_at, user_at, user_of};

use crate::rule::Act;
use ix_label::{Form, Label};
use ix_model::{Name, PrivSet};
use ix_text::{is, label_in, name_of, privs_of};
use serde_json::Value;

/// The text under a key.
fn text_at<'v>(element: &'v Value, key: &str) -> Option<&'v str>
    ensures { option_map (λ s. s.now) result ≡ text_at key.now (view element.now) }
{
    let found = element.get(key)?;
    found.as_str()
}

fn act_of(text: &[u8]) -> Option<Act>
    ensures { result ≡ act_of text.now }
{
    if is(text, b"grant") {
        Some(Act::Grant)
    } else if is(text, b"session") {
        Some(Act::Session)
    } else {
        None
    }
}

/// What the rule is on: `grant` or `session`.
#[tactic(auto, unfolding(crate::specs::Fields::act_at))]
pub(crate) fn act_at(element: &Value) -> Option<Act>
    ensures { result ≡ act_at (view element.now) }
{
    let text = text_at(element, "act")?;
    act_of(text.as_bytes())
}

/// The user of a rule; the inner `None` stands for all.
fn user_of(act: Act, text: &[u8]) -> Option<Option<Name>>
    ensures { result ≡ user_of act text.now }
{
    if is(text, b"*") {
        return Some(None);
    }
    match act {
        Act::Grant => None,
        Act::Session => {
            let name = name_of(text)?;
            Some(Some(name))
        }
    }
}

/// The user: `*`, which is the inner `None`, or, in a rule on sessions, a name.
#[tactic(auto, unfolding(crate::specs::Fields::user_at))]
pub(crate) fn user_at(act: Act, element: &Value) -> Option<Option<Name>>
    ensures { result ≡ user_at act (view element.now) }
{
    let text = text_at(element, "user")?;
    user_of(act, text.as_bytes())
}

/// The label up to which the rule matches, in its one text of the form.
#[tactic(auto, unfolding(crate::specs::Fields::clear_at))]
pub(crate) fn clear_at(form: Form, element: &Value) -> Option<Label>
    ensures { result ≡ clear_at form (view element.now) }
{
    let text = text_at(element, "clear")?;
    label_in(form, text.as_bytes())
}

/// The set of privileges.
#[tactic(auto, unfolding(crate::specs::Fields::privs_at))]
pub(crate) fn privs_at(element: &Value) -> Option<PrivSet>
    ensures { result ≡ privs_at (view element.now) }
{
    let text = text_at(element, "privs")?;
    privs_of(text.as_bytes())
}

/// Whether the rule allows.
#[tactic(auto, unfolding(crate::specs::Fields::allow_at))]
pub(crate) fn allow_at(element: &Value) -> Option<bool>
    ensures { result ≡ allow_at (view element.now) }
{
    let found = element.get("allow")?;
    found.as_bool()
}

/// How many keys an object has; what is no object has none.
#[tactic(auto, unfolding(crate::specs::Fields::key_count))]
pub(crate) fn key_count(value: &Value) -> usize
    ensures { result ≡ key_count (view value.now) }
{
    match value.as_object() {
        Some(members) => members.len(),
        None => 0,
    }
}
