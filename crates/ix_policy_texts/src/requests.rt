//! Requests, and what comes of them, in a line.
ghost use Rattle.std.specs.Prelude.{◌≡◌, ◌++◌, OnOk};
ghost use Rattle.ix_policy_texts.specs.Requests.{given_text, request_text, ruling_text, wanted};

use bitflags::Flags;
use ix_label::Form;
use ix_model::{NoMemory, PrivSet};
use ix_policing::{Outcome, Ruling};
use ix_policy::Request;
use ix_report::{Line, push_number, push_privs};

/// A request, as a command takes it.
pub fn push_request(line: &mut Line, form: Form, request: &Request) -> Result<(), NoMemory>
    ensures stays { line.new.before ≡ line.old.before }
    ensures text { OnOk result (line.new.text ≡ line.old.text ++ request_text form request.now) }
{
    match request {
        Request::Grant { label, want } => {
            line.push(b"grant ")?;
            line.push_label(form, label)?;
            line.push(b" ")?;
            push_privs(line, *want)
        }
        Request::Session { user, label } => {
            line.push(b"session ")?;
            line.push(user.as_bytes())?;
            line.push(b" ")?;
            line.push_label(form, label)
        }
    }
}

/// The privileges that a request wants.
fn wanted(request: &Request) -> PrivSet
    ensures { result ≡ wanted request.now }
{
    match request {
        Request::Grant { want, .. } => *want,
        Request::Session { .. } => PrivSet::empty(),
    }
}

/// What is given where these privileges are wanted.
fn push_given(line: &mut Line, form: Form, want: PrivSet, outcome: &Outcome) -> Result<(), NoMemory>
    ensures stays { line.new.before ≡ line.old.before }
    ensures text { OnOk result (line.new.text ≡ line.old.text ++ given_text form want outcome.now) }
{
    match outcome {
        Outcome::Denied => line.push(b"deny"),
        Outcome::Granted => {
            line.push(b"allow ")?;
            push_privs(line, want)
        }
        Outcome::Opened { ceiling, licences } => {
            line.push(b"allow ")?;
            line.push_label(form, ceiling)?;
            line.push(b" ")?;
            push_privs(line, *licences)
        }
    }
}

/// The rule that decides a request, and what is given.
#[tactic(auto, unfolding(crate::specs::Requests::ruling_text))]
pub fn push_ruling(
    line: &mut Line,
    form: Form,
    request: &Request,
    ruling: &Ruling,
) -> Result<(), NoMemory>
    ensures stays { line.new.before ≡ line.old.before }
    ensures text { OnOk result (line.new.text ≡ line.old.text ++ ruling_text form request.now ruling.now) }
{
    push_number(line, u64::from(ruling.rule))?;
    line.push(b" ")?;
    push_given(line, form, wanted(request), &ruling.outcome)
}
