ghost use Rattle.std.specs.Prelude.{◌≡◌, ◌++◌, OnOk, OnErr};
ghost use Rattle.ix_policy_texts.specs.Faults.{fault_text, field_text};

use ix_model::NoMemory;
use ix_policy::{Field, PolicyFault};
use ix_report::{Line, push_number};

/// What is wrong with a field.
fn field_words(field: Field) -> &'static [u8]
    ensures { result.now ≡ field_text field }
{
    match field {
        Field::Act => b"act: neither grant nor session",
        Field::User => {
            b"user: neither * nor the name of a user, which only a rule on sessions may have"
        }
        Field::Clear => b"clear: not the text of a label",
        Field::Privs => b"privs: not the text of a set of privileges",
        Field::Allow => b"allow: neither true nor false",
        Field::Other => b"a key that no rule has",
    }
}

/// What is wrong with a policy.
#[tactic(auto, unfolding(crate::specs::Faults::fault_text))]
fn push_fault(line: &mut Line, fault: &PolicyFault) -> Result<(), NoMemory>
    ensures stays { line.new.before ≡ line.old.before }
    ensures text { OnOk result (line.new.text ≡ line.old.text ++ fault_text fault.now) }
{
    match fault {
        PolicyFault::Syntax => line.push(b"not a JSON text\n"),
        PolicyFault::Shape => {
            line.push(b"not an object with an array under its one key, rules\n")
        }
        PolicyFault::TooMany => line.push(b"more than 256 rules\n"),
        PolicyFault::Rule { index, field } => {
            line.push(b"rule ")?;
            push_number(line, u64::from(*index))?;
            line.push(b": ")?;
            line.push(field_words(*field))?;
            line.push(b"\n")
        }
        PolicyFault::NoMemory => line.push(b"no memory\n"),
    }
}

/// Appends the line of a policy's fault. After `NoMemory` the bytes are as they were.
pub fn fault_text(out: &mut Vec<u8>, fault: &PolicyFault) -> Result<(), NoMemory>
    ensures ok { OnOk result (out.new.items ≡ out.old.items ++ fault_text fault.now) }
    ensures err { OnErr result (out.new.items ≡ out.old.items) }
{
    let mut line = Line::begin(out);
    let written = push_fault(&mut line, fault);
    line.end(out, written)
}
