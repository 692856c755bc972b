//! Laws of the text of labels, each a contract of its own.

ghost use Rattle.std.specs.Prelude.{◌≡◌, ◌+◌};
ghost use Rattle.ix_label.specs.{Forms.{Fits}, Laws.{OneLabelEach, SpelledOrFaulty}};

use crate::fault::LabelFault;
use crate::form::Form;
use crate::label::Label;
use crate::steps::Steps;
use crate::text::LabelText;
use std::sync::ledger::Ledger;

/// Does nothing: its contract is the law that no two labels share a spelling of the form.
pub fn one_label_each(form: Form)
    ensures { OneLabelEach form }
{
    let _ = form;
}

/// Changes nothing: its contract is the law that a text has no fault in the form exactly where
/// it is the spelling of a label.
pub fn spelled_or_faulty(form: Form, text: &[u8])
    ensures { SpelledOrFaulty form text.now }
{
    if let Ok(label) = Label::read(form, text) {
        label.is_label();
    }
}

/// Writes the label's text and reads it: its contract is the law that this gives the label back. It asks that the label
/// has a text in the form, so a fault is never the answer.
pub fn read_back<L: Ledger>(
    label: &Label,
    form: Form,
    out: &mut LabelText,
    steps: &mut Steps<L>,
) -> Result<Label, LabelFault>
    requires { Fits form label.now }
    ensures back { result ≡ Ok label.now }
    ensures cost { steps.new ≡ steps.old + 1 }
{
    label.is_label();
    label.text_into(form, out, steps);
    Label::read(form, out.as_bytes())
}
