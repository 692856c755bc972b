ghost use Rattle.std.specs.Prelude.{◌≡◌, ◌+◌, ◌≤◌, [], length};
ghost use Rattle.ix_label.specs.{Forms.{Fits}, Spelling.{spelling, items, runs}, Scanning.{RunFrom}};

use crate::form::Form;
use crate::label::Label;
use crate::steps::Steps;
use crate::text::LabelText;
use std::sync::ledger::Ledger;

impl Label {
    /// Replaces the buffer's text by the label's one spelling in the form.
    ///
    /// That is `-` for the bottom, `*` for all numbers of the form, and else the longest runs of categories in
    /// ascending order, with commas between them: `3`, or `7-9` for a run of two or more. It has at most 2,048 bytes.
    ///
    /// It asks that the label has a text in the form: in form One it has no category above 255.
    #[tactic(auto, unfolding(crate::specs::Spelling::spelling))]
    pub fn text_into<L: Ledger>(&self, form: Form, out: &mut LabelText, steps: &mut Steps<L>)
        requires { Fits form self.now }
        ensures text { out.new ≡ spelling form self.now }
        ensures room { length out.new ≤ 2048 }
        ensures cost { steps.new ≡ steps.old + 1 }
    {
        steps.tick();
        out.clear();
        if self.equals(&Label::bottom()) {
            out.push(b'-');
        } else if self.equals(&Label::all_of(form)) {
            out.push(b'*');
        } else {
            self.push_runs(out);
        }
    }

    /// The first run of categories at or above `from`, as its first and its last category; `None` where there is none.
    pub fn run_from<L: Ledger>(&self, from: u16, steps: &mut Steps<L>) -> Option<(u16, u16)>
        ensures run { RunFrom self.now from result }
        ensures cost { steps.new ≡ steps.old + 1 }
    {
        steps.tick();
        self.next_run(from)
    }

    /// What [`run_from`](Label::run_from) answers, with no step.
    fn next_run(&self, from: u16) -> Option<(u16, u16)>
        ensures { RunFrom self.now from result }
    {
        let first = self.first_from(from)?;
        Some((first, self.last_of_run(first)))
    }

    /// Writes the items of the longest runs.
    fn push_runs(&self, out: &mut LabelText)
        requires { out.old ≡ [] }
        ensures items { out.new ≡ items (runs self.now) }
        ensures room { length out.new ≤ 2048 }
    {
        self.is_label();
        let mut from = 0;
        while let Some((first, last)) = self.next_run(from) {
            out.push_item(first, last);
            from = last + 1;
        }
    }
}
