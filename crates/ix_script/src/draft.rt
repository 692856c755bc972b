ghost use Rattle.std.specs.Prelude.{◌≡◌, ◌≤◌, ◌++◌, ◌∷◌, ◌+◌, ◌<◌, ◌^◌, [], true, false, Some, None, length, OnOk, IfOk, IfErr, IsTrue};
ghost use Rattle.ix_script.specs.{lines.Before.{form_told}, lines.Faults.{line_fault, text_fault}, lines.Forms.{places}, lines.Roles.{role_of}, lines.Said.{line_of}};
ghost use Rattle.ix_script.specs.{reader.Readers.{HasCause, IsFormed, IsPlain, LineMore, LineRight, is_whole}, reader.Placing.{Stand, command_cost}, reader.Told.{CanGrow, DraftTold, IsNextLane}, scripts.Packed.{front_of, with_line}};
ghost use Rattle.{std.{proofs.Common.{option_map}, specs.List.{list_all}}, ix_model.specs.opening.Valid.{is_within}, ix_text.specs.Bytes.{is_empty}};

use crate::body::Body;
use crate::fail::{ReadFail, Rule, fault_at};
use crate::form::{Form, OnFd};
use crate::header::Header;
use crate::line::Line;
use crate::packed::Lines;
use crate::payload::Payload;
use crate::places::line_said;
use crate::role::{ENTRY, Role, cost_of_line, path_cost, role_of};
use crate::rules::{check_text, is_policy_line, is_skipped};
use crate::values::begins_with_text;
use crate::words::Words;
use ix_label::Steps;
use ix_model::NoMemory;
use std::alloc::Global;
use std::sync::ledger::Ledger;

/// The lines so far, and what they tell.
#[derive(Drop)]
pub(crate) struct Draft<'a> {
    pub lines: Lines<'a>,
    pub header: Header<'a>,
    pub body: Body<'a>,
}

impl<'a> Draft<'a> {
    /// Before any line of a text, with room for all of them. `NoMemory` where there was none for that room.
    pub fn new(alloc: Global, text: &'a [u8]) -> Result<Draft<'a>, NoMemory>
        requires { length text.now ≤ 16777216 }
        ensures told { IfOk result (λ d. DraftTold d) }
        ensures none { IfOk result (λ d. d.lines ≡ front_of text.now) }
    {
        Ok(Draft {
            lines: Lines::of(alloc, text)?,
            header: Header::new(alloc)?,
            body: Body::new(alloc),
        })
    }

    /// One line more, which the text says. After an error the draft isn't used.
    fn add(&mut self, alloc: Global, text: &[u8], line: &Line<'a>) -> Result<(), NoMemory>
        requires grows { CanGrow self.old text.now }
        requires right { LineRight self.old.lines.said line.now (line_fault self.old.lines.said text.now) (line_of (form_told self.old.lines.said) text.now) }
        ensures told { OnOk result (DraftTold self.new) }
        ensures lines { OnOk result (self.new.lines ≡ with_line self.old.lines line.now text.now) }
    {
        let first = self.lines.len() == 0;
        let form = self.lines.form_with(line);
        self.header.add(alloc, first, line)?;
        self.body.add(alloc, line)?;
        self.lines
            .push(form, text, role_of(line), cost_of_line(line))
    }

    /// The fault of the next line, by the rule that it breaks.
    fn fault(&self, rule: Rule) -> ReadFail
        requires { length self.now.lines.said + 1 < 2 ^ 32 }
        ensures { HasCause result (Some (length self.now.lines.said + 1, rule.0)) }
    {
        fault_at(self.lines.len() as u32 + 1, rule)
    }

    /// A command more that gives no name and is no server's: nothing is kept of it but its text and what it costs.
    #[inline(always)]
    fn add_command(&mut self, text: &[u8], cost: u64) -> Result<(), ReadFail>
        requires grows { CanGrow self.old text.now }
        requires later { is_empty self.old.lines.said ≡ false }
        requires plain { IsPlain self.old.lines.said text.now cost }
        ensures told { OnOk result (DraftTold self.new) }
        ensures line { OnOk result (LineMore self.old.lines self.new.lines text.now) }
        ensures fail { IfErr result (λ e. HasCause e (option_map (λ rule. (length self.old.lines.said + 1, rule)) (line_fault self.old.lines.said text.now))) }
    {
        if self.body.commands >= 200_000 {
            return Err(self.fault(Rule::TOO_MANY));
        }
        self.body.commands += 1;
        self.lines
            .push(self.lines.form(), text, Role::Command, cost)?;
        Ok(())
    }

    /// Whether the text is the line of the lane that comes next where each phase has the lanes in one order.
    fn is_next_lane(&self, text: &[u8]) -> bool
        ensures { IsTrue result → IsNextLane self.now text.now }
    {
        self.body.started && begins_with_text(b"lane ", text) && self.body.is_next(&text[5..])
    }

    /// That line: it breaks no rule.
    fn add_next_lane(&mut self, text: &'a [u8]) -> Result<(), NoMemory>
        requires grows { CanGrow self.old text.now }
        requires later { is_empty self.old.lines.said ≡ false }
        requires text { text_fault text.now ≡ None }
        requires next { IsNextLane self.old text.now }
        ensures told { OnOk result (DraftTold self.new) }
        ensures line { OnOk result (LineMore self.old.lines self.new.lines text.now) }
    {
        let (_, name) = text.split_at(5);
        self.body.lane = Some(name);
        self.body.in_order += 1;
        self.lines.push(self.lines.form(), text, Role::Lane, 0)
    }

    /// What a command costs whose words break no rule by themselves, where it is known to give no name and to be no server's: its line isn't made.
    fn command_cost(&self, form: Form, words: &Words<'a>) -> Option<u64>
        requires { Stand (places (form_told self.now.lines.said) form words.now) }
        ensures { result ≡ command_cost form words.now }
    {
        match form {
            Form::Plain(_) | Form::Counted(_) | Form::Exit | Form::Setself => Some(ENTRY),
            Form::Droplic | Form::Grant | Form::Ceiling | Form::Readlog => Some(ENTRY),
            Form::OnFd(OnFd::Close | OnFd::Pex | OnFd::Unpex) => Some(ENTRY),
            Form::OnPath(_) | Form::List | Form::Setlabel => Some(path_cost(words.get(2))),
            Form::Write => Some(ENTRY + Payload::<4096>::of(words.get(3)).len() as u64),
            _ => None,
        }
    }

    /// Adds the line of a form whose words break no rule by themselves, or tells its fault. No other line clears room for it.
    #[inline(never)]
    fn add_formed<L: Ledger>(
        &mut self,
        alloc: Global,
        text: &[u8],
        form: Form,
        words: &Words<'a>,
        steps: &mut Steps<L>,
    ) -> Result<(), ReadFail>
        requires grows { CanGrow self.old text.now }
        requires later { is_empty self.old.lines.said ≡ false }
        requires formed { IsFormed self.old.lines.said text.now form words.now }
        ensures told { OnOk result (DraftTold self.new) }
        ensures line { OnOk result (LineMore self.old.lines self.new.lines text.now) }
        ensures fail { IfErr result (λ e. HasCause e (option_map (λ rule. (length self.old.lines.said + 1, rule)) (line_fault self.old.lines.said text.now))) }
    {
        let line = line_said(self.lines.form(), form, words).unwrap();
        if let Err(rule) = self.check_said(&line, steps) {
            return Err(self.fault(rule));
        }
        Ok(self.add(alloc, text, &line)?)
    }

    /// Adds a line that isn't cut into words, or tells its fault. No other line clears room for it.
    #[inline(never)]
    fn add_whole(&mut self, alloc: Global, text: &'a [u8]) -> Result<(), ReadFail>
        requires grows { CanGrow self.old text.now }
        requires sound { text_fault text.now ≡ None }
        requires whole { is_whole self.old.lines.said text.now ≡ true }
        ensures told { OnOk result (DraftTold self.new) }
        ensures line { OnOk result (LineMore self.old.lines self.new.lines text.now) }
        ensures fail { IfErr result (λ e. HasCause e (option_map (λ rule. (length self.old.lines.said + 1, rule)) (line_fault self.old.lines.said text.now))) }
    {
        match self.whole_line(text) {
            Ok(line) => Ok(self.add(alloc, text, &line)?),
            Err(rule) => Err(self.fault(rule)),
        }
    }

    /// The next line, which the text says; else its fault. After an error the draft isn't used. Whether each of the text's
    /// bytes is known to be printable is told, and the words that are handed in are those of the last line that was cut.
    pub fn add_line<L: Ledger>(
        &mut self,
        alloc: Global,
        printable: bool,
        text: &'a [u8],
        words: &mut Words<'a>,
        steps: &mut Steps<L>,
    ) -> Result<(), ReadFail>
        requires grows { CanGrow self.old text.now }
        requires printable { IsTrue printable → list_all (is_within 32 126) text.now ≡ true }
        ensures told { OnOk result (DraftTold self.new) }
        ensures line { OnOk result (LineMore self.old.lines self.new.lines text.now) }
        ensures fail { IfErr result (λ e. HasCause e (option_map (λ rule. (length self.old.lines.said + 1, rule)) (line_fault self.old.lines.said text.now))) }
    {
        if let Err(rule) = check_text(printable, text) {
            return Err(self.fault(rule));
        }
        if self.is_next_lane(text) {
            return Ok(self.add_next_lane(text)?);
        }
        if self.lines.len() == 0 || is_skipped(text) || is_policy_line(text) {
            return self.add_whole(alloc, text);
        }
        words.cut(text);
        match self.form_by_words(words) {
            Ok(form) => match self.command_cost(form, words) {
                Some(cost) => self.add_command(text, cost),
                None => self.add_formed(alloc, text, form, words, steps),
            },
            Err(rule) => Err(self.fault(rule)),
        }
    }
}
