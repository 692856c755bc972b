ghost use Rattle.std.{specs.Prelude.{◌≡◌, ◌++◌, ◌∷◌, ◌+◌, ◌<◌, ◌≤◌, ◌^◌, [], Some, None, length, slice_get, is_some, OnOk, IfOk, MatchOption}, proofs.Common.{option_map}};
ghost use Rattle.ix_script.specs.{lines.Before.{form_told}, lines.Forms.{form_of}, lines.Roles.{IsHeaderEnd, role_of}, lines.Said.{line_of}};
ghost use Rattle.ix_script.specs.{scripts.Canonical.{has_one_spelling}, scripts.Need.{cost_of_line, need}, scripts.Packed.{IsLine, IsNext, begin_at, front_of, line_in, with_line}};

use crate::form::form_of;
use crate::header::form_by;
use crate::line::Line;
use crate::places::line_said;
use crate::role::Role;
use crate::rules::{is_policy_line, is_skipped, version_of};
use crate::values::{PolicyText, begins_with_text};
use crate::words::Words;
use ix_label::Form as LabelForm;
use ix_model::NoMemory;
use std::alloc::Global;
use std::marker::Model;

/// The lines at the front of a text, each of which breaks no rule. Contracts see the text, what they say, and where the next begins.
#[derive(Drop)]
pub(crate) struct Lines<'a> {
    text: &'a [u8],
    /// Where in it the next line begins.
    at: usize,
    /// The form in which their labels are spelled.
    form: LabelForm,
    /// Where in the text each line ends, before its line feed.
    ends: Vec<u32>,
    roles: Vec<Role>,
    need: u64,
    /// The index behind the last line of the header.
    header: usize,
}

impl<'a> Model for Lines<'a> {
    ghost use Rattle.std.specs.{Prelude.{◌≡◌, ◌≤◌, length}, Coded.{codes}};
    ghost use Rattle.ix_script.specs.{lines.Roles.{IsHeaderEnd}, scripts.Packed.{AreMarked, FrontOf, begin_at, held}};
    ghost use Rattle.ix_label.specs.contracts.label.Label as label_type;

    ghost Value = { FrontOf };

    ghost coded = { Prim.hlevel (codes, label_type.the_row.coded) };

    ghost view = { λ l. record { text = l.text.now; said = held l.form 0 l.text.now l.ends.items; at = l.at } };

    ghost invariant = { λ l. AreMarked l.form l.text.now l.ends.items l.roles.items l.need × (l.at ≡ begin_at 0 l.ends.items (length l.ends.items))
        × (length l.text.now ≤ 16777216) × IsHeaderEnd l.header (held l.form 0 l.text.now l.ends.items) };
}

/// What a text says that breaks no rule. Each way out returns, as in `line_said`.
#[tactic(auto, unfolding(crate::specs::lines::Said::line_of))]
fn said(labels: LabelForm, text: &[u8]) -> Option<Line<'_>>
    requires { IsLine labels text.now }
    ensures { line_of labels text.now ≡ result }
{
    if is_skipped(text) {
        return Some(Line::Skipped);
    }
    if is_policy_line(text) {
        return Some(Line::Policy {
            text: PolicyText::of_line(text),
        });
    }
    if let Some(form) = version_of(text) {
        return Some(Line::Version { form });
    }
    let mut words = Words::none();
    words.cut(text);
    let form = form_of(words.get(0)).unwrap();
    line_said(labels, form, &words)
}

/// Whether a line of that text has no other spelling: only a skipped line and one with a payload may have one.
#[tactic(auto, unfolding(crate::specs::scripts::Canonical::has_one_spelling))]
pub(crate) fn has_one_spelling(text: &[u8]) -> bool
    ensures { result ≡ has_one_spelling text.now }
{
    !is_skipped(text) && !begins_with_text(b"write", text) && !begins_with_text(b"file", text)
}

/// How many line feeds there are. So few are counted in a byte that none is lost, and many bytes are looked at at once.
fn feeds_in(bytes: &[u8]) -> usize {
    let mut feeds = 0usize;
    for part in bytes.chunks(192) {
        let count = part
            .iter()
            .fold(0u8, |n, b| n.wrapping_add(u8::from(*b == b'\n')));
        feeds = feeds.wrapping_add(count as usize);
    }
    feeds
}

fn begin(ends: &[u32], i: usize) -> usize
    requires { i < length ends.now }
    ensures { result ≡ begin_at 0 ends.now i }
{
    match i.checked_sub(1) {
        Some(before) => ends[before] as usize + 1,
        None => 0,
    }
}

impl<'a> Lines<'a> {
    /// No lines of a text, with room for all of them. `NoMemory` where there was none for that room.
    pub fn of(alloc: Global, text: &'a [u8]) -> Result<Lines<'a>, NoMemory>
        requires { length text.now ≤ 16777216 }
        ensures { IfOk result (λ lines. lines ≡ front_of text.now) }
    {
        let room = feeds_in(text).saturating_add(1);
        let ends = Vec::with_capacity(alloc, room)?;
        let roles = Vec::with_capacity(alloc, room)?;
        Ok(Lines {
            text,
            at: 0,
            form: LabelForm::One,
            ends,
            roles,
            need: 0,
            header: 0,
        })
    }

    pub fn len(&self) -> usize
        ensures { result ≡ length self.now.said }
    {
        self.ends.as_slice().len()
    }

    /// The form in which their labels are spelled: the first line tells it.
    pub fn form(&self) -> LabelForm
        ensures { result ≡ form_told self.now.said }
    {
        self.form
    }

    /// The same with a line more at the end.
    pub fn form_with(&self, line: &Line<'_>) -> LabelForm
        ensures { result ≡ form_told (self.now.said ++ line.now ∷ []) }
    {
        if self.len() == 0 {
            form_by(line)
        } else {
            self.form
        }
    }

    /// How many bytes the texts have, with a line feed each: no fewer than the canonical text has.
    pub fn room(&self) -> usize {
        self.text.len().saturating_add(1)
    }

    /// The text of the line at an index from 0; `None` exactly past the end.
    pub fn text_at(&self, i: usize) -> Option<&'a [u8]>
        ensures { MatchOption result (slice_get self.now.said i ≡ None) (λ text. IsLine (form_told self.now.said) text.now × (slice_get self.now.said i ≡ Some (line_in (form_told self.now.said) text.now))) }
    {
        let ends = self.ends.as_slice();
        if i >= ends.len() {
            return None;
        }
        let begin = begin(ends, i);
        Some(&self.text[begin..ends[i] as usize])
    }

    /// The line at an index from 0; `None` exactly past the end. It takes no memory.
    pub fn get(&self, i: usize) -> Option<Line<'a>>
        ensures { result ≡ slice_get self.now.said i }
    {
        said(self.form, self.text_at(i)?)
    }

    /// What the line at an index from 0 is for; `None` exactly past the end. The line isn't made for it.
    pub fn role(&self, i: usize) -> Option<Role>
        ensures { result ≡ option_map role_of (slice_get self.now.said i) }
    {
        self.roles.as_slice().get(i).copied()
    }

    /// The index behind the last line of the header.
    pub fn header_end(&self) -> usize
        ensures { IsHeaderEnd result self.now.said }
    {
        self.header
    }

    pub fn need(&self) -> u64
        ensures { result ≡ need self.now.said }
    {
        self.need
    }

    /// One line more, which that text of it says in that form; it is for that, and costs so much. Without memory for it the lines stay.
    pub fn push(
        &mut self,
        form: LabelForm,
        text: &[u8],
        role: Role,
        cost: u64,
    ) -> Result<(), NoMemory>
        requires next { IsNext self.old text.now }
        requires faultless { IsLine form text.now }
        requires form { form_told (self.old.said ++ line_in form text.now ∷ []) ≡ form }
        requires role { role_of (line_in form text.now) ≡ role }
        requires cost { cost_of_line (line_in form text.now) ≡ cost }
        requires few { length self.old.said + 1 < 2 ^ 32 }
        ensures { OnOk result (self.new ≡ with_line self.old (line_in form text.now) text.now) }
    {
        let end = self.at + text.len();
        let header = match role {
            Role::Header => self.len() + 1,
            _ => self.header,
        };
        self.ends.push(end as u32)?;
        let Ok(()) = self.roles.push(role) else {
            self.ends.pop();
            return Err(NoMemory);
        };
        self.need += cost;
        self.form = form;
        self.header = header;
        self.at = end + 1;
        Ok(())
    }
}
