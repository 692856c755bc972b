ghost use Rattle.std.specs.{Prelude.{◌≡◌, Some, None, [], true, false, IsTrue, ◌<◌, ◌≤◌, ◌&&◌, ◌||◌, length, take}, List.{list_all, list_any}};
ghost use Rattle.ix_script.specs.{lines.Before.{form_told, is_known, what_text, proc_names, fss_of, objects_of}, texts.Cutting.{is_skipped, is_policy_line}};
ghost use Rattle.ix_script.specs.lines.Faults.{text_fault, stand_fault, names_fault, said_fault, form_fault, command_fault, first_line_fault, body_fault};
ghost use Rattle.ix_script.specs.lines.Rules.{is_outside, is_given_twice, is_unknown, names_unknown, object_above, object_is_misplaced, object_exceeds_limits, is_one_too_many, lacks_policy};
ghost use Rattle.ix_script.specs.{lines.Forms.{arity, kinds, places_from}, lines.Kinds.{places_fault}, lines.Said.{version_of, line_of}, reader.Readers.{Finds, object_fault, Tells, TellsForm, is_whole}, reader.Told.{DraftTold}};
ghost use Rattle.ix_script.specs.declared.line.Line.TheVariants as line;
ghost use Rattle.ix_script.specs.lines.Kinds as kind;
ghost use Rattle.ix_model.specs.{declared.config.ObjSpec.{ObjSpec}, opening.Valid.{is_within, fs_of, is_mount, is_taken, has_directory}};
ghost use Rattle.{ix_label.specs.{Category.{leq}, declared.form.Form.TheVariants.{One}}, ix_model.specs.{world.Naming.{same_bytes}, world.Paths.{path_of}}};

use crate::body::is_known;
use crate::draft::Draft;
use crate::fail::Rule;
use crate::form::{Form, form_of};
use crate::line::{Line, What};
use crate::paths::MadePath;
use crate::places::places_fault;
use crate::role::is_command;
use crate::values::{LabelWord, PolicyText, begins_with_digit, begins_with_text};
use crate::words::Words;
use ix_label::{Form as LabelForm, Steps};
use ix_model::{FsSpec, Path, blocks_for, fs_of, is_mount};
use ix_text::{begins, is};
use std::sync::ledger::Ledger;

/// Returns a rule where it is broken.
macro_rules! refuse_if {
    ($broken:expr, $rule:expr) => {
        if $broken {
            return Err($rule);
        }
    };
}

fn all_printable(text: &[u8]) -> bool
    ensures { result ≡ list_all (is_within 32 126) text.now }
{
    text.iter().all(|b| (b' '..=b'~').contains(b))
}

/// Rules 2 and 3. Of a line that is known to be printable no byte is looked at.
#[tactic(auto, unfolding(crate::specs::lines::Faults::text_fault, crate::specs::lines::Rules::is_too_long, crate::specs::lines::Rules::is_unprintable))]
pub(crate) fn check_text(printable: bool, text: &[u8]) -> Result<(), Rule>
    requires { IsTrue printable → list_all (is_within 32 126) text.now ≡ true }
    ensures { Finds result (text_fault text.now) }
{
    refuse_if!(text.len() > 65_536, Rule::LONG_LINE);
    refuse_if!(!printable && !all_printable(text), Rule::UNPRINTABLE);
    Ok(())
}

pub(crate) fn is_skipped(text: &[u8]) -> bool
    ensures { result ≡ is_skipped text.now }
{
    text.is_empty() || begins(b'#', text)
}

#[tactic(auto, unfolding(crate::specs::texts::Cutting::is_policy_line))]
pub(crate) fn is_policy_line(text: &[u8]) -> bool
    ensures { result ≡ is_policy_line text.now }
{
    is(text, b"policy") || begins_with_text(b"policy ", text)
}

/// `ix 1` and `ix 2`: the form in which the labels of a script are spelled. `None` exactly for other texts.
#[tactic(auto, unfolding(crate::specs::lines::Said::version_of))]
pub(crate) fn version_of(text: &[u8]) -> Option<LabelForm>
    ensures { result ≡ version_of text.now }
{
    match text {
        b"ix 1" => Some(LabelForm::One),
        b"ix 2" => Some(LabelForm::Two),
        _ => None,
    }
}

/// Line 1: rules 4 and 5, where it isn't a policy, and 6.
#[tactic(auto, unfolding(crate::specs::lines::Faults::first_line_fault))]
fn first_line(text: &[u8]) -> Result<Line<'_>, Rule>
    ensures { Tells [] result (first_line_fault text.now) (line_of One text.now) }
{
    if !is_policy_line(text) {
        let mut words = Words::none();
        words.cut(text);
        words.check()?;
    }
    let form = version_of(text).ok_or(Rule::NO_VERSION)?;
    Ok(Line::Version { form })
}

impl<'a> Draft<'a> {
    /// The form of a line that is cut into words; `Err` with the least of the rules 4 to 21 that it breaks.
    #[tactic(auto, unfolding(crate::specs::lines::Faults::command_fault, crate::specs::lines::Faults::form_fault, crate::specs::lines::Faults::stand_fault, crate::specs::lines::Faults::names_fault))]
    #[inline(always)]
    pub fn form_by_words(&self, words: &Words<'a>) -> Result<Form, Rule>
        requires told { DraftTold self.now }
        ensures { TellsForm self.now.lines.said result words.now }
    {
        words.check()?;
        let Some(form) = form_of(words.get(0)) else {
            return Err(Rule::UNKNOWN_COMMAND);
        };
        refuse_if!(form.is_header() && self.body.started, Rule::LATE_HEADER);
        refuse_if!(self.is_outside(form), Rule::OUTSIDE_LANE);
        refuse_if!(!form.has_right_count(words), Rule::WORD_COUNT);
        let near = self.near_names(form, words);
        if let Some(rule) = places_fault(self.lines.form(), form, words, near) {
            return Err(rule);
        }
        refuse_if!(self.gives_twice(form, words), Rule::GIVEN_TWICE);
        let unknown = near == 0 && self.is_unknown(form, words);
        refuse_if!(unknown, Rule::UNKNOWN_NAME);
        Ok(form)
    }

    /// Rules 22 to 24 on a directory, or on a file of so many bytes: `Err` with the least of these that it breaks.
    fn check_object<L: Ledger>(
        &self,
        path: &MadePath<'a>,
        label: &LabelWord<'a>,
        len: usize,
        steps: &mut Steps<L>,
    ) -> Result<(), Rule>
        requires told { DraftTold self.now }
        ensures { (o : ObjSpec) → o.path ≡ path.now → o.label ≡ label.now → length o.bytes ≡ len → Finds result (object_fault self.now.lines.said o) }
    {
        refuse_if!(self.is_above(path, label, steps), Rule::ABOVE_CEILING);
        refuse_if!(self.is_misplaced(&path.path()), Rule::MISFIT);
        refuse_if!(self.lacks_room(path, len), Rule::NO_ROOM);
        Ok(())
    }

    /// Rules 22 to 26, and 28: `Err` with the least of these that the line breaks.
    #[tactic(auto, unfolding(crate::specs::lines::Faults::said_fault))]
    pub fn check_said<L: Ledger>(&self, line: &Line<'a>, steps: &mut Steps<L>) -> Result<(), Rule>
        requires told { DraftTold self.now }
        ensures { Finds result (said_fault self.now.lines.said line.now) }
    {
        match line {
            Line::Proc { label, ceiling, .. } => {
                let most = self.header.limits.procs as usize;
                let fits = label.label().leq(&ceiling.label(), steps);
                refuse_if!(!fits, Rule::ABOVE_CEILING);
                refuse_if!(self.header.procs.count >= most, Rule::NO_ROOM);
            }
            Line::Limit { .. } => refuse_if!(self.header.latest > 2, Rule::OUT_OF_ORDER),
            Line::Fs { .. } => refuse_if!(self.header.latest > 3, Rule::OUT_OF_ORDER),
            Line::Dir { path, label, .. } => return self.check_object(path, label, 0, steps),
            Line::File {
                path,
                label,
                bytes,
                ..
            } => return self.check_object(path, label, bytes.len(), steps),
            _ => {}
        }
        refuse_if!(self.is_one_too_many(line), Rule::TOO_MANY);
        refuse_if!(self.lacks_policy(line), Rule::NO_POLICY);
        Ok(())
    }

    /// A line that isn't cut into words: the first, a skipped one or the policy; `Err` with the least rule, from 4 on, that it breaks.
    #[tactic(auto, unfolding(crate::specs::lines::Faults::body_fault))]
    pub fn whole_line(&self, text: &'a [u8]) -> Result<Line<'a>, Rule>
        requires told { DraftTold self.now }
        requires whole { is_whole self.now.lines.said text.now ≡ true }
        ensures { Tells self.now.lines.said result (body_fault self.now.lines.said text.now) (line_of (form_told self.now.lines.said) text.now) }
    {
        if self.lines.len() == 0 {
            return first_line(text);
        }
        if is_skipped(text) {
            return Ok(Line::Skipped);
        }
        refuse_if!(self.body.started, Rule::LATE_HEADER);
        refuse_if!(text.len() <= 7, Rule::WORD_COUNT);
        refuse_if!(self.header.policy, Rule::GIVEN_TWICE);
        Ok(Line::Policy {
            text: PolicyText::of_line(text),
        })
    }
}

fn is_named(word: &[u8], fss: &[FsSpec]) -> bool
    ensures { result ≡ list_any (λ s. same_bytes word.now s.name) fss.now }
{
    fss.iter().any(|fs| is(word, fs.name.as_bytes()))
}

fn what_word(what: What) -> &'static [u8]
    ensures { result.now ≡ what_text what }
{
    match what {
        What::Procs => b"procs",
        What::Opens => b"opens",
        What::Pipes => b"pipes",
        What::Names => b"names",
        What::Log => b"log",
    }
}

fn is_limited(word: &[u8], whats: &[What]) -> bool
    ensures { result ≡ list_any (λ w. same_bytes word.now (what_text w)) whats.now }
{
    whats.iter().any(|what| is(word, what_word(*what)))
}

/// Rules 9, 20 and 21: where a line stands, and its names, by the lines that the draft has seen.
impl<'a> Draft<'a> {
    /// Whether a command stands outside a lane, or a lane outside a phase: rule 9.
    pub fn is_outside(&self, form: Form) -> bool
        requires told { DraftTold self.now }
        ensures { result ≡ is_outside self.now.lines.said form }
    {
        match form {
            Form::Lane => !self.body.started,
            _ => form.is_command() && self.body.lane.is_none(),
        }
    }

    /// Whether a name is given twice: rule 20.
    #[inline(always)]
    pub fn gives_twice(&self, form: Form, words: &Words<'a>) -> bool
        requires told { DraftTold self.now }
        ensures { result ≡ is_given_twice self.now.lines.said form words.now }
    {
        let header = &self.header;
        match form {
            Form::Fs => header.told > 0 && is_named(words.get(1), header.fss.as_slice()),
            Form::Limit => is_limited(words.get(1), header.whats.as_slice()),
            Form::Proc => self.header.procs.has(words.get(1)),
            Form::Lane => self.body.has_lane(words.get(1)),
            Form::Pipe => words.len() > 2 && is(words.get(3), words.get(4)),
            Form::Fork => words.len() > 3 && self.header.procs.has(words.get(4)),
            Form::Login => words.len() > 4 && self.header.procs.has(words.get(5)),
            _ => false,
        }
    }

    #[inline(always)]
    fn lacks_proc(&self, word: &'a [u8]) -> bool
        requires told { DraftTold self.now }
        ensures { result ≡ is_unknown self.now.lines.said (kind.Proc, word.now) }
    {
        !self.header.procs.has(word) && !self.body.procs.has(self.body.lane, word)
    }

    #[inline(always)]
    fn lacks_fd(&self, word: &'a [u8]) -> bool
        requires told { DraftTold self.now }
        ensures { result ≡ is_unknown self.now.lines.said (kind.Fd, word.now) }
    {
        !begins_with_digit(word) && !self.body.fds.has(self.body.lane, word)
    }

    /// At how many places the names of processes and descriptors stand that a line has, where these come first and are all near: 0 where not.
    #[inline(always)]
    fn near_names(&self, form: Form, words: &Words<'a>) -> usize
        requires told { DraftTold self.now }
        ensures few { result ≤ arity form words.now }
        ensures known { 0 < result → names_unknown self.now.lines.said form words.now ≡ false }
        ensures right { places_fault (places_from 1 (take result (kinds (form_told self.now.lines.said) form words.now)) words.now) ≡ None }
    {
        if !self.header.procs.has_near(words.get(1)) {
            return 0;
        }
        let fd = words.get(2);
        match form {
            Form::OnFd(_) | Form::Counted(_) | Form::Write | Form::Dup
                if self.body.fds.has_near(self.body.lane, fd) => { 2 }
            Form::Plain(_) | Form::OnPath(_) | Form::Open | Form::Pipe | Form::Link => 1,
            Form::List | Form::Setlabel | Form::Setpriv | Form::Exit | Form::Setself => 1,
            _ => 0,
        }
    }

    /// Whether a process or a descriptor is unknown: rule 21.
    #[inline(always)]
    pub fn is_unknown(&self, form: Form, words: &Words<'a>) -> bool
        requires told { DraftTold self.now }
        ensures { result ≡ names_unknown self.now.lines.said form words.now }
    {
        if !form.is_command() {
            return false;
        }
        if self.lacks_proc(words.get(1)) {
            return true;
        }
        let word = words.get(2);
        match form {
            Form::Grant | Form::Ceiling => self.lacks_proc(word),
            Form::OnFd(_) | Form::Counted(_) | Form::Write | Form::Dup => self.lacks_fd(word),
            Form::Fork => !is(word, b"all") && !is(word, b"none") && self.lacks_fd(word),
            Form::Copy | Form::Login => self.lacks_fd(word) || self.lacks_fd(words.get(3)),
            _ => false,
        }
    }
}

/// Rules 22 to 26, and 28: what fits the lines before, which the draft has seen.
impl<'a> Draft<'a> {
    fn is_taken(&self, path: &Path<'a>) -> bool
        requires told { DraftTold self.now }
        ensures { result ≡ is_taken (fss_of self.now.lines.said) (objects_of self.now.lines.said) (path_of path.now).names }
    {
        is_mount(self.header.fss.as_slice(), path) || self.header.made.has(path)
    }

    fn has_directory(&self, path: &Path<'a>) -> bool
        requires told { DraftTold self.now }
        ensures { result ≡ has_directory (fss_of self.now.lines.said) (objects_of self.now.lines.said) (path_of path.now).names }
    {
        if path.len() == 0 {
            return true;
        }
        is_mount(self.header.fss.as_slice(), path) || self.header.made.has_dir(path)
    }

    /// Whether a label is above the ceiling of the file system that the path leads to.
    fn is_above<L: Ledger>(
        &self,
        path: &MadePath<'a>,
        label: &LabelWord<'a>,
        steps: &mut Steps<L>,
    ) -> bool
        requires told { DraftTold self.now }
        ensures { (o : ObjSpec) → o.path ≡ path.now → o.label ≡ label.now → result ≡ object_above self.now.lines.said o }
    {
        let fss = self.header.fss.as_slice();
        let k = fs_of(fss, &path.path());
        !label.label().leq(&fss[k].ceiling, steps)
    }

    fn is_misplaced(&self, path: &Path<'a>) -> bool
        requires told { DraftTold self.now }
        ensures { (o : ObjSpec) → o.path ≡ path_of path.now → result ≡ object_is_misplaced self.now.lines.said o }
    {
        self.is_taken(path) || !self.has_directory(&path.parent())
    }

    fn lacks_room(&self, path: &MadePath<'a>, len: usize) -> bool
        requires told { DraftTold self.now }
        ensures { (o : ObjSpec) → o.path ≡ path.now → length o.bytes ≡ len → result ≡ object_exceeds_limits self.now.lines.said o }
    {
        let fss = self.header.fss.as_slice();
        let k = fs_of(fss, &path.path());
        let names = fss.len().saturating_add(self.header.made.count);
        let inodes = self.header.taken.counts[k].saturating_add(2);
        let blocks = self.header.taken.blocks[k].saturating_add(blocks_for(len));
        names > self.header.limits.names as usize
            || inodes > fss[k].inodes as usize
            || blocks > fss[k].blocks as usize
    }

    /// Whether there are too many: a 17th file system, a 65th lane or a 200,001st command, rule 26.
    pub fn is_one_too_many(&self, line: &Line<'a>) -> bool
        requires told { DraftTold self.now }
        ensures { result ≡ is_one_too_many self.now.lines.said line.now }
    {
        match line {
            Line::Fs { .. } => self.header.told >= 16,
            Line::Lane { name } => {
                self.body.lanes.len() >= 64
                    && !is_known(name.as_bytes(), self.body.lanes.as_slice())
            }
            _ => is_command(line) && self.body.commands >= 200_000,
        }
    }

    /// Whether there is no policy for a `priv` or `login` line: rule 28.
    pub fn lacks_policy(&self, line: &Line<'a>) -> bool
        requires told { DraftTold self.now }
        ensures { result ≡ lacks_policy self.now.lines.said line.now }
    {
        matches!(line, Line::Priv { .. } | Line::Login { .. }) && !self.header.policy
    }
}
