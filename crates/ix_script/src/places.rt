ghost use Rattle.std.specs.Prelude.{◌≡◌, ◌≤◌, ◌<◌, ◌+◌, [], ◌∷◌, Some, None, IsSome, length, map, take, if◌then◌else◌};
ghost use Rattle.ix_script.specs.{lines.Forms.{arity, kinds, places, places_from}, lines.Kinds.{places_fault}, lines.Said.{said, plain_line, path_line, fd_line}};
ghost use Rattle.ix_script.specs.{reader.Placing.{kind_in, least, Stand}, reader.Readers.{IsFault}, texts.Cutting.{word_at}};

use crate::fail::Rule;
use crate::form::{Counted, Form, Kind, OnFd, OnPath, Plain};
use crate::line::Line;
use crate::paths::{MadePath, PathWord, is_made_path, is_path_word};
use crate::payload::{Payload, payload_fault};
use crate::values::{
    LabelWord, NameWord, bounds, fd, fd_fault, keep, keep_fault, mode_of, number, number_fault,
    state_of, what_of,
};
use crate::words::Words;
use ix_label::Form as LabelForm;
use ix_text::{is_script_name, label_in, privs_of};

/// A rule, where it is broken.
fn unless(kept: bool, rule: Rule) -> Option<Rule>
    ensures { result ≡ (if kept then None else Some rule) }
{
    if kept { None } else { Some(rule) }
}

/// The first rule that the word at a place breaks by itself, where that may stand there.
#[tactic(auto, unfolding(crate::specs::lines::Kinds::places_fault, crate::specs::lines::Kinds::first_broken, crate::specs::texts::Words::path_of))]
fn place_fault(labels: LabelForm, kind: Kind, words: &Words<'_>, i: usize) -> Option<Rule>
    requires { i < 8 }
    ensures { IsFault result ((kind_in labels words.now kind, word_at words.now i) ∷ []) }
{
    let word = words.get(i);
    match kind {
        Kind::Own | Kind::Proc | Kind::NewProc | Kind::NewFd => {
            unless(is_script_name(word), Rule::BAD_NAME)
        }
        Kind::Number(low, high) => number_fault(low, high, word),
        Kind::Bound => {
            let (low, high) = bounds(words.get(1));
            number_fault(low, high, word)
        }
        Kind::Label => unless(label_in(labels, word).is_some(), Rule::BAD_LABEL),
        Kind::Privs => unless(privs_of(word).is_some(), Rule::BAD_SET),
        Kind::AnyPath => unless(is_path_word(word), Rule::BAD_PATH),
        Kind::MadePath => unless(is_made_path(word), Rule::BAD_PATH),
        Kind::Mode => unless(mode_of(word).is_some(), Rule::UNKNOWN_WORD),
        Kind::State => unless(state_of(word).is_some(), Rule::UNKNOWN_WORD),
        Kind::Limited => unless(what_of(word).is_some(), Rule::UNKNOWN_WORD),
        Kind::Payload(most) => payload_fault(most, word),
        Kind::Fd => fd_fault(word),
        Kind::Keep => keep_fault(word),
    }
}

/// The lesser of two rules, where any is broken.
fn least(a: Option<Rule>, b: Option<Rule>) -> Option<Rule>
    ensures { result ≡ least a b }
{
    match (a, b) {
        (Some(m), Some(n)) => Some(Rule(m.0.min(n.0))),
        (Some(m), None) => Some(m),
        (None, b) => b,
    }
}

/// The first of the rules that the words at some places break, where that may stand there: the first place is `from`.
fn fault_from(labels: LabelForm, kinds: &[Kind], words: &Words<'_>, from: usize) -> Option<Rule>
    requires { from + length kinds.now ≤ 8 }
    ensures { IsFault result (places_from from (map (kind_in labels words.now) kinds.now) words.now) }
{
    let mut broken = None;
    'kinds: for i in 0..kinds.len() {
        broken = least(broken, place_fault(labels, kinds[i], words, from + i));
    }
    broken
}

/// The first of rules 11 to 19 that a line of that form breaks, whose labels are spelled so: a word breaks them by itself. The first so many are known to break none.
#[inline(always)]
pub(crate) fn places_fault(
    labels: LabelForm,
    form: Form,
    words: &Words<'_>,
    known: usize,
) -> Option<Rule>
    requires few { known ≤ arity form words.now }
    requires right { places_fault (places_from 1 (take known (kinds labels form words.now)) words.now) ≡ None }
    ensures { IsFault result (places labels form words.now) }
{
    let kinds = form.kinds();
    let (_, left) = kinds.split_at(known);
    let own = fault_from(labels, left, words, 1 + known);
    if words.len() <= 1 + kinds.len() {
        return own;
    }
    least(own, fault_from(labels, form.tail(), words, 2 + kinds.len()))
}

/// Returns the line of that command, which has these fields.
macro_rules! say_by {
    ($command:ident: $of:ident, $fields:tt, $($name:ident)+) => {
        match $command { $($of::$name => return Some(Line::$name $fields),)+ }
    };
}

/// What a word says, by what stands there; `named` stands at a place and behind it.
macro_rules! at {
    ($labels:ident, $words:ident, name, $word:expr) => { NameWord::of($word) };
    ($labels:ident, $words:ident, label, $word:expr) => { LabelWord::of($labels, $word) };
    ($labels:ident, $words:ident, path, $word:expr) => { PathWord::of($word) };
    ($labels:ident, $words:ident, made_path, $word:expr) => { MadePath::of($word) };
    ($labels:ident, $words:ident, privs, $word:expr) => { privs_of($word).unwrap() };
    ($labels:ident, $words:ident, state, $word:expr) => { state_of($word).unwrap() };
    ($labels:ident, $words:ident, mode, $word:expr) => { mode_of($word).unwrap() };
    ($labels:ident, $words:ident, size, $word:expr) => { number(1, 65_536, $word) };
    ($labels:ident, $words:ident, status, $word:expr) => { number(0, 255, $word) };
    ($labels:ident, $words:ident, number, $word:expr) => { number(0, 4_294_967_295, $word) };
    ($labels:ident, $words:ident, payload, $word:expr) => { Payload::of($word) };
    ($labels:ident, $words:ident, fd, $word:expr) => { fd($word) };
    ($labels:ident, $words:ident, keep, $word:expr) => { keep($word) };
    ($labels:ident, $words:ident, named, $i:expr) => { $words.name_after($i) };
}

/// What a line of that form says, whose labels are spelled so, and whose words break no rule by themselves.
pub(crate) fn line_said<'a>(labels: LabelForm, form: Form, words: &Words<'a>) -> Option<Line<'a>>
    requires { Stand (places labels form words.now) }
    ensures said { said labels form words.now ≡ result }
    ensures some { IsSome result }
{
    let one = words.get(1);
    let two = words.get(2);
    let three = words.get(3);
    let four = words.get(4);
    // Returns a line, whose fields these words say.
    macro_rules! say {
        ($line:ident { $($field:ident: $kind:ident $at:expr),+ }) => {
            return Some(Line::$line { $($field: at!(labels, words, $kind, $at)),+ })
        };
    }
    match form {
        Form::Phase => return Some(Line::Phase),
        Form::Limit => return Some(Line::Limit {
            what: what_of(one).unwrap(),
            number: words.bound(),
        }),
        Form::Fs => say!(Fs {
            name: name one, ceiling: label two, blocks: size three, inodes: size four
        }),
        Form::Proc => say!(Proc {
            name: name one, label: label two, ceiling: label three, cap: privs four,
            lic: privs words.get(5)
        }),
        Form::Dir => say!(Dir { path: made_path one, label: label two, frozen: state three }),
        Form::File => say!(File {
            path: made_path one, label: label two, frozen: state three, cap: privs four,
            lic: privs words.get(5), bytes: payload words.get(6)
        }),
        Form::Lane => say!(Lane { name: name one }),
        Form::Plain(command) => say_by!(command: Plain,
            { proc: NameWord::of(one) }, Wait Self_ Freezeself Thawself),
        Form::OnPath(command) => say_by!(command: OnPath,
            { proc: NameWord::of(one), path: PathWord::of(two) },
            Create Mkdir Unlink Rmdir Chdir Stat Exec Labelof Freeze Thaw),
        Form::OnFd(command) => say_by!(command: OnFd,
            { proc: NameWord::of(one), fd: fd(two) }, Close Pex Unpex Priv),
        Form::Counted(Counted::Read) => say!(Read {
            proc: name one, fd: fd two, count: number three
        }),
        Form::Counted(Counted::Cut) => say!(Cut { proc: name one, fd: fd two, len: number three }),
        Form::Counted(Counted::Seek) => say!(Seek { proc: name one, fd: fd two, at: number three }),
        Form::Open => say!(Open {
            proc: name one, path: path two, mode: mode three, named: named 4
        }),
        Form::Write => say!(Write { proc: name one, fd: fd two, bytes: payload three }),
        Form::Dup => say!(Dup { proc: name one, fd: fd two, named: named 3 }),
        Form::Pipe => return Some(Line::Pipe {
            proc: NameWord::of(one),
            named: words.two_names_after(),
        }),
        Form::Link => say!(Link { proc: name one, target: path two, path: path three }),
        Form::List => say!(List { proc: name one, path: path two, index: number three }),
        Form::Copy => say!(Copy { proc: name one, from: fd two, to: fd three, count: number four }),
        Form::Setlabel => say!(Setlabel { proc: name one, path: path two, label: label three }),
        Form::Setpriv => say!(Setpriv {
            proc: name one, path: path two, cap: privs three, lic: privs four
        }),
        Form::Fork => say!(Fork { proc: name one, keep: keep two, named: named 3 }),
        Form::Exit => say!(Exit { proc: name one, status: status two }),
        Form::Setself => say!(Setself { proc: name one, label: label two }),
        Form::Droplic => say!(Droplic { proc: name one, set: privs two }),
        Form::Grant => say!(Grant { proc: name one, to: name two, set: privs three }),
        Form::Ceiling => say!(Ceiling { proc: name one, of: name two, label: label three }),
        Form::Readlog => say!(Readlog { proc: name one, index: number two }),
        Form::Login => say!(Login { proc: name one, fd: fd two, hand: fd three, named: named 4 }),
    }
}
