ghost use Rattle.std.specs.{Prelude.{◌≡◌, ◌≤◌, ◌+◌, ◌==◌, true, Some, IsSome, length, position, take, IfSome, ◌<◌, [], ◌∷◌, MatchOption}, List.{list_all}};
ghost use Rattle.ix_script.specs.{lines.Kinds.{bounds}, lines.Said.{name_after, two_names_after}, reader.Readers.{IsFault}};
ghost use Rattle.ix_script.specs.{texts.Cutting.{policy_text, word_at}, texts.Words.{mode_of, state_of, what_of, is_numeral, value, number_of, fd_of, keep_of}};
ghost use Rattle.ix_script.specs.lines.Kinds as kind;
ghost use Rattle.{ix_model.specs.world.Naming.{same_bytes}, ix_text.specs.{Bytes.{is_digit, begins_with}, Labels.{label_in}, Names.{is_script_name, name_of}}};

use crate::fail::Rule;
use crate::line::{FdWord, KeepWord, What};
use crate::words::Words;
use ix_label::{Form, Label};
use ix_model::{Mode, Name};
use ix_text::{begins, is, is_digit, is_script_name, label_in};
use std::marker::Model;

/// Whether the word begins with that text. It is inlined as `is` is.
#[inline(always)]
pub(crate) fn begins_with_text(text: &[u8], word: &[u8]) -> bool
    ensures { result ≡ same_bytes (take (length text.now) word.now) text.now }
{
    is(&word[..word.len().min(text.len())], text)
}

pub(crate) fn place_of(byte: u8, text: &[u8]) -> Option<usize>
    ensures place { result ≡ position (λ b. b == byte) text.now }
    ensures within { IfSome result (λ k. k + 1 ≤ length text.now) }
{
    text.iter().position(|b| *b == byte)
}

pub(crate) fn begins_with_digit(word: &[u8]) -> bool
    ensures { result ≡ begins_with is_digit word.now }
{
    matches!(word, [b, ..] if is_digit(*b))
}

/// The name of a file system, process, lane or descriptor, as a word of a script. It borrows the word; contracts see its bytes.
#[derive(Drop)]
pub struct NameWord<'a> {
    word: &'a [u8],
}

impl<'a> Model for NameWord<'a> {
    ghost use Rattle.std.specs.Prelude.{List, ℕ, IsTrue};
    ghost use Rattle.ix_text.specs.Names.{is_script_name};

    ghost Value = { List ℕ };

    ghost view = { λ n. n.word.now };

    ghost invariant = { λ n. IsTrue (is_script_name n.word.now) };
}

impl<'a> NameWord<'a> {
    #[tactic(auto, unfolding(ix_text::specs::Names::name_of))]
    pub(crate) fn of(word: &'a [u8]) -> NameWord<'a>
        requires { IsSome (name_of word.now) }
        ensures { name_of word.now ≡ Some result }
    {
        NameWord { word }
    }

    /// Its bytes, which are well formed.
    pub fn as_bytes(&self) -> &'a [u8]
        ensures bytes { result.now ≡ self.now }
        ensures name { is_script_name result.now ≡ true }
    {
        self.word
    }

    /// The name.
    pub fn name(&self) -> Name
        ensures { result ≡ self.now }
    {
        Name::read(self.word).unwrap()
    }
}

/// Returns what stands beside the first of these texts that a word is.
macro_rules! return_by_text {
    ($word:ident; $($text:literal => $form:expr,)+) => {
        $(if is($word, $text) { return Some($form); })+
    };
}

/// `r`, `w` or `rw`.
#[tactic(auto, unfolding(crate::specs::texts::Words::mode_of))]
pub(crate) fn mode_of(word: &[u8]) -> Option<Mode>
    ensures { result ≡ mode_of word.now }
{
    match word {
        b"r" => Some(Mode::Read),
        b"w" => Some(Mode::Write),
        b"rw" => Some(Mode::Both),
        _ => None,
    }
}

#[tactic(auto, unfolding(crate::specs::texts::Words::state_of))]
pub(crate) fn state_of(word: &[u8]) -> Option<bool>
    ensures { result ≡ state_of word.now }
{
    return_by_text!(word; b"free" => false, b"frozen" => true,);
    None
}

#[tactic(auto, unfolding(crate::specs::texts::Words::what_of))]
pub(crate) fn what_of(word: &[u8]) -> Option<What>
    ensures { result ≡ what_of word.now }
{
    return_by_text!(word;
        b"procs" => What::Procs, b"opens" => What::Opens, b"pipes" => What::Pipes,
        b"names" => What::Names, b"log" => What::Log,
    );
    None
}

fn all_digits(word: &[u8]) -> bool
    ensures { result ≡ list_all is_digit word.now }
{
    word.iter().all(|b| is_digit(*b))
}

#[tactic(auto, unfolding(crate::specs::texts::Words::is_numeral))]
pub(crate) fn is_numeral(word: &[u8]) -> bool
    ensures { result ≡ is_numeral word.now }
{
    begins_with_digit(word) && all_digits(word) && (word.len() == 1 || !begins(b'0', word))
}

/// The number of these digits; `None` exactly where it is above 4,294,967,295.
#[tactic(auto, unfolding(crate::specs::texts::Words::value))]
pub(crate) fn value(word: &[u8]) -> Option<u32>
    ensures { MatchOption result (4294967295 < value word.now) (λ n. n ≡ value word.now) }
{
    let mut value = 0u64;
    for b in word {
        value = value * 10 + u64::from(b.saturating_sub(48));
        if value > 4_294_967_295 {
            return None;
        }
    }
    Some(value as u32)
}

/// A decimal number without leading zeros, within bounds: the first rule that it breaks.
#[tactic(auto, unfolding(crate::specs::lines::Kinds::places_fault, crate::specs::lines::Kinds::first_broken))]
pub(crate) fn number_fault(low: u32, high: u32, word: &[u8]) -> Option<Rule>
    ensures { IsFault result ((kind.Number low high, word.now) ∷ []) }
{
    if !is_numeral(word) {
        return Some(Rule::BAD_NUMBER);
    }
    match value(word) {
        Some(n) if low <= n && n <= high => None,
        _ => Some(Rule::OUT_OF_RANGE),
    }
}

#[tactic(auto, unfolding(crate::specs::texts::Words::number_of))]
pub(crate) fn number(low: u32, high: u32, word: &[u8]) -> u32
    requires { IsSome (number_of low high word.now) }
    ensures number { number_of low high word.now ≡ Some result }
    ensures within { result ≤ high }
{
    value(word).unwrap()
}

/// The bounds of the number of a `limit` line for that word.
#[tactic(auto, unfolding(crate::specs::lines::Kinds::bounds))]
pub(crate) fn bounds(word: &[u8]) -> (u32, u32)
    ensures { result ≡ bounds word.now }
{
    match what_of(word) {
        Some(What::Procs) => (1, 1024),
        Some(What::Opens) => (1, 4096),
        Some(What::Pipes) => (0, 1024),
        Some(What::Names) => (16, 65_536),
        Some(What::Log) => (0, 65_536),
        None => (0, 4_294_967_295),
    }
}

/// A number up to 255, or a name: the first rule that it breaks.
#[tactic(auto, unfolding(crate::specs::lines::Kinds::places_fault, crate::specs::lines::Kinds::first_broken))]
#[inline(always)]
pub(crate) fn fd_fault(word: &[u8]) -> Option<Rule>
    ensures { IsFault result ((kind.Fd, word.now) ∷ []) }
{
    if begins_with_digit(word) {
        number_fault(0, 255, word)
    } else if is_script_name(word) {
        None
    } else {
        Some(Rule::BAD_NAME)
    }
}

/// `all`, `none`, or a descriptor: the first rule that it breaks.
#[tactic(auto, unfolding(crate::specs::lines::Kinds::places_fault, crate::specs::lines::Kinds::first_broken))]
pub(crate) fn keep_fault(word: &[u8]) -> Option<Rule>
    ensures { IsFault result ((kind.Keep, word.now) ∷ []) }
{
    if is(word, b"all") || is(word, b"none") {
        return None;
    }
    fd_fault(word)
}

#[tactic(auto, unfolding(crate::specs::texts::Words::fd_of))]
pub(crate) fn fd(word: &[u8]) -> FdWord<'_>
    requires { IsSome (fd_of word.now) }
    ensures { fd_of word.now ≡ Some result }
{
    if begins_with_digit(word) {
        FdWord::Number(number(0, 255, word) as u8)
    } else {
        FdWord::Named(NameWord::of(word))
    }
}

#[tactic(auto, unfolding(crate::specs::texts::Words::keep_of))]
pub(crate) fn keep(word: &[u8]) -> KeepWord<'_>
    requires { IsSome (keep_of word.now) }
    ensures { keep_of word.now ≡ Some result }
{
    match word {
        b"all" => KeepWord::All,
        b"none" => KeepWord::Nothing,
        _ => KeepWord::One(fd(word)),
    }
}

/// A label, as a word of a script spells it in its form. It borrows the word, and contracts see the label.
#[derive(Drop)]
pub struct LabelWord<'a> {
    word: &'a [u8],
    form: Form,
}

impl<'a> Model for LabelWord<'a> {
    ghost use Rattle.std.specs.Prelude.{◌≡◌, Some};
    ghost use Rattle.ix_label.specs.Category.{Categories};
    ghost use Rattle.ix_text.specs.Labels.{label_in};
    ghost use Rattle.ix_script.specs.texts.Words.{spelled_label};
    ghost use Rattle.ix_label.specs.contracts.label.Label as label_type;

    ghost Value = { Categories };

    ghost coded = { label_type.the_row.coded };

    ghost view = { λ l. spelled_label l.form l.word.now };

    ghost invariant = { λ l. label_in l.form l.word.now ≡ Some (spelled_label l.form l.word.now) };
}

impl<'a> LabelWord<'a> {
    pub(crate) fn of(form: Form, word: &'a [u8]) -> LabelWord<'a>
        requires { IsSome (label_in form word.now) }
        ensures { label_in form word.now ≡ Some result }
    {
        LabelWord { word, form }
    }

    /// The label. The word is read again.
    pub fn label(&self) -> Label
        ensures { result ≡ self.now }
    {
        label_in(self.form, self.word).unwrap()
    }
}

const _: () = prove!(std::mem::size_of::<LabelWord<'static>>() <= 24);

/// The text of a policy, which stands in the script's text.
#[derive(Drop)]
pub struct PolicyText<'a> {
    text: &'a [u8],
}

impl<'a> Model for PolicyText<'a> {
    ghost use Rattle.std.specs.Prelude.{List, ℕ};

    ghost Value = { List ℕ };

    ghost view = { λ p. p.text.now };
}

impl<'a> PolicyText<'a> {
    /// What a policy's line says, behind its word and a space.
    pub(crate) fn of_line(line: &'a [u8]) -> PolicyText<'a>
        ensures { result ≡ policy_text line.now }
    {
        let (_, text) = line.split_at(line.len().min(7));
        PolicyText { text }
    }

    /// Its bytes.
    pub fn as_bytes(&self) -> &'a [u8]
        ensures { result.now ≡ self.now }
    {
        self.text
    }
}

/// What stands at some places, counted from 0, with the command's word at 0, where the words break no rule there.
impl<'a> Words<'a> {
    pub fn bound(&self) -> u32
        requires { IsSome (number_of (bounds (word_at self.now 1)).0 (bounds (word_at self.now 1)).1 (word_at self.now 2)) }
        ensures { number_of (bounds (word_at self.now 1)).0 (bounds (word_at self.now 1)).1 (word_at self.now 2) ≡ Some result }
    {
        let (low, high) = bounds(self.get(1));
        number(low, high, self.get(2))
    }

    /// The name behind `as` at that place, where the line goes on to it.
    pub fn name_after(&self, n: usize) -> Option<NameWord<'a>>
        requires at { n < 7 }
        requires known { IsSome (name_after n self.now) }
        ensures { name_after n self.now ≡ Some result }
    {
        if self.len() <= n {
            return None;
        }
        Some(NameWord::of(self.get(n + 1)))
    }

    /// The two names behind `as` at place 2, where the line goes on to them.
    pub fn two_names_after(&self) -> Option<(NameWord<'a>, NameWord<'a>)>
        requires { IsSome (two_names_after 2 self.now) }
        ensures { two_names_after 2 self.now ≡ Some result }
    {
        if self.len() <= 2 {
            return None;
        }
        Some((NameWord::of(self.get(3)), NameWord::of(self.get(4))))
    }
}
