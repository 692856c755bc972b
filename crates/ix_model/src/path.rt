ghost use Rattle.std.specs.Prelude.{◌≡◌, ℕ, ◌<◌, ◌≤◌, ◌+◌, ◌-◌, ◌==◌, ◌++◌, [], ◌∷◌, length, take, drop, position, slice_get, IsTrue, IfSome, MatchOption};
ghost use Rattle.std.specs.Prelude.{Some, None, if◌then◌else◌};
ghost use Rattle.std.specs.{Option.{option_map, option_map_or}, Iterator.{YieldsFirstBy, item_count}};
ghost use Rattle.ix_model.specs.history.Cost.{cost_of_path};
ghost use Rattle.ix_model.specs.world.{Naming.{is_name, same_names}, NameRefs.{name_of}, Texts.{between_slashes, is_path_text, names_in}};

use crate::name_ref::{NameRef, is_name};

pub(crate) const PATH_MAX: usize = 16;

/// A path: absolute or not, and at most 16 names. An absolute path of no names is the root. It borrows the text of its names,
/// which have a slash between each two.
#[derive(Clone, Copy)]
pub struct Path<'a> {
    absolute: bool,
    text: &'a [u8],
    ghost named: { IsTrue (is_path_text text.now) },
}

/// The names of a path that are left, one after the other.
#[derive(Clone, Copy)]
pub struct Names<'a> {
    rest: &'a [u8],
    ghost named: { IsTrue (is_path_text rest.now) },
}

/// The place of the first slash.
fn first_slash(text: &[u8]) -> Option<usize>
    ensures place { result ≡ position (λ b. b == 47) text.now }
    ensures within { IfSome result (λ k. k + 1 ≤ length text.now) }
{
    text.iter().position(|b| *b == b'/')
}

/// What stands before the first slash, and what stands after it.
fn first_piece(text: &[u8]) -> (&[u8], Option<&[u8]>)
    ensures pieces { between_slashes text.now ≡ result.0.now ∷ option_map_or (λ more. between_slashes more.now) result.1 [] }
    ensures fewer { IfSome result.1 (λ more. length more.now < length text.now) }
{
    match first_slash(text) {
        Some(k) => {
            let (_, more) = text.split_at(k + 1);
            (&text[..k], Some(more))
        }
        None => (text, None),
    }
}

/// The place of the last slash.
#[tactic(auto, using(crate::proofs::texts::Reading::at_end, crate::proofs::texts::Reading::no_slash, crate::proofs::texts::Reading::at_slash))]
fn last_slash(text: &[u8]) -> Option<usize>
    ensures { MatchOption result (between_slashes text.now ≡ text.now ∷ []) (λ k. (k < length text.now) × (between_slashes text.now ≡ between_slashes (take k text.now) ++ drop (k + 1) text.now ∷ [])) }
{
    let mut k = text.len();
    'bytes: while k > 0 {
        k -= 1;
        if text[k] == b'/' {
            return Some(k);
        }
    }
    None
}

/// The text of the names but the last.
fn front(text: &[u8]) -> &[u8]
    requires { IsTrue (is_path_text text.now) }
    ensures text { IsTrue (is_path_text result.now) }
    ensures names { names_in result.now ≡ take (length (names_in text.now) - 1) (names_in text.now) }
{
    match last_slash(text) {
        Some(k) => &text[..k],
        None => &[],
    }
}

/// The last name.
fn last_piece(text: &[u8]) -> &[u8]
    requires some { 0 < length text.now }
    requires names { IsTrue (is_path_text text.now) }
    ensures last { Some result.now ≡ slice_get (names_in text.now) (length (names_in text.now) - 1) }
    ensures name { IsTrue (is_name result.now) }
{
    match last_slash(text) {
        Some(k) => {
            let (_, last) = text.split_at(k + 1);
            last
        }
        None => text,
    }
}

/// The first name, and the text of those behind it.
fn first_name(text: &[u8]) -> (NameRef<'_>, &[u8])
    requires some { 0 < length text.now }
    requires names { IsTrue (is_path_text text.now) }
    ensures names { names_in text.now ≡ name_of result.0 ∷ names_in result.1.now }
    ensures text { IsTrue (is_path_text result.1.now) }
{
    let (word, more) = first_piece(text);
    match more {
        Some(more) => (NameRef::of(word), more),
        None => (NameRef::of(word), &[]),
    }
}

/// Whether it is the text of at most 16 names.
pub(crate) fn is_path_text(text: &[u8]) -> bool
    ensures { result ≡ is_path_text text.now }
{
    if text.is_empty() {
        return true;
    }
    let mut rest = text;
    let mut count = 0;
    'pieces: loop {
        let (word, more) = first_piece(rest);
        if count >= PATH_MAX || !is_name(word) {
            return false;
        }
        count += 1;
        match more {
            Some(text) => rest = text,
            None => return true,
        }
    }
}

impl<'a> Path<'a> {
    ghost use Rattle.ix_model.specs.world.Paths.{path_of, names_left, path_from};

    /// A path of no names.
    pub fn new(absolute: bool) -> Path<'static>
        ensures { path_of result ≡ record { absolute = absolute; names = [] } }
    {
        Path {
            absolute,
            text: &[],
        }
    }

    /// The path with this text of its names; `None` exactly where it is no text of at most 16 names. Nothing is copied.
    pub fn read(absolute: bool, text: &'a [u8]) -> Option<Path<'a>>
        ensures { option_map path_of result ≡ (if is_path_text text.now then Some (path_from absolute text.now) else None) }
    {
        if is_path_text(text) {
            Some(Path { absolute, text })
        } else {
            None
        }
    }

    /// The same where it is known to be one: nothing is looked at.
    pub fn from_text(absolute: bool, text: &'a [u8]) -> Path<'a>
        requires { IsTrue (is_path_text text.now) }
        ensures { path_of result ≡ path_from absolute text.now }
    {
        Path { absolute, text }
    }

    /// Whether it begins at the root, and not at a working directory.
    pub fn absolute(&self) -> bool
        ensures { result ≡ (path_of self.now).absolute }
    {
        self.absolute
    }

    /// The text of its names.
    pub fn text(&self) -> &'a [u8]
        ensures names { names_in result.now ≡ (path_of self.now).names }
        ensures text { IsTrue (is_path_text result.now) }
        ensures is { result.now ≡ self.now.text.now }
        ensures few { length result.now ≤ 463 }
    {
        self.text
    }

    /// Its names, one after the other.
    pub fn names(&self) -> Names<'a>
        ensures names { names_left result ≡ (path_of self.now).names }
        ensures few { length (names_left result) ≤ 16 }
    {
        Names { rest: self.text }
    }

    /// How many names it has, at most 16.
    pub fn len(&self) -> usize
        ensures len { result ≡ length (path_of self.now).names }
        ensures few { result ≤ 16 }
    {
        self.names().count()
    }

    /// The name at an index from 0; `None` exactly past the last.
    pub fn name(&self, i: usize) -> Option<NameRef<'a>>
        ensures { option_map (λ n. name_of n) result ≡ slice_get (path_of self.now).names i }
    {
        let mut names = self.names();
        'names: for _ in 0..i {
            if names.next().is_none() {
                return None;
            }
        }
        names.next()
    }

    /// The last name; `None` exactly where there are no names.
    pub fn last_name(&self) -> Option<NameRef<'a>>
        ensures { option_map name_of result ≡ slice_get (path_of self.now).names (length (path_of self.now).names - 1) }
    {
        if self.text.is_empty() {
            return None;
        }
        Some(NameRef::of(last_piece(self.text)))
    }

    /// What it costs a journal: the length of each name and one more, at most 464.
    pub fn cost(&self) -> u64
        ensures cost { result ≡ cost_of_path (path_of self.now) }
        ensures few { result ≤ 464 }
    {
        if self.text.is_empty() {
            0
        } else {
            self.text.len() as u64 + 1
        }
    }

    /// The path without its last name. One that has no names stays as it is.
    pub fn parent(&self) -> Path<'a>
        ensures { path_of result ≡ record (path_of self.now) { names = take (length (path_of self.now).names - 1) (path_of self.now).names } }
    {
        Path {
            absolute: self.absolute,
            text: front(self.text),
        }
    }

    /// Whether the two have the same names in the same order, wherever they begin.
    pub fn same_names(&self, other: &Path<'_>) -> bool
        ensures { result ≡ same_names (path_of self.now).names (path_of other.now).names }
    {
        self.text == other.text
    }
}

impl<'a> Names<'a> {
    ghost use Rattle.ix_model.specs.world.Paths.{names_left};

    /// Whether none is left.
    pub fn is_empty(&self) -> bool
        ensures { result ≡ (length (names_left self.now) == 0) }
    {
        self.rest.is_empty()
    }
}

impl<'a> Iterator for Names<'a> {
    type Item = NameRef<'a>;

    ghost use Rattle.ix_model.specs.world.Paths.{names_left};

    ghost next_gives = { YieldsFirstBy (λ n. name_of n) names_left };

    ghost remaining = { item_count names_left };

    fn next(&mut self) -> Option<NameRef<'a>> {
        if self.rest.is_empty() {
            return None;
        }
        let (name, rest) = first_name(self.rest);
        self.rest = rest;
        Some(name)
    }
}

const _: () = prove!(std::mem::size_of::<Path<'static>>() <= 24);
