ghost use Rattle.std.specs.Prelude.{◌≡◌, ◌<◌, List, ◌≤◌, ◌+◌, ℕ, length, map};
ghost use Rattle.ix_script.specs.{lines.Forms.{is_header, is_command_form, has_right_count, form_of, arity, kinds, tail_of}, reader.Placing.{kind_in, letter}};
ghost use Rattle.ix_label.specs.declared.form.Form as spelled;

use crate::words::Words;
use ix_text::is;

/// A command that takes a process alone.
#[derive(Clone, Copy)]
pub(crate) enum Plain {
    Wait,
    Self_,
    Freezeself,
    Thawself,
}

/// A command that takes a process and a path.
#[derive(Clone, Copy)]
pub(crate) enum OnPath {
    Create,
    Mkdir,
    Unlink,
    Rmdir,
    Chdir,
    Stat,
    Exec,
    Labelof,
    Freeze,
    Thaw,
}

/// A command that takes a process and a descriptor.
#[derive(Clone, Copy)]
pub(crate) enum OnFd {
    Close,
    Pex,
    Unpex,
    Priv,
}

/// A command that takes a process, a descriptor and a number.
#[derive(Clone, Copy)]
pub(crate) enum Counted {
    Read,
    Cut,
    Seek,
}

/// The form of a line, by its first word.
#[derive(Clone, Copy)]
pub(crate) enum Form {
    Limit,
    Fs,
    Proc,
    Dir,
    File,
    Phase,
    Lane,
    Plain(Plain),
    OnPath(OnPath),
    OnFd(OnFd),
    Counted(Counted),
    Open,
    Write,
    Dup,
    Pipe,
    Link,
    List,
    Fork,
    Exit,
    Setlabel,
    Setself,
    Setpriv,
    Droplic,
    Grant,
    Ceiling,
    Readlog,
    Copy,
    Login,
}

impl Form {
    pub fn is_header(self) -> bool
        ensures { result ≡ is_header self }
    {
        matches!(
            self,
            Form::Limit | Form::Fs | Form::Proc | Form::Dir | Form::File
        )
    }

    /// Whether it is a command, which stands in a lane.
    pub fn is_command(self) -> bool
        ensures { result ≡ is_command_form self }
    {
        !self.is_header() && !matches!(self, Form::Phase | Form::Lane)
    }

    /// Whether the line has the words of the form, and no others but `as` with its names.
    pub fn has_right_count(self, words: &Words<'_>) -> bool
        ensures { result ≡ has_right_count self words.now }
    {
        let own = self.kinds().len();
        let names = self.tail().len();
        words.len() == 1 + own
            || (names > 0 && words.len() == 2 + own + names && is(words.get(1 + own), b"as"))
    }
}

macro_rules! forms {
    ($($text:literal => $form:expr,)+) => { &[$(($text, $form)),+] };
}

/// The words that begin lines, with their forms, by their first letters.
const FORMS: &[(&[u8], Form)] = forms![
    b"cut" => Form::Counted(Counted::Cut), b"close" => Form::OnFd(OnFd::Close),
    b"copy" => Form::Copy, b"create" => Form::OnPath(OnPath::Create),
    b"chdir" => Form::OnPath(OnPath::Chdir), b"ceiling" => Form::Ceiling, b"dup" => Form::Dup,
    b"dir" => Form::Dir, b"droplic" => Form::Droplic, b"exec" => Form::OnPath(OnPath::Exec),
    b"exit" => Form::Exit, b"fs" => Form::Fs, b"fork" => Form::Fork,
    b"freeze" => Form::OnPath(OnPath::Freeze), b"freezeself" => Form::Plain(Plain::Freezeself),
    b"file" => Form::File, b"grant" => Form::Grant, b"lane" => Form::Lane, b"link" => Form::Link,
    b"list" => Form::List, b"labelof" => Form::OnPath(OnPath::Labelof), b"login" => Form::Login,
    b"limit" => Form::Limit, b"mkdir" => Form::OnPath(OnPath::Mkdir), b"open" => Form::Open,
    b"pex" => Form::OnFd(OnFd::Pex), b"priv" => Form::OnFd(OnFd::Priv), b"pipe" => Form::Pipe,
    b"proc" => Form::Proc, b"phase" => Form::Phase, b"read" => Form::Counted(Counted::Read),
    b"rmdir" => Form::OnPath(OnPath::Rmdir), b"readlog" => Form::Readlog,
    b"self" => Form::Plain(Plain::Self_), b"seek" => Form::Counted(Counted::Seek),
    b"stat" => Form::OnPath(OnPath::Stat), b"setlabel" => Form::Setlabel,
    b"setself" => Form::Setself, b"setpriv" => Form::Setpriv, b"thaw" => Form::OnPath(OnPath::Thaw),
    b"thawself" => Form::Plain(Plain::Thawself), b"unpex" => Form::OnFd(OnFd::Unpex),
    b"unlink" => Form::OnPath(OnPath::Unlink), b"write" => Form::Write,
    b"wait" => Form::Plain(Plain::Wait),
];

/// Where in that table the words of a letter begin, from `a` at 1 on; its end, where there are none.
const BEGIN: [usize; 32] = [
    45, 45, 45, 0, 6, 9, 11, 16, 45, 45, 45, 45, 17, 23, 45, 24, 25, 45, 30, 33, 39, 41, 45, 43,
    45, 45, 45, 45, 45, 45, 45, 45,
];

/// The place of a word's first letter among the letters, from 1 on; 0 where there is none.
fn letter(word: &[u8]) -> usize
    ensures place { result ≡ letter word.now }
    ensures low { result < 32 }
{
    match word {
        [] => 0,
        [b, ..] => usize::from(*b) % 32,
    }
}

pub(crate) fn form_of(word: &[u8]) -> Option<Form>
    ensures { result ≡ form_of word.now }
{
    let table = FORMS;
    'entries: for i in BEGIN[letter(word)]..table.len() {
        let (text, form) = table[i];
        if is(word, text) {
            return Some(form);
        }
    }
    None
}

/// What may stand at a place of a line.
#[derive(Clone, Copy)]
pub(crate) enum Kind {
    /// The name of a file system, a process or a lane that the line makes.
    Own,
    Proc,
    /// The name that stands after `as` for a process.
    NewProc,
    /// The name that stands after `as` for a descriptor.
    NewFd,
    Number(u32, u32),
    /// A number within the bounds of the WHAT before it.
    Bound,
    Label,
    Privs,
    AnyPath,
    MadePath,
    Mode,
    State,
    Limited,
    /// At most so many bytes.
    Payload(u32),
    Fd,
    Keep,
}

const ANY: Kind = Kind::Number(0, 4_294_967_295);

/// A number of blocks or inodes.
const SIZE: Kind = Kind::Number(1, 65_536);

impl Form {
    /// What may stand after the first word.
    pub fn kinds(self) -> &'static [Kind]
        ensures kinds { (labels : spelled.Form) (words : List (List ℕ)) → map (kind_in labels words) result.now ≡ kinds labels self words }
        ensures count { (words : List (List ℕ)) → length result.now ≡ arity self words }
        ensures few { length result.now ≤ 6 }
    {
        match self {
            Form::Phase => &[],
            Form::Limit => &[Kind::Limited, Kind::Bound],
            Form::Fs => &[Kind::Own, Kind::Label, SIZE, SIZE],
            Form::Proc => &[
                Kind::Own,
                Kind::Label,
                Kind::Label,
                Kind::Privs,
                Kind::Privs,
            ],
            Form::Dir => &[Kind::MadePath, Kind::Label, Kind::State],
            Form::File => &[
                Kind::MadePath,
                Kind::Label,
                Kind::State,
                Kind::Privs,
                Kind::Privs,
                Kind::Payload(1_048_576),
            ],
            Form::Lane => &[Kind::Own],
            Form::Plain(_) | Form::Pipe => &[Kind::Proc],
            Form::OnPath(_) => &[Kind::Proc, Kind::AnyPath],
            Form::OnFd(_) | Form::Dup => &[Kind::Proc, Kind::Fd],
            Form::Counted(_) => &[Kind::Proc, Kind::Fd, ANY],
            Form::Open => &[Kind::Proc, Kind::AnyPath, Kind::Mode],
            Form::Write => &[Kind::Proc, Kind::Fd, Kind::Payload(4096)],
            Form::Link => &[Kind::Proc, Kind::AnyPath, Kind::AnyPath],
            Form::List => &[Kind::Proc, Kind::AnyPath, ANY],
            Form::Copy => &[Kind::Proc, Kind::Fd, Kind::Fd, ANY],
            Form::Setlabel => &[Kind::Proc, Kind::AnyPath, Kind::Label],
            Form::Setpriv => &[Kind::Proc, Kind::AnyPath, Kind::Privs, Kind::Privs],
            Form::Fork => &[Kind::Proc, Kind::Keep],
            Form::Exit => &[Kind::Proc, Kind::Number(0, 255)],
            Form::Setself => &[Kind::Proc, Kind::Label],
            Form::Droplic => &[Kind::Proc, Kind::Privs],
            Form::Grant => &[Kind::Proc, Kind::Proc, Kind::Privs],
            Form::Ceiling => &[Kind::Proc, Kind::Proc, Kind::Label],
            Form::Readlog => &[Kind::Proc, ANY],
            Form::Login => &[Kind::Proc, Kind::Fd, Kind::Fd],
        }
    }

    /// The names that may stand after `as`.
    pub fn tail(self) -> &'static [Kind]
        ensures tail { (labels : spelled.Form) (words : List (List ℕ)) → map (kind_in labels words) result.now ≡ tail_of self }
        ensures names { length result.now ≡ length (tail_of self) }
        ensures few { (words : List (List ℕ)) → length result.now + arity self words ≤ 6 }
    {
        match self {
            Form::Open | Form::Dup => &[Kind::NewFd],
            Form::Pipe => &[Kind::NewFd, Kind::NewFd],
            Form::Fork | Form::Login => &[Kind::NewProc],
            _ => &[],
        }
    }
}
