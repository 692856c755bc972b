ghost use Rattle.std.specs.Prelude.{◌≡◌, Some, IsSome};
ghost use Rattle.ix_script.specs.{lines.Before.{is_command}, lines.Roles.{role_of}, reader.Placing.{path_cost}, scripts.Need.{cost_of_line}, texts.Words.{path_of}};

use crate::line::Line;
use crate::paths::PathWord;

/// What a line is for.
#[derive(Clone, Copy, Debug, PartialEq, Eq)]
pub enum Role {
    /// It is skipped.
    Aside,
    /// It stands in the header.
    Header,
    /// It begins a phase.
    Phase,
    /// It begins a lane's part of a phase.
    Lane,
    /// `open`, `dup`, `pipe` or `fork`: commands that may give a name.
    Naming,
    /// `priv` or `login`: commands that a server serves.
    Server,
    /// Any other command.
    Command,
}

#[tactic(auto, unfolding(crate::specs::lines::Roles::role_of))]
pub(crate) fn role_of(line: &Line<'_>) -> Role
    ensures { result ≡ role_of line.now }
{
    match line {
        Line::Skipped => Role::Aside,
        Line::Version { .. } | Line::Limit { .. } | Line::Fs { .. } | Line::Proc { .. } =>
            Role::Header,
        Line::Dir { .. } | Line::File { .. } | Line::Policy { .. } => Role::Header,
        Line::Phase => Role::Phase,
        Line::Lane { .. } => Role::Lane,
        Line::Open { .. } | Line::Dup { .. } | Line::Pipe { .. } | Line::Fork { .. } =>
            Role::Naming,
        Line::Priv { .. } | Line::Login { .. } => Role::Server,
        _ => Role::Command,
    }
}

/// Whether a line is a command, which stands in a lane.
pub(crate) fn is_command(line: &Line<'_>) -> bool
    ensures { result ≡ is_command line.now }
{
    matches!(role_of(line), Role::Naming | Role::Server | Role::Command)
}

/// What an entry costs besides its words.
pub(crate) const ENTRY: u64 = 128;

/// What the entries of a line cost, at the most.
#[tactic(auto, unfolding(crate::specs::scripts::Need::cost_of_line))]
pub(crate) fn cost_of_line(line: &Line<'_>) -> u64
    ensures { result ≡ cost_of_line line.now }
{
    match line {
        Line::Write { bytes, .. } => ENTRY + bytes.len() as u64,
        Line::Link { target, path, .. } => ENTRY + (target.path().cost() + path.path().cost()),
        Line::Create { path, .. }
        | Line::Open { path, .. }
        | Line::Mkdir { path, .. }
        | Line::Unlink { path, .. }
        | Line::Rmdir { path, .. }
        | Line::Chdir { path, .. }
        | Line::Stat { path, .. }
        | Line::List { path, .. }
        | Line::Exec { path, .. }
        | Line::Labelof { path, .. }
        | Line::Setlabel { path, .. }
        | Line::Freeze { path, .. }
        | Line::Thaw { path, .. }
        | Line::Setpriv { path, .. } => ENTRY + path.path().cost(),
        Line::Copy { count, .. } => 2 * ENTRY + (*count).min(4096) as u64,
        Line::Priv { .. } => 5 * ENTRY + 16,
        Line::Login { .. } => 9 * ENTRY + 16,
        _ if is_command(line) => ENTRY,
        _ => 0,
    }
}

/// What a command costs that names this path.
pub(crate) fn path_cost(word: &[u8]) -> u64
    requires { IsSome (path_of word.now) }
    ensures { path_cost word.now ≡ Some result }
{
    ENTRY + PathWord::of(word).path().cost()
}
