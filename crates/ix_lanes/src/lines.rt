ghost use Rattle.std.specs.Prelude.{◌≡◌, ◌<◌, Some, length};
ghost use Rattle.ix_script.specs.lines.Roles.{role_of};
ghost use Rattle.ix_lanes.specs.histories.Indexed.{line_in};

use ix_script::{Line, Role, Script};

/// The line at an index from 0, which it asks to be below the number of lines. What keeps it keeps it so: a line is wide, and is copied
/// once more where it is taken out.
#[inline(always)]
pub(crate) fn line_kept<'a>(script: &Script<'a>, index: u32) -> Option<Line<'a>>
    requires { index < length script.now }
    ensures { result ≡ Some (line_in script.now index) }
{
    let _count = script.len();
    script.line(index + 1)
}

/// The line at an index from 0, which it asks to be below the number of lines: its number in the script is one more. It takes no
/// memory.
pub fn line_at<'a>(script: &Script<'a>, index: u32) -> Line<'a>
    requires { index < length script.now }
    ensures { result ≡ line_in script.now index }
{
    match line_kept(script, index) {
        Some(line) => line,
        None => unreachable!(),
    }
}

/// What the line at an index from 0 is for, which it asks to be below the number of lines. The line isn't made for it.
pub fn role_at(script: &Script<'_>, index: u32) -> Role
    requires { index < length script.now }
    ensures { result ≡ role_of (line_in script.now index) }
{
    let _count = script.len();
    script.role(index + 1).unwrap_or(Role::Aside)
}
