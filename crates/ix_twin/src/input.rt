//! The input of two scripts.
ghost use Rattle.std.specs.Prelude.{◌≡◌, ◌≤◌, length};
ghost use Rattle.ix_check.specs.Parts.{lines_in};
ghost use Rattle.ix_twin.specs.Parts.{behind_line, divides, first_part, is_divider, lines_before, second_part, some_line};

use ix_check::first_line;

/// The parts of an input of two scripts.
#[derive(Clone, Copy)]
pub struct Divided<'a> {
    /// The first script, which is all where no line is `twin`.
    pub first: &'a [u8],
    /// The second script, which has no bytes there.
    pub second: &'a [u8],
    /// How many lines stand before the second script, the one that divides them among them.
    pub lines: usize,
}

/// Whether a line divides two scripts.
fn is_divider(line: &[u8]) -> bool
    ensures { result ≡ is_divider line.now }
{
    line == b"twin\n".as_slice() || line == b"twin".as_slice()
}

/// Whether the first line of what is left divides two scripts.
fn divides(rest: &[u8]) -> bool
    ensures { result ≡ divides (lines_in rest.now) }
{
    match first_line(rest) {
        Some((line, _)) => is_divider(line),
        None => is_divider(rest),
    }
}

/// What stands behind the first line.
fn behind_line(rest: &[u8]) -> &[u8]
    ensures { result.now ≡ behind_line rest.now }
{
    match first_line(rest) {
        Some((_, behind)) => behind,
        None => &[],
    }
}

/// How many lines bytes are that have no line feed.
fn some_line(rest: &[u8]) -> usize
    ensures { result ≡ some_line rest.now }
{
    if rest.is_empty() { 0 } else { 1 }
}

/// The parts of an input of two scripts: the first line that is `twin` divides it.
pub fn divide(input: &[u8]) -> Divided<'_>
    ensures first { result.first.now ≡ first_part input.now }
    ensures second { result.second.now ≡ second_part input.now }
    ensures lines { result.lines ≡ lines_before input.now }
    ensures few { result.lines ≤ length input.now }
{
    let mut rest = input;
    let mut lines = 0;
    'lines: while !divides(rest) {
        let Some((_, more)) = first_line(rest) else {
            return Divided {
                first: input,
                second: &[],
                lines: lines + some_line(rest),
            };
        };
        rest = more;
        lines += 1;
    }
    let (first, _) = input.split_at(input.len() - rest.len());
    Divided {
        first,
        second: behind_line(rest),
        lines: lines + 1,
    }
}
