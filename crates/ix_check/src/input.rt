ghost use Rattle.std.specs.Prelude.{◌≡◌};
ghost use Rattle.ix_check.specs.Parts.{heads, is_heading, lines_in, report_part, script_part};

use crate::lines::first_line;

/// Whether a line is the first one of a report.
fn is_heading(line: &[u8]) -> bool
    ensures { result ≡ is_heading line.now }
{
    line == b"ix 1 report\n".as_slice()
        || line == b"ix 2 report\n".as_slice()
        || line == b"ix 1 report".as_slice()
        || line == b"ix 2 report".as_slice()
}

/// Whether the first line of what is left is that of a report.
fn begins_report(rest: &[u8]) -> bool
    ensures { result ≡ heads (lines_in rest.now) }
{
    match first_line(rest) {
        Some((line, _)) => is_heading(line),
        None => is_heading(rest),
    }
}

/// The parts of an input: a script, and behind it the text that claims to be its report, which begins at the first line after line 1 that is
/// the first one of a report.
pub fn parts(input: &[u8]) -> (&[u8], &[u8])
    ensures script { result.0.now ≡ script_part input.now }
    ensures report { result.1.now ≡ report_part input.now }
{
    let Some((_, behind)) = first_line(input) else {
        return input.split_at(input.len());
    };
    let mut rest = behind;
    'lines: while !begins_report(rest) {
        let Some((_, more)) = first_line(rest) else {
            return input.split_at(input.len());
        };
        rest = more;
    }
    input.split_at(input.len() - rest.len())
}
