ghost use Rattle.std.specs.Prelude.{◌≡◌, ◌<◌, suc, drop, length};
ghost use Rattle.ix_lanes.specs.{histories.Indexed.{line_in}, running.{Phases.{lines_before}, Stretches.{AreLeft, TellsPart}}};
ghost use Rattle.ix_script.specs.{lines.Before.{is_phase}, scripts.Schedule.{stretches_of}};

use crate::lines::role_at;
use ix_script::laws::lanes_are_stretches;
use ix_script::{Role, Script};

/// Whether the line at an index is a `phase` line.
fn is_phase_at(script: &Script<'_>, index: u32) -> bool
    requires { index < length script.now }
    ensures { result ≡ is_phase (line_in script.now index) }
{
    matches!(role_at(script, index), Role::Phase)
}

/// The index of the first line after a phase whose lines begin at an index. It takes as many steps as the phase has lines.
pub fn phase_end(script: &Script<'_>, first: u32, phase: u32) -> u32
    requires { first ≡ length (lines_before phase script.now) }
    ensures { result ≡ length (lines_before (suc phase) script.now) }
{
    let mut passed = false;
    for index in first..script.len() {
        if is_phase_at(script, index) {
            if passed {
                return index;
            }
            passed = true;
        }
    }
    script.len()
}

/// Whether a lane, of whose stretches those from a place on are left where a phase begins, has a line in that phase. Stretches without a
/// line are passed on the way, of which at most two can stand there.
pub(crate) fn has_part(script: &Script<'_>, lane: u32, come: u32, phase: u32) -> bool
    ensures { AreLeft script.now lane (length (lines_before phase script.now)) (drop come (stretches_of script.now lane))
        → TellsPart script.now lane phase result }
{
    lanes_are_stretches();
    for n in come..script.len() {
        let Some(stretch) = script.stretch(lane, n) else {
            return false;
        };
        if phase < stretch.phase {
            return false;
        }
        if stretch.first < stretch.end {
            return true;
        }
    }
    false
}
