ghost use Rattle.std.specs.{Prelude.{◌≡◌, ℕ, ◌++◌, ◌+◌, ◌<◌, ◌≤◌, ◌==◌, [], None, length, drop, slice_get, slice_index_or, OnOk, IfOk, if◌then◌else◌}, Option.{option_map_or}};
ghost use Rattle.ix_script.specs.{scripts.Held.{IsSchedule, own_of}, scripts.Schedule.{SeatsDiffer, begins_part, begun_in, part_len, seat_begun, seat_from, seat_marked, stretch_in}};

use crate::packed::Lines;
use crate::role::Role;
use ix_model::{Name, NoMemory};
use ix_text::is;
use std::alloc::Global;

/// Lines of one lane in one phase that stand one behind the other.
#[derive(Clone, Copy, Debug, PartialEq, Eq)]
pub struct Stretch {
    /// From 0.
    pub phase: u32,
    /// The index of the first line, from 0.
    pub first: u32,
    /// The index behind the last line.
    pub end: u32,
}

/// Which lines are of which lane in which phase.
#[derive(Drop)]
pub(crate) struct Schedule {
    /// How many phases there are.
    pub phases: u32,
    /// The stretches of each lane, in order.
    pub stretches: Vec<Vec<Stretch>>,
    /// By the index of a line: the seat of the lane that it begins, or [`NO_SEAT`].
    pub seats: Vec<u8>,
}

/// It stands for no seat.
pub(crate) const NO_SEAT: u8 = 255;

/// So many lists of no stretch, with room for so many in each.
fn no_stretches(alloc: Global, count: usize, room: usize) -> Result<Vec<Vec<Stretch>>, NoMemory>
    ensures len { IfOk result (λ lists. length lists.items ≡ count) }
    ensures none { IfOk result (λ lists. (seat : ℕ) → own_of lists.items seat ≡ []) }
{
    let mut lists = Vec::new(alloc);
    'lists: for _ in 0..count {
        lists.push(Vec::with_capacity(alloc, room)?)?;
    }
    Ok(lists)
}

/// The seat of the lane of a name. Looked at first is the seat that it is likely to have.
fn seat_of(near: usize, name: &[u8], lanes: &[Name]) -> Option<usize>
    requires { SeatsDiffer lanes.now }
    ensures { result ≡ seat_from 0 name.now lanes.now }
{
    if near < lanes.len() && is(name, lanes[near].as_bytes()) {
        return Some(near);
    }
    'lanes: for seat in 0..lanes.len() {
        if is(name, lanes[seat].as_bytes()) {
            return Some(seat);
        }
    }
    None
}

/// The index behind the lines from one on that stand before the next that begins a phase or a lane's part of one.
fn part_end(lines: &Lines<'_>, first: usize) -> usize
    requires { first ≤ length lines.now.said }
    ensures { result ≡ first + part_len (drop first lines.now.said) }
{
    'lines: for index in first..lines.len() {
        match lines.role(index).unwrap() {
            Role::Phase | Role::Lane => return index,
            _ => continue,
        }
    }
    lines.len()
}

/// Takes the line at an index, before which so many phases have begun, and answers how many have begun behind it. The stretch
/// behind a `lane` line is put to those of its lane, and its seat is marked. The seat that the next `lane` line is likely to have is kept.
fn add_line(
    stretches: &mut Vec<Vec<Stretch>>,
    seats: &mut Vec<u8>,
    lanes: &[Name],
    lines: &Lines<'_>,
    index: usize,
    begun: u32,
    next: &mut usize,
) -> Result<u32, NoMemory>
    requires few { length lines.now.said ≤ 16777216 }
    requires within { index < length lines.now.said }
    requires begun { begun ≤ index }
    requires lanes { length stretches.old.items ≡ length lanes.now }
    requires differ { SeatsDiffer lanes.now }
    requires few_lanes { length lanes.now ≤ 64 }
    requires seats { length seats.old.items ≡ length lines.now.said }
    requires unset { seat_marked (slice_index_or seats.old.items index 255) ≡ None }
    ensures lanes { length stretches.new.items ≡ length lanes.now }
    ensures seats { length seats.new.items ≡ length lines.now.said }
    ensures marked { OnOk result ((i : ℕ) → seat_marked (slice_index_or seats.new.items i 255) ≡ (if i == index then seat_begun lanes.now (slice_get lines.now.said i) else seat_marked (slice_index_or seats.old.items i 255))) }
    ensures begun { IfOk result (λ after. after ≡ begun_in begun index lines.now.said) }
    ensures more { OnOk result ((seat : ℕ) → own_of stretches.new.items seat ≡ own_of stretches.old.items seat ++ stretch_in lanes.now seat begun index lines.now.said) }
{
    let role = lines.role(index).unwrap();
    if let Role::Phase = role {
        *next = 0;
        return Ok(begun + 1);
    }
    let Role::Lane = role else {
        return Ok(begun);
    };
    // The line isn't made: its name stands behind its word and a space.
    let text = lines.text_at(index).unwrap();
    let Some(seat) = seat_of(*next, &text[5..], lanes) else {
        return Ok(begun);
    };
    *next = seat.saturating_add(1);
    seats[index] = seat as u8;
    stretches[seat].push(Stretch {
        phase: begun.saturating_sub(1),
        first: index as u32 + 1,
        end: part_end(lines, index + 1) as u32,
    })?;
    Ok(begun)
}

impl Schedule {
    /// The schedule of lines, whose lanes have these names, with room for about so many phases. `NoMemory` where there was none for it.
    pub fn of(
        alloc: Global,
        lines: &Lines<'_>,
        lanes: &[Name],
        phases: usize,
    ) -> Result<Schedule, NoMemory>
        requires few { length lines.now.said ≤ 16777216 }
        requires differ { SeatsDiffer lanes.now }
        requires few_lanes { length lanes.now ≤ 64 }
        ensures { IfOk result (λ s. IsSchedule s lines.now.said lanes.now) }
    {
        // Lanes mostly stand in each phase with a line or more.
        let room = phases.min(lines.len() / 2 / lanes.len().max(1));
        let mut stretches = no_stretches(alloc, lanes.len(), room)?;
        let mut seats = Vec::new(alloc);
        seats.resize(lines.len(), NO_SEAT)?;
        let (mut begun, mut next) = (0, 0);
        'lines: for index in 0..lines.len() {
            begun = add_line(
                &mut stretches,
                &mut seats,
                lanes,
                lines,
                index,
                begun,
                &mut next,
            )?;
        }
        Ok(Schedule {
            phases: begun.max(1),
            stretches,
            seats,
        })
    }
}
