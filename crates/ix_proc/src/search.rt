ghost use Rattle.std.specs.{Prelude.{◌≡◌, ℕ, ◌<◌, length, is_some, true, Some}, List.{find}};
ghost use Rattle.ix_links.specs.Chains.{chain_of, pool};
ghost use Rattle.ix_proc.specs.{Slots.{Rises, Finds, record_at}, Kin.{Hangs, Parented, IsWalk}};

use crate::slot::{Record, Slot};
use ix_links::Links;
use ix_model::Pid;

/// Whether the slot at a place has a pid.
fn stands_at(slots: &[Slot], place: usize, pid: u32) -> bool
    ensures { result ≡ true → Finds (Some place) slots.now pid }
{
    place < slots.len() && slots[place].pid.0 == pid
}

/// The place of the slot with a pid. Where no slot has gone from before it, it stands behind as many slots as there are lesser pids: that
/// place is looked at first.
pub fn place_of(slots: &[Slot], pid: u32) -> Option<usize>
    requires { Rises slots.now }
    ensures { Finds result slots.now pid }
{
    let guess = pid.saturating_sub(1) as usize;
    if stands_at(slots, guess, pid) {
        return Some(guess);
    }
    slots.binary_search_by_key(&pid, |s| s.pid.0).ok()
}

/// The chain on which the children of a parent hang, or the one for those without.
pub fn chain_behind(slots: &[Slot], roots: u32, parent: Option<Pid>) -> u32
    requires rises { Rises slots.now }
    requires parented { Parented slots.now parent }
    ensures { Hangs slots.now roots parent result }
{
    let Some(parent) = parent else {
        return roots;
    };
    let Some(k) = place_of(slots, parent.0) else {
        unreachable!()
    };
    slots[k].link
}

/// The first link of a chain whose record has ended.
pub fn first_ended(kin: &Links, records: &[Record], chain: u32) -> Option<u32>
    requires chain { chain < length kin.now.chains }
    requires even { pool kin.now ≡ length records.now }
    requires walk { IsWalk (chain_of chain kin.now) (length records.now) }
    ensures { result ≡ find (λ i. is_some (record_at records.now i).ended) (chain_of chain kin.now) }
{
    let mut next = kin.first(chain);
    while let Some(link) = next {
        if records[link as usize].ended.is_some() {
            return Some(link);
        }
        next = kin.next(link);
    }
    None
}
