//! Where a closed run stands between two turns.

ghost use Rattle.std.specs.Prelude.{◌≡◌, ◌+◌, ◌^◌, ◌<◌, ◌≤◌, true};
ghost use Rattle.closed_run.specs.Places.{Fits, HasRoom, slot_with, count_with, with_turns};

use closed_terms::{MOST_TURNS, QUANTUM, Slot};

/// Who has the slot, and how many open turns were taken.
#[derive(Clone, Copy)]
pub(crate) struct Place {
    pub(crate) slot: Slot,
    pub(crate) open_turns: u64,
}

impl Place {
    /// Before the first turn.
    pub(crate) fn first() -> Place
        ensures { result ≡ record { slot = record { thread = 0; used = 0 }; open_turns = 0 } }
    {
        Place {
            slot: Slot { thread: 0, used: 0 },
            open_turns: 0,
        }
    }
}

/// So many turns of the slot's thread later, which count where they are open.
pub(crate) fn with_turns(place: Place, is_open: bool, count: u64) -> Place
    requires slot { is_open ≡ true → place.slot.used + count < 2 ^ 32 }
    requires turns { is_open ≡ true → place.open_turns + count < 2 ^ 64 }
    ensures { result ≡ with_turns is_open place count }
{
    Place {
        slot: slot_with(place.slot, is_open, count),
        open_turns: count_with(place.open_turns, is_open, count),
    }
}

/// The slot so many turns of its thread later.
pub(crate) fn slot_with(slot: Slot, is_open: bool, count: u64) -> Slot
    requires { is_open ≡ true → slot.used + count < 2 ^ 32 }
    ensures { result ≡ slot_with is_open slot count }
{
    if is_open {
        Slot {
            thread: slot.thread,
            used: slot.used + count as u32,
        }
    } else {
        slot
    }
}

fn count_with(open_turns: u64, is_open: bool, count: u64) -> u64
    requires { is_open ≡ true → open_turns + count < 2 ^ 64 }
    ensures { result ≡ count_with is_open open_turns count }
{
    if is_open {
        open_turns + count
    } else {
        open_turns
    }
}

/// How many turns may come in a row: inside as many as a run may have, else those that the slot and the run have left.
pub(crate) fn room(place: Place, is_open: bool, budget: u64, turns: u64) -> u64
    requires { Fits budget turns place }
    ensures { HasRoom is_open place budget turns result }
{
    if place.open_turns >= budget {
        return 0;
    }
    let left = MOST_TURNS - turns;
    if !is_open {
        return left;
    }
    let slot = (QUANTUM - place.slot.used) as u64;
    least(left, least(slot, budget - place.open_turns))
}

fn least(a: u64, b: u64) -> u64
    ensures first { result ≤ a }
    ensures second { result ≤ b }
{
    if a < b { a } else { b }
}
