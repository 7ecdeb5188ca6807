//! A closed run to its end.

ghost use Rattle.std.specs.Prelude.{◌≡◌, ◌<◌, ◌≤◌, [], IfOk, OnOk};
ghost use Rattle.lam_machine.specs.Worlds.{IsSound};
ghost use Rattle.lam_machine_terms.specs.Turns.{moments};
ghost use Rattle.closed_terms.specs.Ends.{IsEnded, most_turns};

use crate::places::Place;
use crate::turns::{Coming, take_row, take_turn, what_comes};
use closed_terms::End;
use flow_labels::Label;
use guarded_code::Verified;
use lam_machine_replay::{Keeps, Nobody, World};
use lam_machine_world::let_go_world;
use std::alloc::Global;
use thread_host_run::{RunParts, let_go_verified};
use want_of_memory::NoMemory;

/// A closed run that has ended: its code, start and turns, and how it ended.
#[derive(Drop)]
pub struct ClosedRun {
    pub parts: RunParts,
    pub end: End,
}

/// A closed run that has ended, as [`ClosedRun`], and what was kept of it.
#[derive(Drop)]
pub struct Closed<Kept: Drop> {
    pub parts: RunParts,
    pub end: End,
    pub kept: Kept,
}

/// The closed run of a code from a start, that may take so many open turns, whole, with what somebody keeps of it.
/// `nothing` is what is kept of no turns.
///
/// A turn is *open* where its label flows to the base. The run ends at the first of these: every thread has ended; it has
/// as many open turns as it may have; nobody is next; it has 1,000,000 turns in all. The start is copied once.
///
/// # Errors
///
/// `NoMemory` where memory is refused, for what is kept too.
pub fn closed_kept<Kept: Drop, K: Keeps<Kept>>(
    alloc: Global,
    code: Verified,
    start: World,
    base: &Label,
    open_turns: u64,
    who: &K,
    nothing: Kept,
) -> Result<Closed<Kept>, NoMemory>
    requires sound { IsSound code start }
    requires turns { (0 < open_turns) × (open_turns ≤ most_turns) }
    requires nothing { K.AreKept who.now [] nothing }
    ensures start { IfOk result (λ c. (c.parts.code ≡ code) × (c.parts.start ≡ start)) }
    ensures ended { IfOk result (λ c. IsEnded base.now code open_turns c.end c.parts.turns.items start) }
    ensures kept { IfOk result (λ c. K.AreKept who.now (moments code c.parts.turns.items start) c.kept) }
{
    let mut kept = nothing;
    let mut turns = Vec::new(alloc);
    let ended = from_start(
        alloc, who, &mut kept, &mut turns, &code, &start, base, open_turns,
    );
    match ended {
        Ok(end) => Ok(Closed {
            parts: RunParts { code, start, turns },
            end,
            kept,
        }),
        Err(error) => {
            drop(kept);
            drop(turns);
            let_go_world(start);
            let_go_verified(code);
            Err(error)
        }
    }
}

/// The closed run of a code from a start, as [`closed_kept`], where nothing is kept of it.
///
/// # Errors
///
/// `NoMemory` where memory is refused.
pub fn closed_on(
    alloc: Global,
    code: Verified,
    start: World,
    base: &Label,
    open_turns: u64,
) -> Result<ClosedRun, NoMemory>
    requires sound { IsSound code start }
    requires turns { (0 < open_turns) × (open_turns ≤ most_turns) }
    ensures start { IfOk result (λ c. (c.parts.code ≡ code) × (c.parts.start ≡ start)) }
    ensures ended { IfOk result (λ c. IsEnded base.now code open_turns c.end c.parts.turns.items start) }
{
    let nobody = Nobody;
    match closed_kept(alloc, code, start, base, open_turns, &nobody, ()) {
        Ok(Closed { parts, end, .. }) => Ok(ClosedRun { parts, end }),
        Err(error) => Err(error),
    }
}

/// The turns of a closed run from a start that stays, how it ended, and what is kept of it.
fn from_start<Kept, K: Keeps<Kept>>(
    alloc: Global,
    who: &K,
    kept: &mut Kept,
    turns: &mut Vec<u32>,
    code: &Verified,
    start: &World,
    base: &Label,
    budget: u64,
) -> Result<End, NoMemory>
    requires sound { IsSound code.now start.now }
    requires budget { budget ≤ most_turns }
    requires none { turns.old.items ≡ [] }
    requires nothing { K.AreKept who.now [] kept.old }
    ensures ended { IfOk result (λ e. IsEnded base.now code.now budget e turns.new.items start.now) }
    ensures kept { OnOk result (K.AreKept who.now (moments code.now turns.new.items start.now) kept.new) }
{
    let mut world = start.copy()?;
    let ended = to_end(alloc, who, kept, &mut world, turns, code, base, budget);
    let_go_world(world);
    ended
}

/// Takes the turns of a closed run to its end: how it ended.
fn to_end<Kept, K: Keeps<Kept>>(
    alloc: Global,
    who: &K,
    kept: &mut Kept,
    world: &mut World,
    turns: &mut Vec<u32>,
    code: &Verified,
    base: &Label,
    budget: u64,
) -> Result<End, NoMemory>
    requires sound { IsSound code.now world.old }
    requires budget { budget ≤ most_turns }
    requires none { turns.old.items ≡ [] }
    requires nothing { K.AreKept who.now [] kept.old }
    ensures ended { IfOk result (λ e. IsEnded base.now code.now budget e turns.new.items world.old) }
    ensures kept { OnOk result (K.AreKept who.now (moments code.now turns.new.items world.old) kept.new) }
{
    who.leaves_private();
    let mut place = Place::first();
    'turns: loop {
        let later = take_row(world, turns, code, base, budget, place)?;
        match what_comes(code, world, base, budget, later, turns.len() as u64) {
            Coming::Ends(end) => return Ok(end),
            Coming::Next(slot) => {
                let next = Place {
                    slot,
                    open_turns: later.open_turns,
                };
                place = take_turn(alloc, who, kept, world, turns, code, base, next)?;
            }
        }
    }
}
