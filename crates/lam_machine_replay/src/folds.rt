//! One pass over the turns of a run, for any fold.

ghost use Rattle.std.specs.Prelude.{◌≡◌, ◌+◌, ◌-◌, ◌^◌, ◌<◌, ◌≤◌, ℕ, List, [], None, length, get_or, replicate, IfOk, OnOk, IfErr};
ghost use Rattle.lam_machine_terms.specs.Turns.{Moment, moments, step};
ghost use Rattle.lam_machine.specs.Asking.{label_at};
ghost use Rattle.lam_machine.specs.Worlds.{IsSound};
ghost use Rattle.lam_machine_runs.specs.Stops.{stopped_at};
ghost use Rattle.lam_machine_replay.specs.Stops.{IsStop};
ghost use Rattle.lam_machine_replay.specs.Keeping.{KeptOfSoMany, KeepsEvent, LeavesPrivate, KeepsTurn, KeepsPrivate, IsRow, Takes};

use crate::fault::RunFault;
use guarded_code::Verified;
use lam_asks::{Event, let_go_event};
use lam_machine::{World, let_go_world, step, step_privately_for};
use std::alloc::Global;
use want_of_memory::NoMemory;

/// Who looks for something in the turns of a run, and for nothing in private ones.
///
/// What is kept of moments, from the start of a run on, is `AreKept`.
pub trait Keeps<Kept> {
    ghost AreKept: { Self → List Moment → Kept → Type 0 };

    /// Keeps what there is of the turn of this number, by its event and the world after it.
    fn keep(
        &self,
        alloc: Global,
        kept: &mut Kept,
        turn: u64,
        event: Event,
        world: &World,
    ) -> Result<(), NoMemory>
        requires few { turn < 2 ^ 64 - 1 }
        requires before { KeptOfSoMany (AreKept self.now) turn kept.old }
        ensures { OnOk result (KeepsEvent (AreKept self.now) turn event world.now kept.old kept.new) };

    /// A law: nothing is kept of a private turn.
    fn leaves_private(&self)
        ensures { LeavesPrivate (AreKept self.now) };
}

/// Who looks for something in all turns of a run, private ones too. Whoever [`Keeps`] does, and leaves private ones alone.
///
/// What is kept of moments, from the start of a run on, is `AreAllKept`.
pub trait KeepsAll<Kept> {
    ghost AreAllKept: { Self → List Moment → Kept → Type 0 };

    /// Keeps what there is of the turn of this number, by its event and the world after it.
    fn keep_turn(
        &self,
        alloc: Global,
        kept: &mut Kept,
        turn: u64,
        event: Event,
        world: &World,
    ) -> Result<(), NoMemory>
        requires few { turn < 2 ^ 64 - 1 }
        requires before { KeptOfSoMany (AreAllKept self.now) turn kept.old }
        ensures { OnOk result (KeepsTurn (AreAllKept self.now) turn event world.now kept.old kept.new) };

    /// Keeps what there is of so many private turns of a thread in a row, by the world after them.
    fn keep_private(
        &self,
        alloc: Global,
        kept: &mut Kept,
        thread: u32,
        many: u64,
        world: &World,
    ) -> Result<(), NoMemory>
        ensures { OnOk result (KeepsPrivate (AreAllKept self.now) thread (label_at world.now thread) many kept.old kept.new) };
}

impl<Kept, K: Keeps<Kept>> KeepsAll<Kept> for K {
    ghost AreAllKept = { λ who ms kept. K.AreKept who ms kept };

    fn keep_turn(
        &self,
        alloc: Global,
        kept: &mut Kept,
        turn: u64,
        event: Event,
        world: &World,
    ) -> Result<(), NoMemory> {
        self.keep(alloc, kept, turn, event, world)
    }

    fn keep_private(
        &self,
        _alloc: Global,
        _kept: &mut Kept,
        _thread: u32,
        _many: u64,
        _world: &World,
    ) -> Result<(), NoMemory> {
        self.leaves_private();
        Ok(())
    }
}

/// Who keeps nothing.
#[derive(Clone, Copy)]
pub struct Nobody;

impl Keeps<()> for Nobody {
    ghost AreKept = { λ _ ms kept. Unit {0} };

    fn keep(
        &self,
        _alloc: Global,
        _kept: &mut (),
        _turn: u64,
        event: Event,
        _world: &World,
    ) -> Result<(), NoMemory> {
        let_go_event(event);
        Ok(())
    }

    fn leaves_private(&self) {}
}

/// Takes the turns of a start in order, and keeps what is looked for in them.
///
/// It takes as many steps as there are turns.
///
/// # Errors
///
/// `NotReady` at the first turn whose thread is not ready, exactly where there is one; `NoMemory`.
pub fn keep_turns<Kept, K: KeepsAll<Kept>>(
    alloc: Global,
    who: &K,
    kept: &mut Kept,
    code: &Verified,
    start: World,
    turns: &[u32],
) -> Result<(), RunFault>
    requires sound { IsSound code.now start }
    requires nothing { K.AreAllKept who.now [] kept.old }
    ensures ok { OnOk result (K.AreAllKept who.now (moments code.now turns.now start) kept.new) }
    ensures run { OnOk result (stopped_at code.now turns.now start ≡ None) }
    ensures stops { IfErr result (λ f. IsStop f (stopped_at code.now turns.now start)) }
{
    let mut world = start;
    let ended = take_all(alloc, who, kept, &mut world, code, turns);
    let_go_world(world);
    ended
}

fn take_all<Kept, K: KeepsAll<Kept>>(
    alloc: Global,
    who: &K,
    kept: &mut Kept,
    world: &mut World,
    code: &Verified,
    turns: &[u32],
) -> Result<(), RunFault>
    requires sound { IsSound code.now world.old }
    requires nothing { K.AreAllKept who.now [] kept.old }
    ensures ok { OnOk result (K.AreAllKept who.now (moments code.now turns.now world.old) kept.new) }
    ensures run { OnOk result (stopped_at code.now turns.now world.old ≡ None) }
    ensures stops { IfErr result (λ f. IsStop f (stopped_at code.now turns.now world.old)) }
{
    let mut turn = 0;
    let mut left = 0;
    'rows: while turn < turns.len() {
        let thread = turns[turn];
        let many = left_in_row(turns, turn, left);
        let taken = take_some(
            alloc,
            who,
            kept,
            world,
            code,
            turn as u64,
            thread,
            many as u64,
        )?;
        if taken == 0 {
            return Err(RunFault::NotReady {
                turn: turn as u64,
                thread,
            });
        }
        turn += taken as usize;
        left = many - taken as usize;
    }
    Ok(())
}

/// How many turns are left of the row that a turn is in: a new row begins where none are.
fn left_in_row(turns: &[u32], turn: usize, left: usize) -> usize
    requires within { turn < length turns.now }
    requires row { IsRow turns.now turn left (get_or turns.now turn 0) }
    ensures some { 0 < result }
    ensures row { IsRow turns.now turn result (get_or turns.now turn 0) }
{
    if left > 0 { left } else { row_at(turns, turn) }
}

/// How many turns from a place on are of the same thread as the turn there: a row of turns.
pub fn row_at(turns: &[u32], place: usize) -> usize
    requires { place < length turns.now }
    ensures some { 0 < result }
    ensures row { IsRow turns.now place result (get_or turns.now place 0) }
{
    let thread = turns[place];
    for next in place + 1..turns.len() {
        if turns[next] != thread {
            return next - place;
        }
    }
    turns.len() - place
}

/// Takes turns of a thread from this number on, up to so many, private ones in a row and one more, and keeps what there is of
/// them: how many it took. It took none only where the thread is not ready.
fn take_some<Kept, K: KeepsAll<Kept>>(
    alloc: Global,
    who: &K,
    kept: &mut Kept,
    world: &mut World,
    code: &Verified,
    turn: u64,
    thread: u32,
    most: u64,
) -> Result<u64, NoMemory>
    requires sound { IsSound code.now world.old }
    requires some { 0 < most }
    requires few { turn + most < 2 ^ 64 }
    requires before { KeptOfSoMany (K.AreAllKept who.now) turn kept.old }
    ensures few { IfOk result (λ n. n ≤ most) }
    ensures taken { IfOk result (λ n. Takes (K.AreAllKept who.now) code.now turn (replicate n thread) world.old kept.old world.new kept.new) }
    ensures stops { IfOk result (λ n. n ≡ 0 → step code.now world.old thread ≡ None) }
{
    let privately = take_private(alloc, who, kept, world, code, thread, most)?;
    if privately == most {
        return Ok(privately);
    }
    let one = take_turn(alloc, who, kept, world, code, turn + privately, thread)?;
    Ok(privately + one)
}

/// Takes private turns of a thread in a row, up to so many, and keeps what there is of them: how many it took.
fn take_private<Kept, K: KeepsAll<Kept>>(
    alloc: Global,
    who: &K,
    kept: &mut Kept,
    world: &mut World,
    code: &Verified,
    thread: u32,
    most: u64,
) -> Result<u64, NoMemory>
    ensures few { IfOk result (λ n. n ≤ most) }
    ensures taken { IfOk result (λ n. (turn : ℕ) → Takes (K.AreAllKept who.now) code.now turn (replicate n thread) world.old kept.old world.new kept.new) }
{
    let taken = step_privately_for(world, code, thread, most)?;
    who.keep_private(alloc, kept, thread, taken, world)?;
    Ok(taken)
}

/// Takes a turn of this number, and keeps what there is of it by its event: one turn, or none where the thread is not ready.
fn take_turn<Kept, K: KeepsAll<Kept>>(
    alloc: Global,
    who: &K,
    kept: &mut Kept,
    world: &mut World,
    code: &Verified,
    turn: u64,
    thread: u32,
) -> Result<u64, NoMemory>
    requires few { turn < 2 ^ 64 - 1 }
    requires sound { IsSound code.now world.old }
    requires before { KeptOfSoMany (K.AreAllKept who.now) turn kept.old }
    ensures few { IfOk result (λ n. n ≤ 1) }
    ensures taken { IfOk result (λ n. Takes (K.AreAllKept who.now) code.now turn (replicate n thread) world.old kept.old world.new kept.new) }
    ensures stops { IfOk result (λ n. n ≡ 0 → step code.now world.old thread ≡ None) }
{
    match step(alloc, world, code, thread)? {
        None => Ok(0),
        Some(event) => {
            who.keep_turn(alloc, kept, turn, event, world)?;
            Ok(1)
        }
    }
}
