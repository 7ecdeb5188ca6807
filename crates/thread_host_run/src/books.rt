//! The run of a book of turns, or its first turn of an unready thread.

ghost use Rattle.std.specs.Prelude.{◌≡◌, ◌≤◌, [], length, IfOk, OnOk};
ghost use Rattle.lam_machine.specs.Worlds.{IsSound};
ghost use Rattle.thread_host_run.specs.Books.{IsRunOf, HasTaken};
ghost use Rattle.turn_book.specs.Limits.{most_turns};

use crate::run::{Run, let_go_run};
use guarded_code::Verified;
use lam_machine::World;
use std::alloc::Global;
use want_of_memory::NoMemory;

/// What becomes of a book of turns.
#[derive(Drop)]
pub enum RunOf {
    /// The run whose turns these are.
    Whole(Run),
    /// They are no run: the first turn whose thread is not ready, counted from 0, and that thread.
    Stops { turn: u64, thread: u32 },
}

/// The run of a code from a sound start whose turns are these, exactly where they are a run; else the first turn whose
/// thread is not ready.
///
/// It takes a step for each turn. A book has at most [`crate::TURN_LIMIT`] turns.
///
/// # Errors
///
/// `NoMemory` where memory is refused.
pub fn run_of(alloc: Global, code: Verified, start: World, turns: &[u32]) -> Result<RunOf, NoMemory>
    requires sound { IsSound code start }
    requires few { length turns.now ≤ most_turns }
    ensures { IfOk result (IsRunOf code start turns.now) }
{
    let mut run = Run::new(alloc, code, start)?;
    match take_all(&mut run, turns) {
        Ok(stop) => Ok(whole_or_stops(run, turns, stop)),
        Err(error) => {
            let_go_run(run);
            Err(error)
        }
    }
}

/// Takes the turns in order, up to the first whose thread is not ready: the number of that turn.
fn take_all(run: &mut Run, turns: &[u32]) -> Result<Option<u64>, NoMemory>
    requires few { length turns.now ≤ most_turns }
    requires none { run.old.turns ≡ [] }
    ensures code { OnOk result (run.new.code ≡ run.old.code) }
    ensures start { OnOk result (run.new.start ≡ run.old.start) }
    ensures taken { IfOk result (HasTaken run.new turns.now) }
{
    for (turn, thread) in turns.iter().enumerate() {
        if !run.ready(*thread) {
            return Ok(Some(turn as u64));
        }
        run.go(*thread)?;
    }
    Ok(None)
}

/// The run where it took all of the turns, else the one before which it stands.
fn whole_or_stops(run: Run, turns: &[u32], stop: Option<u64>) -> RunOf
    requires { HasTaken run turns.now stop }
    ensures { IsRunOf run.code run.start turns.now result }
{
    let _turns = run.turns();
    match stop {
        None => RunOf::Whole(run),
        Some(turn) => {
            let_go_run(run);
            RunOf::Stops {
                turn,
                thread: turns[turn as usize],
            }
        }
    }
}
