//! One of two runs: its start, and what the observer notes of its turns.

ghost use Rattle.std.specs.Prelude.{◌≡◌, ◌≢◌, ◌≤◌, IsTrue, IfErr, string_bytes};
ghost use Rattle.lam_io.specs.Outside.{Rose, AllStay};
ghost use Rattle.guarded_code_runs.specs.Worlds.{IsSound};
ghost use Rattle.lam_machine_runs.specs.Stops.{stopped_at};
ghost use Rattle.lam_main_replay.specs.Books.{WhereReady, WithRun};
ghost use Rattle.lam_main_replay.specs.Halts.{Finds};
ghost use Rattle.lam_main_pair.specs.Halves.{NoRun, IsNoted, IsHalfOf};

use flow_labels::Label;
use guarded_code::Verified;
use lam_io::Shelf;
use lam_machine_world::{World, let_go_world};
use lam_main_replay::{Halt, read_turns, run_halt};
use pair_check::{Agenda, agenda_of};
use std::alloc::Global;

/// The world that a run starts from, and what an observer notes of its turns.
#[derive(Drop)]
pub(crate) struct Half {
    pub(crate) start: World,
    pub(crate) noted: Agenda,
}

/// Lets a run go.
pub(crate) fn let_go_half(half: Half) {
    let Half { start, noted: _ } = half;
    let_go_world(start);
}

/// A run from a world, whose turns are those of the book in a file.
///
/// # Errors
///
/// A refusal where the file can't be read, with its first broken line, or with the first turn whose thread is not ready;
/// `NoMemory`; `ShelfFailed` only where the shelf counted a fault.
pub(crate) fn half_of<H: Shelf>(
    alloc: Global,
    shelf: &mut H,
    code: &Verified,
    start: World,
    book: String,
    observer: &Label,
) -> Result<Half, Halt>
    requires sound { IsSound code.now start }
    ensures finds { IsTrue (H.tells shelf.old) → Finds result (IsHalfOf (H.files shelf.old) (string_bytes book) code.now observer.now start) (WithRun (H.files shelf.old) (string_bytes book) code.now start NoRun) }
    ensures stay { IsTrue (H.tells shelf.old) → AllStay (H.files shelf.old) (H.files shelf.new) }
    ensures tells_on { IsTrue (H.tells shelf.old) → IsTrue (H.tells shelf.new) }
    ensures later { H.faults shelf.old ≤ H.faults shelf.new }
    ensures failed { IfErr result (λ halt. halt ≡ Halt.ShelfFailed → Rose (H.faults shelf.old) (H.faults shelf.new)) }
{
    match read_turns(alloc, shelf, book) {
        Ok(turns) => noted(alloc, code, start, turns.as_slice(), observer),
        Err(halt) => {
            let_go_world(start);
            Err(halt)
        }
    }
}

/// A run from a world with these turns.
fn noted(
    alloc: Global,
    code: &Verified,
    start: World,
    turns: &[u32],
    observer: &Label,
) -> Result<Half, Halt>
    requires sound { IsSound code.now start }
    ensures finds { Finds result (IsNoted code.now observer.now start turns.now) (WhereReady (NoRun turns.now) (stopped_at code.now turns.now start)) }
    ensures no_fault { IfErr result (λ halt. halt ≢ Halt.ShelfFailed) }
{
    let copy = match start.copy() {
        Ok(copy) => copy,
        Err(_) => {
            let_go_world(start);
            return Err(Halt::NoMemory);
        }
    };
    match agenda_of(alloc, code, copy, turns, observer) {
        Ok(noted) => Ok(Half { start, noted }),
        Err(fault) => {
            let_go_world(start);
            Err(run_halt(fault))
        }
    }
}
