//! The command `next`, which carries a run's files over into the next run's world.
//!
//! The files are read one after another, and the first refusal ends the call. They are the program, whose code is run
//! (`run_inputs`), the document of the world, and the book. The document's bytes are kept, since the next one has
//! its pipes and threads. The turns are taken (`thread_host_run`), and the document is made of the files and
//! directories that they leave, or it is refused (`world_save`). The document is written last, and nothing is written
//! where there is a refusal. What a call answers is what the plan of these files says (`lam_main_plan`).
//!
//! A public promise rests on [`next`] (clauses `gives`, `kept`, `spared`, `failed`): the document and the line are
//! those that are planned, and no other file changes. Free to change for speed: when an input is let go of. The
//! document must stay until the next one is made.
#![tactic(auto)]

mod output;
mod run_end;

ghost use Rattle.std.specs.Prelude.{◌≡◌, ◌≤◌, Ok, Some, length, IsTrue, IfErr, string_bytes};
ghost use Rattle.lam_io.specs.Outside.{Rose, AllStay};
ghost use Rattle.lam_bytecode.specs.Codes.{IsCode};
ghost use Rattle.guarded_code_runs.specs.Worlds.{IsSound};
ghost use Rattle.world_doc_terms.specs.Start.{start_of};
ghost use Rattle.lam_main_replay.specs.Answer.{OthersKept};
ghost use Rattle.lam_main_replay.specs.Reading.{WithFile, program_limit};
ghost use Rattle.lam_main_replay.specs.Replays.{ByWorld};
ghost use Rattle.lam_machine_runs.specs.Stops.{stopped_at};
ghost use Rattle.lam_main_replay.specs.Books.{WhereReady, WithRun};
ghost use Rattle.lam_main_replay.specs.Saves.{IsOfEnd, SavesRun, Saves};
ghost use Rattle.lam_main_replay.specs.Halts.{Reports};
ghost use Rattle.lam_main_replay.specs.Asked.{files_of};
ghost use Rattle.turn_book.specs.Limits.{most_turns};

use crate::output::written;
use crate::run_end::end_of_turns;
use guarded_code::Verified;
use lam_io::Shelf;
use lam_machine_world::{World, let_go_world};
use lam_main_replay::{
    Halt, Report, RunFiles, WORLD_LIMIT, read_code, read_file, read_turns, start_in,
};
use std::alloc::Global;

/// The document of the next run's world is written to a file, and how many items it has is reported: of the files and
/// directories at the end of the run of a program, from the world of a document, in the order of a book.
///
/// # Errors
///
/// A refusal, in the order of reading: of the program, of the document, of the book, of the first of its turns whose thread
/// is not ready, and then of what cannot be saved; then no file changed. `NoMemory`: then a file has changed only where the
/// shelf refused the write for want of memory, and it is that of the next world, which may hold anything. `ShelfFailed` only
/// where the shelf counted a fault: then that file may hold anything.
pub fn next<H: Shelf>(
    alloc: Global,
    shelf: &mut H,
    program: String,
    files: RunFiles,
    next_world: String,
) -> Result<Report, Halt>
    ensures gives { IsTrue (H.tells shelf.old) → Reports result (WithFile (H.files shelf.old (string_bytes program)) (string_bytes program) program_limit (Saves (H.files shelf.old) (files_of files) (string_bytes next_world))) (H.files shelf.old) (H.files shelf.new) }
    ensures kept { IsTrue (H.tells shelf.old) → OthersKept (Some (string_bytes next_world)) (H.files shelf.old) (H.files shelf.new) }
    ensures spared { IsTrue (H.tells shelf.old) → IfErr result (λ halt. halt ≡ Halt.NoMemory → ¬ Rose (H.refusals shelf.old) (H.refusals shelf.new) → AllStay (H.files shelf.old) (H.files shelf.new)) }
    ensures failed { IfErr result (λ halt. halt ≡ Halt.ShelfFailed → Rose (H.faults shelf.old) (H.faults shelf.new)) }
{
    match read_code(alloc, shelf, program) {
        Ok(code) => next_code(alloc, shelf, code, files, next_world),
        Err(halt) => Err(halt),
    }
}

/// The same of a code: the document of the start is read next.
fn next_code<H: Shelf>(
    alloc: Global,
    shelf: &mut H,
    code: Verified,
    files: RunFiles,
    next_world: String,
) -> Result<Report, Halt>
    requires { IsCode code }
    ensures gives { IsTrue (H.tells shelf.old) → Reports result (SavesRun (H.files shelf.old) (files_of files) (string_bytes next_world) code) (H.files shelf.old) (H.files shelf.new) }
    ensures kept { IsTrue (H.tells shelf.old) → OthersKept (Some (string_bytes next_world)) (H.files shelf.old) (H.files shelf.new) }
    ensures spared { IsTrue (H.tells shelf.old) → IfErr result (λ halt. halt ≡ Halt.NoMemory → ¬ Rose (H.refusals shelf.old) (H.refusals shelf.new) → AllStay (H.files shelf.old) (H.files shelf.new)) }
    ensures failed { IfErr result (λ halt. halt ≡ Halt.ShelfFailed → Rose (H.faults shelf.old) (H.faults shelf.new)) }
{
    let RunFiles { world, book } = files;
    match read_file(alloc, shelf, world, WORLD_LIMIT) {
        Ok(old) => next_world_of(alloc, shelf, code, old.as_slice(), book, next_world),
        Err(halt) => Err(halt),
    }
}

/// The same of a code and of the bytes of a document.
fn next_world_of<H: Shelf>(
    alloc: Global,
    shelf: &mut H,
    code: Verified,
    old: &[u8],
    book: String,
    next_world: String,
) -> Result<Report, Halt>
    requires { IsCode code }
    ensures gives { IsTrue (H.tells shelf.old) → Reports result (ByWorld (λ start. WithRun (H.files shelf.old) (string_bytes book) code start (IsOfEnd (string_bytes next_world) code old.now start)) (start_of old.now code)) (H.files shelf.old) (H.files shelf.new) }
    ensures kept { IsTrue (H.tells shelf.old) → OthersKept (Some (string_bytes next_world)) (H.files shelf.old) (H.files shelf.new) }
    ensures spared { IsTrue (H.tells shelf.old) → IfErr result (λ halt. halt ≡ Halt.NoMemory → ¬ Rose (H.refusals shelf.old) (H.refusals shelf.new) → AllStay (H.files shelf.old) (H.files shelf.new)) }
    ensures failed { IfErr result (λ halt. halt ≡ Halt.ShelfFailed → Rose (H.faults shelf.old) (H.faults shelf.new)) }
{
    match start_in(alloc, &code, old) {
        Ok(start) => next_from(alloc, shelf, code, start, old, book, next_world),
        Err(halt) => Err(halt),
    }
}

/// The same of a code and of a start, which a document describes: the book is read next.
fn next_from<H: Shelf>(
    alloc: Global,
    shelf: &mut H,
    code: Verified,
    start: World,
    old: &[u8],
    book: String,
    next_world: String,
) -> Result<Report, Halt>
    requires sound { IsSound code start }
    requires document { start_of old.now code ≡ Ok start }
    ensures gives { IsTrue (H.tells shelf.old) → Reports result (WithRun (H.files shelf.old) (string_bytes book) code start (IsOfEnd (string_bytes next_world) code old.now start)) (H.files shelf.old) (H.files shelf.new) }
    ensures kept { IsTrue (H.tells shelf.old) → OthersKept (Some (string_bytes next_world)) (H.files shelf.old) (H.files shelf.new) }
    ensures spared { IsTrue (H.tells shelf.old) → IfErr result (λ halt. halt ≡ Halt.NoMemory → ¬ Rose (H.refusals shelf.old) (H.refusals shelf.new) → AllStay (H.files shelf.old) (H.files shelf.new)) }
    ensures failed { IfErr result (λ halt. halt ≡ Halt.ShelfFailed → Rose (H.faults shelf.old) (H.faults shelf.new)) }
{
    match read_turns(alloc, shelf, book) {
        Ok(turns) => next_turns(alloc, shelf, code, start, turns.as_slice(), old, next_world),
        Err(halt) => {
            let_go_world(start);
            Err(halt)
        }
    }
}

/// The same of the turns of a start.
fn next_turns<H: Shelf>(
    alloc: Global,
    shelf: &mut H,
    code: Verified,
    start: World,
    turns: &[u32],
    old: &[u8],
    next_world: String,
) -> Result<Report, Halt>
    requires sound { IsSound code start }
    requires document { start_of old.now code ≡ Ok start }
    requires few { length turns.now ≤ most_turns }
    ensures gives { IsTrue (H.tells shelf.old) → Reports result (WhereReady (IsOfEnd (string_bytes next_world) code old.now start turns.now) (stopped_at code turns.now start)) (H.files shelf.old) (H.files shelf.new) }
    ensures kept { IsTrue (H.tells shelf.old) → OthersKept (Some (string_bytes next_world)) (H.files shelf.old) (H.files shelf.new) }
    ensures spared { IsTrue (H.tells shelf.old) → IfErr result (λ halt. halt ≡ Halt.NoMemory → ¬ Rose (H.refusals shelf.old) (H.refusals shelf.new) → AllStay (H.files shelf.old) (H.files shelf.new)) }
    ensures failed { IfErr result (λ halt. halt ≡ Halt.ShelfFailed → Rose (H.faults shelf.old) (H.faults shelf.new)) }
{
    match end_of_turns(alloc, code, start, turns, old) {
        Ok(ending) => written(shelf, next_world, ending),
        Err(halt) => Err(halt),
    }
}
