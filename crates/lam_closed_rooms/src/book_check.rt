//! The command `check`: whether the run of a book is closed.

ghost use Rattle.std.specs.Prelude.{◌≡◌, IsTrue, IfErr, string_bytes};
ghost use Rattle.lam_io.specs.Outside.{Rose, AllStay};
ghost use Rattle.lam_bytecode.specs.Codes.{IsCode};
ghost use Rattle.guarded_code_runs.specs.Worlds.{IsSound};
ghost use Rattle.lam_main_replay.specs.Reading.{WithFile, program_limit};
ghost use Rattle.lam_main_replay.specs.Books.{WithRun};
ghost use Rattle.lam_main_replay.specs.Halts.{Says, Gives};
ghost use Rattle.lam_main_replay.specs.Asked.{files_of};
ghost use Rattle.lam_closed_plan.specs.Checks.{IsOfDeparture, ChecksFrom, ChecksCode, Checks};

use crate::departures::told;
use closed_run::World;
use flow_labels::Label;
use guarded_code::Verified;
use lam_io::Shelf;
use lam_main_replay::{
    Halt, RunFiles, let_go_world, read_code, read_label, read_start, read_turns,
};
use std::alloc::Global;
use thread_host_run::let_go_verified;

/// The index of the word that is the base.
const BASE_WORD: u64 = 5;

/// The line of whether the run of a program, from the world of a document and in the order of a book, is closed over a
/// base, and if not, of the turn and the thread at which it departs from the schedule.
///
/// # Errors
///
/// A refusal, in the order of reading: of the program, of the document, of the base where it names an unknown tag, of the
/// book, and of the first of its turns whose thread is not ready. `NoMemory`; `ShelfFailed` only where the shelf counted a
/// fault.
pub fn check<H: Shelf>(
    alloc: Global,
    shelf: &mut H,
    program: String,
    files: RunFiles,
    base: String,
) -> Result<String, Halt>
    ensures gives { IsTrue (H.tells shelf.old) → Gives result (WithFile (H.files shelf.old (string_bytes program)) (string_bytes program) program_limit (Checks (H.files shelf.old) (files_of files) (string_bytes base))) (H.files shelf.old) (H.files shelf.new) }
    ensures stay { IsTrue (H.tells shelf.old) → AllStay (H.files shelf.old) (H.files shelf.new) }
    ensures failed { IfErr result (λ halt. halt ≡ Halt.ShelfFailed → Rose (H.faults shelf.old) (H.faults shelf.new)) }
{
    match read_code(alloc, shelf, program) {
        Ok(code) => {
            let answer = check_code(alloc, shelf, &code, files, base);
            let_go_verified(code);
            answer
        }
        Err(halt) => Err(halt),
    }
}

/// The same of a code: the document of the start is read next.
fn check_code<H: Shelf>(
    alloc: Global,
    shelf: &mut H,
    code: &Verified,
    files: RunFiles,
    base: String,
) -> Result<String, Halt>
    requires { IsCode code.now }
    ensures says { IsTrue (H.tells shelf.old) → Says result (ChecksCode (H.files shelf.old) (files_of files) (string_bytes base) code.now) }
    ensures stay { IsTrue (H.tells shelf.old) → AllStay (H.files shelf.old) (H.files shelf.new) }
    ensures failed { IfErr result (λ halt. halt ≡ Halt.ShelfFailed → Rose (H.faults shelf.old) (H.faults shelf.new)) }
{
    let RunFiles { world, book } = files;
    match read_start(alloc, shelf, code, world) {
        Ok(start) => check_from(alloc, shelf, code, start, book, base),
        Err(halt) => Err(halt),
    }
}

/// The same of a start: the base is read next.
fn check_from<H: Shelf>(
    alloc: Global,
    shelf: &mut H,
    code: &Verified,
    start: World,
    book: String,
    base: String,
) -> Result<String, Halt>
    requires sound { IsSound code.now start }
    ensures says { IsTrue (H.tells shelf.old) → Says result (ChecksFrom (H.files shelf.old) (string_bytes book) (string_bytes base) code.now start) }
    ensures stay { IsTrue (H.tells shelf.old) → AllStay (H.files shelf.old) (H.files shelf.new) }
    ensures failed { IfErr result (λ halt. halt ≡ Halt.ShelfFailed → Rose (H.faults shelf.old) (H.faults shelf.new)) }
{
    match read_label(BASE_WORD, base.as_str(), &start.stores().names) {
        Ok(label) => check_book(alloc, shelf, code, start, book, &label),
        Err(halt) => {
            let_go_world(start);
            Err(halt)
        }
    }
}

/// The same over a base: the book is read next.
fn check_book<H: Shelf>(
    alloc: Global,
    shelf: &mut H,
    code: &Verified,
    start: World,
    book: String,
    base: &Label,
) -> Result<String, Halt>
    requires sound { IsSound code.now start }
    ensures says { IsTrue (H.tells shelf.old) → Says result (WithRun (H.files shelf.old) (string_bytes book) code.now start (IsOfDeparture code.now start base.now)) }
    ensures stay { IsTrue (H.tells shelf.old) → AllStay (H.files shelf.old) (H.files shelf.new) }
    ensures failed { IfErr result (λ halt. halt ≡ Halt.ShelfFailed → Rose (H.faults shelf.old) (H.faults shelf.new)) }
{
    match read_turns(alloc, shelf, book) {
        Ok(turns) => told(alloc, code, start, turns.as_slice(), base),
        Err(halt) => {
            let_go_world(start);
            Err(halt)
        }
    }
}
