//! The commands of `lam_closed`: `run`, which takes a closed run to its end, and `check`, which tests a book.
//!
//! Both read the files that the words name by the calls of `lam_main_replay`, one after another, and the first refusal
//! ends the call. [`run`] reads the program, the document of the world, the observer's label, and the base, by the tags of
//! that world. The turns are those of the closed schedule (`closed_run`), so nothing is left to threads. What is shown is
//! kept while the turns are taken, and the book is written last: nothing is written where there is a refusal. [`check`]
//! reads the program, the document, the base and the book, and says where its turns depart from the schedule. What a call
//! answers is what the plan of these files says (`lam_closed_plan`).
//!
//! A public promise rests on [`run`] (clauses `gives`, `kept`, `spared` and `failed`) and on [`check`] (`gives`, `stay` and
//! `failed`): what they answer is planned, and no file changes but the book of [`run`]. Free to change for speed: when the
//! code and the world are let go. The turns themselves are taken by `closed_run`.
#![tactic(auto)]

mod book_check;
mod departures;
mod output;
mod texts;

ghost use Rattle.std.specs.Prelude.{◌≡◌, ◌<◌, ◌≤◌, Some, IsTrue, IfErr, string_bytes};
ghost use Rattle.lam_io.specs.Outside.{Rose, AllStay};
ghost use Rattle.lam_bytecode.specs.Codes.{IsCode};
ghost use Rattle.guarded_code_runs.specs.Worlds.{IsSound};
ghost use Rattle.closed_terms.specs.Ends.{most_turns};
ghost use Rattle.lam_main_replay.specs.Answer.{OthersKept};
ghost use Rattle.lam_main_replay.specs.Reading.{WithFile, program_limit};
ghost use Rattle.lam_closed_plan.specs.Closes.{ClosesFrom, ClosesCode, Closes};
ghost use Rattle.lam_closed_rooms.specs.Asked.{files_of, asked_of};
ghost use Rattle.lam_closed_rooms.specs.Reports.{Reports};

pub use crate::book_check::check;
use crate::output::written;
use crate::texts::shown;
pub use closed_run::End;
use closed_run::World;
use guarded_code::Verified;
use lam_io::Shelf;
pub use lam_main_replay::{Halt, Reader, RunFiles};
use lam_main_replay::{read_code, read_start};
use std::alloc::Global;

/// The files of a closed run, but for its program.
#[derive(Drop)]
pub struct ClosedFiles {
    /// The document of the world that it starts from.
    pub world: String,
    /// The book, which is written.
    pub book_out: String,
}

/// What is asked of a closed run, but for its files.
#[derive(Drop)]
pub struct Asked {
    /// Who reads of it.
    pub reader: Reader,
    /// The text of the base label.
    pub base: String,
    /// How many open turns it may have.
    pub turns: u64,
}

/// What is printed of a closed run, and how it ended.
#[derive(Drop)]
pub struct Report {
    /// How the run ended.
    pub end: End,
    /// What is printed.
    pub text: String,
}

/// What a reader is shown of the closed run of a program, from the world of a document, and how it ended. Its book is
/// written to a file.
///
/// # Errors
///
/// A refusal, in the order of reading: of the program, of the document, of the observer's label and of the base, where
/// they name an unknown tag; then no file changed. `NoMemory`: then a file has changed only where the shelf refused the
/// write of the book for want of memory, and it is that of the book, which may hold anything. `ShelfFailed` only where the
/// shelf counted a fault: then the book's file may hold anything.
pub fn run<H: Shelf>(
    alloc: Global,
    shelf: &mut H,
    program: String,
    files: ClosedFiles,
    asked: &Asked,
) -> Result<Report, Halt>
    requires turns { (0 < asked.now.turns) × (asked.now.turns ≤ most_turns) }
    ensures gives { IsTrue (H.tells shelf.old) → Reports result (λ e. WithFile (H.files shelf.old (string_bytes program)) (string_bytes program) program_limit (Closes (H.files shelf.old) (files_of files) (asked_of asked.now) e)) (H.files shelf.old) (H.files shelf.new) }
    ensures kept { IsTrue (H.tells shelf.old) → OthersKept (Some (string_bytes files.book_out)) (H.files shelf.old) (H.files shelf.new) }
    ensures spared { IsTrue (H.tells shelf.old) → IfErr result (λ halt. halt ≡ Halt.NoMemory → ¬ Rose (H.refusals shelf.old) (H.refusals shelf.new) → AllStay (H.files shelf.old) (H.files shelf.new)) }
    ensures failed { IfErr result (λ halt. halt ≡ Halt.ShelfFailed → Rose (H.faults shelf.old) (H.faults shelf.new)) }
{
    match read_code(alloc, shelf, program) {
        Ok(code) => run_code(alloc, shelf, code, files, asked),
        Err(halt) => Err(halt),
    }
}

/// What a reader is shown of the closed run of a code: the document of its start is read next.
fn run_code<H: Shelf>(
    alloc: Global,
    shelf: &mut H,
    code: Verified,
    files: ClosedFiles,
    asked: &Asked,
) -> Result<Report, Halt>
    requires code { IsCode code }
    requires turns { (0 < asked.now.turns) × (asked.now.turns ≤ most_turns) }
    ensures gives { IsTrue (H.tells shelf.old) → Reports result (λ e. ClosesCode (H.files shelf.old) (files_of files) (asked_of asked.now) e code) (H.files shelf.old) (H.files shelf.new) }
    ensures kept { IsTrue (H.tells shelf.old) → OthersKept (Some (string_bytes files.book_out)) (H.files shelf.old) (H.files shelf.new) }
    ensures spared { IsTrue (H.tells shelf.old) → IfErr result (λ halt. halt ≡ Halt.NoMemory → ¬ Rose (H.refusals shelf.old) (H.refusals shelf.new) → AllStay (H.files shelf.old) (H.files shelf.new)) }
    ensures failed { IfErr result (λ halt. halt ≡ Halt.ShelfFailed → Rose (H.faults shelf.old) (H.faults shelf.new)) }
{
    match read_start(alloc, shelf, &code, files.world) {
        Ok(start) => run_from(alloc, shelf, code, start, files.book_out, asked),
        Err(halt) => Err(halt),
    }
}

/// What a reader is shown of the closed run of a code from a world.
fn run_from<H: Shelf>(
    alloc: Global,
    shelf: &mut H,
    code: Verified,
    start: World,
    book_out: String,
    asked: &Asked,
) -> Result<Report, Halt>
    requires sound { IsSound code start }
    requires turns { (0 < asked.now.turns) × (asked.now.turns ≤ most_turns) }
    ensures gives { IsTrue (H.tells shelf.old) → Reports result (λ e. ClosesFrom (string_bytes book_out) (asked_of asked.now) e code start) (H.files shelf.old) (H.files shelf.new) }
    ensures kept { IsTrue (H.tells shelf.old) → OthersKept (Some (string_bytes book_out)) (H.files shelf.old) (H.files shelf.new) }
    ensures spared { IsTrue (H.tells shelf.old) → IfErr result (λ halt. halt ≡ Halt.NoMemory → ¬ Rose (H.refusals shelf.old) (H.refusals shelf.new) → AllStay (H.files shelf.old) (H.files shelf.new)) }
    ensures failed { IfErr result (λ halt. halt ≡ Halt.ShelfFailed → Rose (H.faults shelf.old) (H.faults shelf.new)) }
{
    match shown(alloc, code, start, asked) {
        Ok(taken) => written(shelf, book_out, taken),
        Err(halt) => Err(halt),
    }
}
