//! The commands `run` and `make`, which run worker threads and write the run's book.
//!
//! [`run`] reads the program, the document of the world and the observer's label, in this order and by the calls of
//! `lam_main_replay`. [`make`] makes a program and a document of a number (`lam_make`). Threads
//! take the turns (`thread_host`), and nothing says in advance which thread takes which turn. So what is printed is
//! what the written book shows: `replay` and `audit` of the same program, document and book show the same run again.
//! The book is written last, and nothing is written where there is a refusal.
//!
//! Public promises rest on [`run`] and [`make`] (clauses `gives`, `kept`, `spared`, `failed`): what is printed is what
//! the written book shows, and no other file changes. Nothing here is a matter of speed: `thread_host` does the work.
#![tactic(auto)]

mod made_runs;
mod output;
mod parts;
mod texts;

ghost use Rattle.std.specs.Prelude.{◌≡◌, ◌<◌, ◌≤◌, Some, IsTrue, IfErr, string_bytes};
ghost use Rattle.lam_io.specs.Outside.{Rose, AllStay};
ghost use Rattle.lam_bytecode.specs.Codes.{IsCode};
ghost use Rattle.guarded_code_runs.specs.Worlds.{IsSound};
ghost use Rattle.lam_main_replay.specs.Answer.{OthersKept};
ghost use Rattle.lam_main_replay.specs.Reading.{WithFile, program_limit};
ghost use Rattle.lam_main_replay.specs.Threads.{TakesTurns, StartsThreads, RunsThreads};
ghost use Rattle.lam_main_replay.specs.Halts.{Reports};
ghost use Rattle.lam_main_replay.specs.Asked.{reader_of};
ghost use Rattle.lam_main_threads.specs.Asked.{files_of};
ghost use Rattle.turn_book.specs.Limits.{most_turns, most_workers};

pub use crate::made_runs::make;
use crate::output::written;
use crate::texts::shown;
use guarded_code::Verified;
use lam_io::{Gate, Shelf};
use lam_main_replay::{Halt, Report, read_code, read_start};
pub use lam_main_replay::{Reader, RunFiles, replay};
use std::alloc::Global;
use std::sync::Wait;
use std::thread::Threads;
use thread_host::World;

/// The files of a run whose turns threads take, but for its program.
#[derive(Drop)]
pub struct ThreadFiles {
    /// The document of the world that it starts from.
    pub world: String,
    /// The book, which is written.
    pub book_out: String,
}

/// How many workers take turns, and how many turns at most.
#[derive(Clone, Copy)]
pub struct Bounds {
    /// The threads that take turns.
    pub workers: u64,
    /// The most turns.
    pub turns: u64,
}

/// What a reader is shown of a run of a program, from the world of a document, whose turns threads take, and how it ended.
/// The book of the run is written to a file.
///
/// # Errors
///
/// A refusal, in the order of reading: of the program, of the document, and of the observer's label where it names an
/// unknown tag; then no file changed. `NoMemory`: then a file has changed only where the shelf refused the write of the
/// book for want of memory, and it is that of the book, which may hold anything. `ShelfFailed` only where the shelf counted
/// a fault: then the book's file may hold anything.
pub fn run<R: Threads + Wait + Sync, H: Shelf, G: Gate + Sync>(
    rt: &R,
    alloc: Global,
    shelf: &mut H,
    program: String,
    files: ThreadFiles,
    reader: &Reader,
    bounds: Bounds,
    gate: &G,
) -> Result<Report, Halt>
    requires workers { (0 < bounds.workers) × (bounds.workers ≤ most_workers) }
    requires turns { (0 < bounds.turns) × (bounds.turns ≤ most_turns) }
    ensures gives { IsTrue (H.tells shelf.old) → Reports result (WithFile (H.files shelf.old (string_bytes program)) (string_bytes program) program_limit (RunsThreads (H.files shelf.old) (files_of files) bounds.turns (reader_of reader.now))) (H.files shelf.old) (H.files shelf.new) }
    ensures kept { IsTrue (H.tells shelf.old) → OthersKept (Some (string_bytes files.book_out)) (H.files shelf.old) (H.files shelf.new) }
    ensures spared { IsTrue (H.tells shelf.old) → IfErr result (λ halt. halt ≡ Halt.NoMemory → ¬ Rose (H.refusals shelf.old) (H.refusals shelf.new) → AllStay (H.files shelf.old) (H.files shelf.new)) }
    ensures failed { IfErr result (λ halt. halt ≡ Halt.ShelfFailed → Rose (H.faults shelf.old) (H.faults shelf.new)) }
{
    match read_code(alloc, shelf, program) {
        Ok(code) => run_code(rt, alloc, shelf, code, files, reader, bounds, gate),
        Err(halt) => Err(halt),
    }
}

/// What a reader is shown of a run of a code.
fn run_code<R: Threads + Wait + Sync, H: Shelf, G: Gate + Sync>(
    rt: &R,
    alloc: Global,
    shelf: &mut H,
    code: Verified,
    files: ThreadFiles,
    reader: &Reader,
    bounds: Bounds,
    gate: &G,
) -> Result<Report, Halt>
    requires code { IsCode code }
    requires workers { (0 < bounds.workers) × (bounds.workers ≤ most_workers) }
    requires turns { (0 < bounds.turns) × (bounds.turns ≤ most_turns) }
    ensures gives { IsTrue (H.tells shelf.old) → Reports result (StartsThreads (H.files shelf.old) (files_of files) bounds.turns (reader_of reader.now) code) (H.files shelf.old) (H.files shelf.new) }
    ensures kept { IsTrue (H.tells shelf.old) → OthersKept (Some (string_bytes files.book_out)) (H.files shelf.old) (H.files shelf.new) }
    ensures spared { IsTrue (H.tells shelf.old) → IfErr result (λ halt. halt ≡ Halt.NoMemory → ¬ Rose (H.refusals shelf.old) (H.refusals shelf.new) → AllStay (H.files shelf.old) (H.files shelf.new)) }
    ensures failed { IfErr result (λ halt. halt ≡ Halt.ShelfFailed → Rose (H.faults shelf.old) (H.faults shelf.new)) }
{
    match read_start(alloc, shelf, &code, files.world) {
        Ok(start) => run_from(
            rt,
            alloc,
            shelf,
            code,
            start,
            files.book_out,
            reader,
            bounds,
            gate,
        ),
        Err(halt) => Err(halt),
    }
}

/// What a reader is shown of a run of a code from a world.
fn run_from<R: Threads + Wait + Sync, H: Shelf, G: Gate + Sync>(
    rt: &R,
    alloc: Global,
    shelf: &mut H,
    code: Verified,
    start: World,
    book_out: String,
    reader: &Reader,
    bounds: Bounds,
    gate: &G,
) -> Result<Report, Halt>
    requires sound { IsSound code start }
    requires workers { (0 < bounds.workers) × (bounds.workers ≤ most_workers) }
    requires turns { (0 < bounds.turns) × (bounds.turns ≤ most_turns) }
    ensures gives { IsTrue (H.tells shelf.old) → Reports result (TakesTurns (string_bytes book_out) bounds.turns (reader_of reader.now) code start) (H.files shelf.old) (H.files shelf.new) }
    ensures kept { IsTrue (H.tells shelf.old) → OthersKept (Some (string_bytes book_out)) (H.files shelf.old) (H.files shelf.new) }
    ensures spared { IsTrue (H.tells shelf.old) → IfErr result (λ halt. halt ≡ Halt.NoMemory → ¬ Rose (H.refusals shelf.old) (H.refusals shelf.new) → AllStay (H.files shelf.old) (H.files shelf.new)) }
    ensures failed { IfErr result (λ halt. halt ≡ Halt.ShelfFailed → Rose (H.faults shelf.old) (H.faults shelf.new)) }
{
    match shown(rt, alloc, code, start, reader, bounds, gate) {
        Ok(taken) => written(shelf, book_out, taken),
        Err(halt) => Err(halt),
    }
}
