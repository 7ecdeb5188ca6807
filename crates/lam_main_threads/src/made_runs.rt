//! The command `make`: a program and a world from a number, and their run's summary.

ghost use Rattle.std.specs.Prelude.{◌≡◌, ◌≢◌, ◌≤◌, Some, None, IsTrue, IfOk, IfErr, string_bytes};
ghost use Rattle.lam_io.specs.Outside.{Rose, AllStay};
ghost use Rattle.lam_bytecode.specs.Codes.{IsCode};
ghost use Rattle.guarded_code_runs.specs.Worlds.{IsSound};
ghost use Rattle.world_doc_terms.specs.Start.{start_of};
ghost use Rattle.lam_make.specs.Made.{program_text, world_text, most_made_threads};
ghost use Rattle.audit_log_notes.specs.Sums.{summary_of, summary_lines};
ghost use Rattle.lam_main_words.specs.Words.{Text};
ghost use Rattle.lam_main_replay.specs.Answer.{OthersKept};
ghost use Rattle.lam_main_replay.specs.Replays.{ByWorld};
ghost use Rattle.lam_main_replay.specs.Threads.{IsOfThreads, Makes, made_budget};
ghost use Rattle.lam_main_replay.specs.Halts.{Reports};
ghost use Rattle.lam_main_threads.specs.Taken.{HasBook, IsShown, planned, Offers};

use crate::Bounds;
use crate::output::written;
use crate::parts::{Ended, EndedKept, taken_turns};
use crate::texts::{Taken, with_book};
use audit_log_notes::{Sums, summary_text};
use guarded_code::Verified;
use lam_io::{Gate, Shelf};
use lam_main_replay::{Halt, Report, run_code_of, start_in};
use std::alloc::Global;
use std::sync::Wait;
use std::thread::Threads;
use thread_host::{Counter, World};
use turn_book::TURN_LIMIT;
use want_of_memory::NoMemory;

/// How many workers take the turns of a made run.
const MADE_WORKERS: u64 = 4;

/// What is counted in no turns.
const NO_SUMS: Sums = Sums {
    said: 0,
    releases: 0,
    refused: 0,
};

/// The summary of a run of the program and the world that a number makes for so many threads, and how it ended. The book
/// of the run is written to a file.
///
/// # Errors
///
/// A refusal where what is made does not compile or is no world; then no file changed. `NoMemory` and `ShelfFailed` as of
/// [`run`](crate::run).
pub fn make<R: Threads + Wait + Sync, H: Shelf, G: Gate + Sync>(
    rt: &R,
    alloc: Global,
    shelf: &mut H,
    seed: u64,
    threads: u64,
    book_out: String,
    gate: &G,
) -> Result<Report, Halt>
    requires { (1 ≤ threads) × (threads ≤ most_made_threads) }
    ensures gives { IsTrue (H.tells shelf.old) → Reports result (Makes seed threads (string_bytes book_out)) (H.files shelf.old) (H.files shelf.new) }
    ensures kept { IsTrue (H.tells shelf.old) → OthersKept (Some (string_bytes book_out)) (H.files shelf.old) (H.files shelf.new) }
    ensures spared { IsTrue (H.tells shelf.old) → IfErr result (λ halt. halt ≡ Halt.NoMemory → ¬ Rose (H.refusals shelf.old) (H.refusals shelf.new) → AllStay (H.files shelf.old) (H.files shelf.new)) }
    ensures failed { IfErr result (λ halt. halt ≡ Halt.ShelfFailed → Rose (H.faults shelf.old) (H.faults shelf.new)) }
{
    match made(rt, alloc, seed, threads, gate) {
        Ok(taken) => written(shelf, book_out, taken),
        Err(halt) => Err(halt),
    }
}

/// The summary of a run of what is made.
fn made<R: Threads + Wait + Sync, G: Gate + Sync>(
    rt: &R,
    alloc: Global,
    seed: u64,
    threads: u64,
    gate: &G,
) -> Result<Taken, Halt>
    requires { (1 ≤ threads) × (threads ≤ most_made_threads) }
    ensures offers { Offers result (Makes seed threads) }
    ensures no_fault { IfErr result (λ halt. halt ≢ Halt.ShelfFailed) }
{
    match lam_make::make(alloc, seed, threads) {
        Ok((program, world)) => made_texts(
            rt,
            alloc,
            program.as_str(),
            world.as_str(),
            seed,
            threads,
            gate,
        ),
        Err(NoMemory) => Err(Halt::NoMemory),
    }
}

/// The summary of a run of the program and the world that are made.
fn made_texts<R: Threads + Wait + Sync, G: Gate + Sync>(
    rt: &R,
    alloc: Global,
    program: &str,
    world: &str,
    seed: u64,
    threads: u64,
    gate: &G,
) -> Result<Taken, Halt>
    requires program { program.now ≡ program_text }
    requires world { world.now ≡ world_text seed threads }
    ensures offers { Offers result (Makes seed threads) }
    ensures no_fault { IfErr result (λ halt. halt ≢ Halt.ShelfFailed) }
{
    match run_code_of(alloc, program.as_bytes()) {
        Ok(code) => made_code(rt, alloc, code, world, seed, threads, gate),
        Err(halt) => Err(halt),
    }
}

/// The summary of a run of a code from the world of a document.
fn made_code<R: Threads + Wait + Sync, G: Gate + Sync>(
    rt: &R,
    alloc: Global,
    code: Verified,
    world: &str,
    seed: u64,
    threads: u64,
    gate: &G,
) -> Result<Taken, Halt>
    requires { IsCode code }
    ensures offers { Offers result (λ out. ByWorld (λ start. IsOfThreads code start out made_budget (summary_lines seed threads)) (start_of world.now code)) }
    ensures no_fault { IfErr result (λ halt. halt ≢ Halt.ShelfFailed) }
{
    match start_in(alloc, &code, world.as_bytes()) {
        Ok(start) => Ok(made_run(rt, alloc, code, start, seed, threads, gate)?),
        Err(halt) => Err(halt),
    }
}

/// The summary of a run of a code from a world.
fn made_run<R: Threads + Wait + Sync, G: Gate + Sync>(
    rt: &R,
    alloc: Global,
    code: Verified,
    start: World,
    seed: u64,
    threads: u64,
    gate: &G,
) -> Result<Taken, NoMemory>
    requires sound { IsSound code start }
    ensures { IfOk result (λ taken. (out : Text) → IsOfThreads code start out made_budget (summary_lines seed threads) (planned out taken)) }
{
    let bounds = Bounds {
        workers: MADE_WORKERS,
        turns: TURN_LIMIT,
    };
    let counter = Counter;
    match taken_turns(rt, alloc, code, start, bounds, gate, &counter, NO_SUMS) {
        Ok(taken) => {
            let EndedKept { ended, kept } = taken;
            summed_run(alloc, ended, &kept, seed, threads)
        }
        Err(error) => Err(error),
    }
}

/// The summary of a run by what was counted in it, and its book.
fn summed_run(
    alloc: Global,
    ended: Ended,
    sums: &Sums,
    seed: u64,
    threads: u64,
) -> Result<Taken, NoMemory>
    requires { HasBook ended }
    ensures { IfOk result (IsShown (summary_of seed threads sums.now) ended) }
{
    match summary_text(alloc, seed, threads, sums) {
        Ok(text) => with_book(alloc, ended, text),
        Err(error) => {
            let_go_ended(ended);
            Err(error)
        }
    }
}

/// Lets the turns of a run go.
fn let_go_ended(ended: Ended) {
    drop(ended);
}
