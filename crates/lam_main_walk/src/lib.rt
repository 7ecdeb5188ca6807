//! The command `walk`, which checks a run's asks against the program's source.
//!
//! The program is read once, and is both compiled and taken with its names resolved. The code is run by the book, to
//! know what was asked and answered, and is then not looked at again. A walk over the source, with the answers, meets
//! the asks again (`source_walk`). A run of a program's own code keeps to its source (`lam_main_laws`), so there is one
//! answer, how many asks there were. What a call answers is what the plan of these files says (`lam_main_plan`).
//!
//! - `entries`: the law that a start's threads stand where a walk requires it.
//! - `answer_line`: the line of the answer.
//!
//! Public promises rest on [`walk`] (clauses `gives`, `stay` and `failed`) and on the law [`starts_stand_at_entries`].
//! The line has the number of all asks of the run, and refusals come in the order of reading. Free to change for speed:
//! when the source is let go of.
#![tactic(auto)]

mod answer_line;
mod entries;
mod source;

ghost use Rattle.std.specs.Prelude.{◌≡◌, ℕ, List, IsTrue, IfErr, string_bytes};
ghost use Rattle.lam_io.specs.Outside.{Rose, AllStay};
ghost use Rattle.guarded_code_runs.specs.Worlds.{IsSound};
ghost use Rattle.lam_main_replay.specs.Reading.{WithFile, program_limit};
ghost use Rattle.lam_main_replay.specs.Books.{WithRun};
ghost use Rattle.lam_resolve_tree.specs.Tree.{resolved_tree};
ghost use Rattle.lam_main_laws.specs.Documents.{RunMeans};
ghost use Rattle.lam_main_replay.specs.Walks.{TellsSame, Walks};
ghost use Rattle.lam_main_replay.specs.Halts.{Says, Gives};
ghost use Rattle.lam_main_replay.specs.Asked.{files_of};
ghost use Rattle.lam_main_laws.specs.Meant.{MeansEverywhere};
ghost use Rattle.lam_main_walk.specs.Sources.{IsSoundSource, Tells};

use crate::answer_line::told;
use crate::source::{Source, let_go_source, read_source};
pub use entries::starts_stand_at_entries;
use lam_io::Shelf;
use lam_machine_world::{World, let_go_world};
use lam_main_laws::sources_run_as_meant;
use lam_main_replay::{Halt, RunFiles, read_start, read_turns};
use std::alloc::Global;

/// The line of how many asks stand in the run of a program, from the world of a document and in the order of a book: its
/// source makes each of them.
///
/// # Errors
///
/// A refusal, in the order of reading: of the program, of the document, of the book, and of the first of its turns whose
/// thread is not ready. `NoMemory`; `ShelfFailed` only where the shelf counted a fault.
pub fn walk<H: Shelf>(
    alloc: Global,
    shelf: &mut H,
    program: String,
    files: RunFiles,
) -> Result<String, Halt>
    ensures gives { IsTrue (H.tells shelf.old) → Gives result (WithFile (H.files shelf.old (string_bytes program)) (string_bytes program) program_limit (Walks (H.files shelf.old) (files_of files))) (H.files shelf.old) (H.files shelf.new) }
    ensures stay { IsTrue (H.tells shelf.old) → AllStay (H.files shelf.old) (H.files shelf.new) }
    ensures failed { IfErr result (λ halt. halt ≡ Halt.ShelfFailed → Rose (H.faults shelf.old) (H.faults shelf.new)) }
{
    sources_run_as_meant();
    match read_source(alloc, shelf, program) {
        Ok(source) => {
            let answer = walk_source(alloc, shelf, &source, files);
            let_go_source(source);
            answer
        }
        Err(halt) => Err(halt),
    }
}

/// The line of how many asks stand in the run of a source: the document is read next.
fn walk_source<H: Shelf>(
    alloc: Global,
    shelf: &mut H,
    source: &Source,
    files: RunFiles,
) -> Result<String, Halt>
    requires sound { IsSoundSource source.now }
    requires means { MeansEverywhere (resolved_tree source.now.program) source.now.code }
    ensures says { IsTrue (H.tells shelf.old) → Says result (Tells (H.files shelf.old) (files_of files) source.now) }
    ensures stay { IsTrue (H.tells shelf.old) → AllStay (H.files shelf.old) (H.files shelf.new) }
    ensures failed { IfErr result (λ halt. halt ≡ Halt.ShelfFailed → Rose (H.faults shelf.old) (H.faults shelf.new)) }
{
    let RunFiles { world, book } = files;
    match read_start(alloc, shelf, &source.code, world) {
        Ok(start) => walk_from(alloc, shelf, source, start, book),
        Err(halt) => Err(halt),
    }
}

/// The same of a start: the book is read next.
fn walk_from<H: Shelf>(
    alloc: Global,
    shelf: &mut H,
    source: &Source,
    start: World,
    book: String,
) -> Result<String, Halt>
    requires sound { IsSoundSource source.now }
    requires start { IsSound source.now.code start }
    requires means { (turns : List ℕ) → RunMeans (resolved_tree source.now.program) source.now.code start turns }
    ensures says { IsTrue (H.tells shelf.old) → Says result (WithRun (H.files shelf.old) (string_bytes book) source.now.code start (TellsSame (resolved_tree source.now.program) source.now.code start)) }
    ensures stay { IsTrue (H.tells shelf.old) → AllStay (H.files shelf.old) (H.files shelf.new) }
    ensures failed { IfErr result (λ halt. halt ≡ Halt.ShelfFailed → Rose (H.faults shelf.old) (H.faults shelf.new)) }
{
    match read_turns(alloc, shelf, book) {
        Ok(turns) => told(alloc, source, start, turns.as_slice()),
        Err(halt) => {
            let_go_world(start);
            Err(halt)
        }
    }
}
