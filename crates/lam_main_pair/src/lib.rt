//! The command `pair`, which compares two runs of a program below an observer's label.
//!
//! The files are read one after another, and the first refusal ends the call. First comes the program, which is
//! compiled. Then comes the first run: its world, the observer's label by the tags of that world, its book, and its
//! turns. The second run comes in the same way. What the observer notes of each run is kept while its turns are taken,
//! once (`pair_check_agenda`). Then the starts and the agendas are compared (`pair_check`). What a call answers is what
//! the plan of these files says (`lam_main_plan`).
//!
//! A public promise rests on [`pair`] (clauses `gives`, `stay` and `failed`): the line is that of the one answer to the
//! two runs, and refusals come in the order of reading. Free to change for speed: when starts and agendas are let go
//! of, and whether the turns are taken on a copy of the start.
#![tactic(auto)]

mod half;
mod text;

ghost use Rattle.std.specs.Prelude.{◌≡◌, IsTrue, IfErr, string_bytes};
ghost use Rattle.flow_labels.specs.LabelText.{label_of};
ghost use Rattle.lam_io.specs.Outside.{Rose, AllStay};
ghost use Rattle.lam_bytecode.specs.Codes.{IsCode};
ghost use Rattle.guarded_code_runs.specs.Worlds.{IsSound};
ghost use Rattle.lam_main_replay.specs.Reading.{WithFile, program_limit};
ghost use Rattle.lam_main_replay.specs.Books.{ByLabel, WithStart, WithRun};
ghost use Rattle.lam_main_replay.specs.Pairs.{PairsWith, PairsRuns, Pairs};
ghost use Rattle.lam_main_replay.specs.Halts.{Says, Gives};
ghost use Rattle.lam_main_replay.specs.Asked.{files_of};
ghost use Rattle.lam_main_pair.specs.Halves.{OfFirst, OfSecond, OfBoth};

use crate::half::{Half, half_of, let_go_half};
use crate::text::answered;
use flow_labels::Label;
use guarded_code::Verified;
use lam_io::Shelf;
use lam_machine_world::{World, let_go_world};
use lam_main_replay::{Halt, RunFiles, read_code, read_label, read_start};
use std::alloc::Global;

/// The line of the answer to two runs of a program, by the worlds that they start from and by their books, for the observer
/// of a label, whose text is the word of an index.
///
/// # Errors
///
/// A refusal, in the order of reading: of the program; of the first run's document, of the observer's label where it names an
/// unknown tag, of the book, and of the first of its turns whose thread is not ready; and then of the second run. `NoMemory`;
/// `ShelfFailed` only where the shelf counted a fault.
pub fn pair<H: Shelf>(
    alloc: Global,
    shelf: &mut H,
    program: String,
    first: RunFiles,
    second: RunFiles,
    index: u64,
    label: String,
) -> Result<String, Halt>
    ensures gives { IsTrue (H.tells shelf.old) → Gives result (WithFile (H.files shelf.old (string_bytes program)) (string_bytes program) program_limit (Pairs (H.files shelf.old) (files_of first) (files_of second) index (string_bytes label))) (H.files shelf.old) (H.files shelf.new) }
    ensures stay { IsTrue (H.tells shelf.old) → AllStay (H.files shelf.old) (H.files shelf.new) }
    ensures failed { IfErr result (λ halt. halt ≡ Halt.ShelfFailed → Rose (H.faults shelf.old) (H.faults shelf.new)) }
{
    match read_code(alloc, shelf, program) {
        Ok(code) => pair_code(alloc, shelf, &code, first, second, index, label),
        Err(halt) => Err(halt),
    }
}

/// The answer to two runs of a code.
fn pair_code<H: Shelf>(
    alloc: Global,
    shelf: &mut H,
    code: &Verified,
    first: RunFiles,
    second: RunFiles,
    index: u64,
    label: String,
) -> Result<String, Halt>
    requires { IsCode code.now }
    ensures says { IsTrue (H.tells shelf.old) → Says result (PairsRuns (H.files shelf.old) (files_of first) (files_of second) index (string_bytes label) code.now) }
    ensures stay { IsTrue (H.tells shelf.old) → AllStay (H.files shelf.old) (H.files shelf.new) }
    ensures failed { IfErr result (λ halt. halt ≡ Halt.ShelfFailed → Rose (H.faults shelf.old) (H.faults shelf.new)) }
{
    let RunFiles { world, book } = first;
    match read_start(alloc, shelf, code, world) {
        Ok(start) => pair_from(alloc, shelf, code, start, book, second, index, label),
        Err(halt) => Err(halt),
    }
}

/// The answer to a run from a world, and a second one.
fn pair_from<H: Shelf>(
    alloc: Global,
    shelf: &mut H,
    code: &Verified,
    start: World,
    book: String,
    second: RunFiles,
    index: u64,
    label: String,
) -> Result<String, Halt>
    requires sound { IsSound code.now start }
    ensures says { IsTrue (H.tells shelf.old) → Says result (OfFirst (H.files shelf.old) (string_bytes book) (files_of second) index (string_bytes label) code.now start) }
    ensures stay { IsTrue (H.tells shelf.old) → AllStay (H.files shelf.old) (H.files shelf.new) }
    ensures failed { IfErr result (λ halt. halt ≡ Halt.ShelfFailed → Rose (H.faults shelf.old) (H.faults shelf.new)) }
{
    match read_label(index, label.as_str(), &start.stores().names) {
        Ok(observer) => pair_first(alloc, shelf, code, start, book, second, &observer),
        Err(halt) => {
            let_go_world(start);
            Err(halt)
        }
    }
}

/// The answer to a run from a world, as an observer sees it, and a second one.
fn pair_first<H: Shelf>(
    alloc: Global,
    shelf: &mut H,
    code: &Verified,
    start: World,
    book: String,
    second: RunFiles,
    observer: &Label,
) -> Result<String, Halt>
    requires sound { IsSound code.now start }
    ensures says { IsTrue (H.tells shelf.old) → Says result (WithRun (H.files shelf.old) (string_bytes book) code.now start (PairsWith (H.files shelf.old) (files_of second) code.now observer.now start)) }
    ensures stay { IsTrue (H.tells shelf.old) → AllStay (H.files shelf.old) (H.files shelf.new) }
    ensures failed { IfErr result (λ halt. halt ≡ Halt.ShelfFailed → Rose (H.faults shelf.old) (H.faults shelf.new)) }
{
    match half_of(alloc, shelf, code, start, book, observer) {
        Ok(first) => pair_second(alloc, shelf, code, first, second, observer),
        Err(halt) => Err(halt),
    }
}

/// The answer to a run of which it is noted what the observer sees, and a second one.
fn pair_second<H: Shelf>(
    alloc: Global,
    shelf: &mut H,
    code: &Verified,
    first: Half,
    second: RunFiles,
    observer: &Label,
) -> Result<String, Halt>
    requires { IsCode code.now }
    ensures says { IsTrue (H.tells shelf.old) → OfSecond result (H.files shelf.old) (files_of second) code.now observer.now first }
    ensures stay { IsTrue (H.tells shelf.old) → AllStay (H.files shelf.old) (H.files shelf.new) }
    ensures failed { IfErr result (λ halt. halt ≡ Halt.ShelfFailed → Rose (H.faults shelf.old) (H.faults shelf.new)) }
{
    let RunFiles { world, book } = second;
    match read_start(alloc, shelf, code, world) {
        Ok(start) => pair_both(alloc, shelf, code, first, start, book, observer),
        Err(halt) => {
            let_go_half(first);
            Err(halt)
        }
    }
}

/// The answer to a run of which it is noted what the observer sees, and a second one, from a world and by a book.
fn pair_both<H: Shelf>(
    alloc: Global,
    shelf: &mut H,
    code: &Verified,
    first: Half,
    start: World,
    book: String,
    observer: &Label,
) -> Result<String, Halt>
    requires sound { IsSound code.now start }
    ensures says { IsTrue (H.tells shelf.old) → OfBoth result (H.files shelf.old) (string_bytes book) code.now observer.now first start }
    ensures stay { IsTrue (H.tells shelf.old) → AllStay (H.files shelf.old) (H.files shelf.new) }
    ensures failed { IfErr result (λ halt. halt ≡ Halt.ShelfFailed → Rose (H.faults shelf.old) (H.faults shelf.new)) }
{
    match half_of(alloc, shelf, code, start, book, observer) {
        Ok(second) => answered(alloc, first, second, observer),
        Err(halt) => {
            let_go_half(first);
            Err(halt)
        }
    }
}
