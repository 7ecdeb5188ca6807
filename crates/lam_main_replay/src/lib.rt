//! The commands that show files and runs, and the parts that all commands share.
//!
//! `play`, `format`, `check` and `code` read one file, and `replay` and `audit` show the run that three files describe.
//! A command reads the files that the words name and makes its text, or halts. It halts where what it reads is refused,
//! memory ran out, or the file store failed. A [`Refusal`] is known by the line that is printed for it.
//!
//! The files are read one after another, and the first refusal ends the call. Of a run, first comes the program, then
//! the document of the world that the run starts from. Then come the observer's label, whose tags that world names, and
//! the book, the schedule of turns. `run_inputs` reads each from its bytes. The machine takes the turns, and what is
//! seen of them, or noted (`lam_machine_replay`), is printed (`audit_log`). What a call answers is what the plan of
//! these files says (`lam_main_plan`), in one relation for all commands (`specs/Halts.antt`).
//!
//! Public promises rest on the commands (clauses `gives`, `stay` and `failed`), on the readers [`read_file`],
//! [`read_code`], [`read_start`] and [`read_turns`], and on [`shown_turns`] (clause `says`). What is printed is what is
//! planned, refusals come in the order of reading, and a fault is answered only where the shelf counted one. Free to
//! change for speed: when what was read is let go of.
#![tactic(auto)]

mod document;
mod files;
mod halt;
mod program;
mod report;
mod run_text;
mod script;
mod turns;
mod viewer;
mod viewer_text;

ghost use Rattle.std.specs.Prelude.{◌≡◌, IsTrue, IfErr, string_bytes};
ghost use Rattle.lam_io.specs.Outside.{Rose, AllStay};
ghost use Rattle.lam_bytecode.specs.Codes.{IsCode};
ghost use Rattle.guarded_code_runs.specs.Worlds.{IsSound};
ghost use Rattle.lam_main_plan.specs.Reading.{WithFile, program_limit, book_limit};
ghost use Rattle.lam_main_plan.specs.Replays.{IsOfBook, Replays, Starts, Runs};
ghost use Rattle.lam_main_replay.specs.Halts.{Says, Gives};
ghost use Rattle.lam_main_replay.specs.Asked.{files_of, reader_of, lines_for};

pub use crate::document::{WORLD_LIMIT, read_start, start_in};
pub use crate::files::read_file;
pub use crate::halt::{BookBreak, Halt, Refusal};
pub use crate::program::{PROGRAM_LIMIT, check, code, format, read_code, run_code_of};
pub use crate::report::{Report, done};
pub use crate::run_text::shown_turns;
pub use crate::script::play;
pub use crate::turns::{read_label, read_turns, run_halt};
pub use crate::viewer::{NamedViewer, Viewer, viewer_of};
use audit_log_lines::World;
use guarded_code::Verified;
use lam_io::Shelf;
pub use lam_main_plan::{InputFault, let_go_world, program_in, run_code};
use std::alloc::Global;

/// Who reads of a run.
#[derive(Drop)]
pub enum Reader {
    /// An observer at the label of a text, which is the word of this index.
    Observer { index: u64, label: String },
    /// An auditor.
    Auditor,
}

/// The files of a run, but for its program.
#[derive(Drop)]
pub struct RunFiles {
    /// The document of the world that it starts from.
    pub world: String,
    /// Its book.
    pub book: String,
}

/// What a reader is shown of the run of a program, from the world of a document, in the order of a book.
///
/// # Errors
///
/// A refusal, in the order of reading: of the program, of the document, of the observer's label where it names an unknown
/// tag, of the book, and of the first of its turns whose thread is not ready. `NoMemory`; `ShelfFailed` only where the
/// shelf counted a fault.
pub fn replay<H: Shelf>(
    alloc: Global,
    shelf: &mut H,
    program: String,
    files: RunFiles,
    reader: &Reader,
) -> Result<String, Halt>
    ensures gives { IsTrue (H.tells shelf.old) → Gives result (WithFile (H.files shelf.old (string_bytes program)) (string_bytes program) program_limit (Runs (H.files shelf.old) (files_of files) (reader_of reader.now))) (H.files shelf.old) (H.files shelf.new) }
    ensures stay { IsTrue (H.tells shelf.old) → AllStay (H.files shelf.old) (H.files shelf.new) }
    ensures failed { IfErr result (λ halt. halt ≡ Halt.ShelfFailed → Rose (H.faults shelf.old) (H.faults shelf.new)) }
{
    match read_code(alloc, shelf, program) {
        Ok(code) => replay_code(alloc, shelf, &code, files, reader),
        Err(halt) => Err(halt),
    }
}

/// What a reader is shown of the run of a code.
fn replay_code<H: Shelf>(
    alloc: Global,
    shelf: &mut H,
    code: &Verified,
    files: RunFiles,
    reader: &Reader,
) -> Result<String, Halt>
    requires { IsCode code.now }
    ensures says { IsTrue (H.tells shelf.old) → Says result (Starts (H.files shelf.old) (files_of files) (reader_of reader.now) code.now) }
    ensures stay { IsTrue (H.tells shelf.old) → AllStay (H.files shelf.old) (H.files shelf.new) }
    ensures failed { IfErr result (λ halt. halt ≡ Halt.ShelfFailed → Rose (H.faults shelf.old) (H.faults shelf.new)) }
{
    match read_start(alloc, shelf, code, files.world) {
        Ok(start) => replay_from(alloc, shelf, code, start, files.book, reader),
        Err(halt) => Err(halt),
    }
}

/// What a reader is shown of the run of a code from a world.
fn replay_from<H: Shelf>(
    alloc: Global,
    shelf: &mut H,
    code: &Verified,
    start: World,
    book: String,
    reader: &Reader,
) -> Result<String, Halt>
    requires sound { IsSound code.now start }
    ensures says { IsTrue (H.tells shelf.old) → Says result (Replays (H.files shelf.old) (string_bytes book) (reader_of reader.now) code.now start) }
    ensures stay { IsTrue (H.tells shelf.old) → AllStay (H.files shelf.old) (H.files shelf.new) }
    ensures failed { IfErr result (λ halt. halt ≡ Halt.ShelfFailed → Rose (H.faults shelf.old) (H.faults shelf.new)) }
{
    match viewer_of(reader, start.stores()) {
        Ok(viewer) => replay_book(alloc, shelf, code, start, book, &viewer),
        Err(halt) => {
            let_go_world(start);
            Err(halt)
        }
    }
}

/// What a reader is shown of the run of a code from a world, in the order of the book in a file.
fn replay_book<H: Shelf>(
    alloc: Global,
    shelf: &mut H,
    code: &Verified,
    start: World,
    book: String,
    viewer: &NamedViewer,
) -> Result<String, Halt>
    requires sound { IsSound code.now start }
    ensures says { IsTrue (H.tells shelf.old) → Says result (WithFile (H.files shelf.old (string_bytes book)) (string_bytes book) book_limit (IsOfBook code.now start (lines_for viewer.now.who viewer.now.names))) }
    ensures stay { IsTrue (H.tells shelf.old) → AllStay (H.files shelf.old) (H.files shelf.new) }
    ensures failed { IfErr result (λ halt. halt ≡ Halt.ShelfFailed → Rose (H.faults shelf.old) (H.faults shelf.new)) }
{
    match read_turns(alloc, shelf, book) {
        Ok(turns) => shown_turns(alloc, code, start, turns.as_slice(), viewer),
        Err(halt) => {
            let_go_world(start);
            Err(halt)
        }
    }
}
