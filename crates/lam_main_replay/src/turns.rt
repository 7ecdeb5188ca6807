//! The turns of a book, an observer's label, and the halts of their faults.

ghost use Rattle.std.specs.Prelude.{◌≡◌, ◌≢◌, ◌≤◌, Ok, length, IsTrue, IfOk, IfErr, string_bytes};
ghost use Rattle.flow_labels.specs.LabelText.{label_of};
ghost use Rattle.lam_io.specs.Outside.{Rose, AllStay};
ghost use Rattle.turn_book.specs.Reading.{turns_of};
ghost use Rattle.lam_main_plan.specs.Reading.{HasFile, WithFile, Never, book_limit};
ghost use Rattle.lam_main_plan.specs.Books.{NoTurns, ByLabel};
ghost use Rattle.lam_main_replay.specs.Halts.{Finds};
ghost use Rattle.lam_main_replay.specs.Asked.{halt_of_book, halt_of_run};
ghost use Rattle.turn_book.specs.Limits.{most_turns};

use crate::files::read_file;
use crate::halt::{BookBreak, Halt, Refusal};
use audit_log_lines::RunFault;
use flow_labels::{Label, LabelFault, TagNames, parse_label};
use lam_io::Shelf;
use std::alloc::Global;
use turn_book::{BookFault, Turns, read_book};

/// The most bytes of a book.
const BOOK_LIMIT: u64 = 16_777_216;

/// The turns of the book in a file, of which there are at most 1,000,000.
///
/// # Errors
///
/// A refusal where the file can't be read, or with its first broken line; `NoMemory`; `ShelfFailed` only where the shelf
/// counted a fault.
pub fn read_turns<H: Shelf>(alloc: Global, shelf: &mut H, book: String) -> Result<Turns, Halt>
    ensures finds { IsTrue (H.tells shelf.old) → Finds result (λ turns. HasFile (H.files shelf.old (string_bytes book)) book_limit (λ bytes. turns_of bytes ≡ Ok turns)) (WithFile (H.files shelf.old (string_bytes book)) (string_bytes book) book_limit NoTurns) }
    ensures few { IfOk result (λ turns. length turns ≤ most_turns) }
    ensures stay { IsTrue (H.tells shelf.old) → AllStay (H.files shelf.old) (H.files shelf.new) }
    ensures tells_on { IsTrue (H.tells shelf.old) → IsTrue (H.tells shelf.new) }
    ensures later { H.faults shelf.old ≤ H.faults shelf.new }
    ensures refused { H.refusals shelf.new ≡ H.refusals shelf.old }
    ensures failed { IfErr result (λ halt. halt ≡ Halt.ShelfFailed → Rose (H.faults shelf.old) (H.faults shelf.new)) }
{
    let bytes = read_file(alloc, shelf, book, BOOK_LIMIT)?;
    turns_in(alloc, bytes.as_slice())
}

/// The turns of the book of these bytes.
fn turns_in(alloc: Global, bytes: &[u8]) -> Result<Turns, Halt>
    ensures finds { Finds result (λ turns. turns_of bytes.now ≡ Ok turns) (NoTurns bytes.now) }
    ensures few { IfOk result (λ turns. length turns ≤ most_turns) }
    ensures no_fault { IfErr result (λ halt. halt ≢ Halt.ShelfFailed) }
{
    match read_book(alloc, bytes) {
        Ok(turns) => Ok(turns),
        Err(fault) => Err(book_halt(fault)),
    }
}

/// The label that an observer's text spells, which is the word of an index, by the names of the start's tags.
///
/// # Errors
///
/// A refusal with the word's index where the text is no label of these tags; `NoMemory`.
pub fn read_label(index: u64, text: &str, names: &TagNames) -> Result<Label, Halt>
    ensures finds { Finds result (λ label. label_of names.now text.now ≡ Ok label) (ByLabel index Never (label_of names.now text.now)) }
    ensures no_fault { IfErr result (λ halt. halt ≢ Halt.ShelfFailed) }
{
    match parse_label(text, names) {
        Ok(label) => Ok(label),
        Err(LabelFault::BadLabel { at: _ } | LabelFault::NoTag { at: _ }) => {
            Err(Halt::Refused(Refusal::Word(index)))
        }
        Err(LabelFault::NoMemory) => Err(Halt::NoMemory),
    }
}

/// What a fault of a book halts with.
fn book_halt(fault: BookFault) -> Halt
    ensures { result ≡ halt_of_book fault }
{
    match fault {
        BookFault::BadHead => broken_line(BookBreak::Head, 1),
        BookFault::BadLine { line } => broken_line(BookBreak::Line, line),
        BookFault::SameThread { line } => broken_line(BookBreak::SameThread, line),
        BookFault::TooMany { line } => broken_line(BookBreak::TooMany, line),
        BookFault::NoMemory => Halt::NoMemory,
    }
}

/// The refusal of a line of a book.
fn broken_line(flaw: BookBreak, line: u64) -> Halt
    ensures { result ≡ Halt.Refused (Refusal.Book flaw line) }
{
    Halt::Refused(Refusal::Book { flaw, line })
}

/// What a turn that can't be taken halts with.
pub fn run_halt(fault: RunFault) -> Halt
    ensures { result ≡ halt_of_run fault }
{
    match fault {
        RunFault::NotReady { turn, thread } => Halt::Refused(Refusal::NotReady { turn, thread }),
        RunFault::NoMemory => Halt::NoMemory,
    }
}
