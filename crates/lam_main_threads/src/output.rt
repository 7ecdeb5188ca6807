//! The writing of the book, and the report of the rest.

ghost use Rattle.std.specs.Prelude.{◌≡◌, Some, IsTrue, IfErr, string_bytes};
ghost use Rattle.lam_io.specs.Outside.{Rose, AllStay};
ghost use Rattle.lam_main_replay.specs.Answer.{OthersKept};
ghost use Rattle.lam_main_replay.specs.Halts.{Reports};
ghost use Rattle.lam_main_threads.specs.Taken.{planned};

use crate::texts::Taken;
use lam_io::{Shelf, ShelfFault};
use lam_main_replay::{Halt, Report};

/// Writes the book of a run to a file. The text and the book were made before, so nothing is refused from here on.
pub(crate) fn written<H: Shelf>(
    shelf: &mut H,
    book_out: String,
    taken: Taken,
) -> Result<Report, Halt>
    ensures gives { IsTrue (H.tells shelf.old) → Reports result (λ plan. plan ≡ planned (string_bytes book_out) taken) (H.files shelf.old) (H.files shelf.new) }
    ensures kept { IsTrue (H.tells shelf.old) → OthersKept (Some (string_bytes book_out)) (H.files shelf.old) (H.files shelf.new) }
    ensures spared { IsTrue (H.tells shelf.old) → IfErr result (λ halt. halt ≡ Halt.NoMemory → ¬ Rose (H.refusals shelf.old) (H.refusals shelf.new) → AllStay (H.files shelf.old) (H.files shelf.new)) }
    ensures failed { IfErr result (λ halt. halt ≡ Halt.ShelfFailed → Rose (H.faults shelf.old) (H.faults shelf.new)) }
{
    let Taken { how, text, book } = taken;
    match shelf.write(book_out.as_str(), book.as_slice()) {
        Ok(()) => Ok(Report { how, text }),
        Err(ShelfFault::Failed) => Err(Halt::ShelfFailed),
        Err(ShelfFault::NoMemory) => Err(Halt::NoMemory),
    }
}
