//! The writing of the document, and the report of its line.

ghost use Rattle.std.specs.Prelude.{◌≡◌, Some, IsTrue, IfErr, string_bytes};
ghost use Rattle.lam_io.specs.Outside.{Rose, AllStay};
ghost use Rattle.lam_main_replay.specs.Answer.{OthersKept};
ghost use Rattle.lam_main_replay.specs.Halts.{Reports};
ghost use Rattle.lam_main_next.specs.Endings.{planned};

use crate::run_end::Ending;
use lam_io::{Shelf, ShelfFault};
use lam_machine_runs::How;
use lam_main_replay::{Halt, Report};

/// Writes the document of the next run's world to a file. Both texts were made before, so nothing is refused from here on.
pub(crate) fn written<H: Shelf>(
    shelf: &mut H,
    next_world: String,
    ending: Ending,
) -> Result<Report, Halt>
    ensures gives { IsTrue (H.tells shelf.old) → Reports result (λ plan. plan ≡ planned (string_bytes next_world) ending) (H.files shelf.old) (H.files shelf.new) }
    ensures kept { IsTrue (H.tells shelf.old) → OthersKept (Some (string_bytes next_world)) (H.files shelf.old) (H.files shelf.new) }
    ensures spared { IsTrue (H.tells shelf.old) → IfErr result (λ halt. halt ≡ Halt.NoMemory → ¬ Rose (H.refusals shelf.old) (H.refusals shelf.new) → AllStay (H.files shelf.old) (H.files shelf.new)) }
    ensures failed { IfErr result (λ halt. halt ≡ Halt.ShelfFailed → Rose (H.faults shelf.old) (H.faults shelf.new)) }
{
    let Ending { text, document } = ending;
    match shelf.write(next_world.as_str(), document.as_slice()) {
        Ok(()) => Ok(Report {
            how: How::Done,
            text,
        }),
        Err(ShelfFault::Failed) => Err(Halt::ShelfFailed),
        Err(ShelfFault::NoMemory) => Err(Halt::NoMemory),
    }
}
