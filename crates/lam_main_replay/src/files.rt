//! The reader of the files that the words name.

ghost use Rattle.std.specs.Prelude.{◌≡◌, ◌≤◌, IsTrue, IfErr, string_bytes};
ghost use Rattle.lam_io.specs.Outside.{Rose, AllStay};
ghost use Rattle.lam_main_replay.specs.Halts.{IsRead};

use crate::halt::{Halt, Refusal};
use lam_io::{Got, Shelf, ShelfFault};
use std::alloc::Global;

/// The bytes of a file that is read next.
///
/// # Errors
///
/// A refusal where the file is not there or longer than the limit; `NoMemory`; `ShelfFailed` only where the shelf
/// counted a fault.
pub fn read_file<H: Shelf>(
    alloc: Global,
    shelf: &mut H,
    name: String,
    limit: u64,
) -> Result<Vec<u8>, Halt>
    ensures read { IsTrue (H.tells shelf.old) → IsRead result (H.files shelf.old (string_bytes name)) (string_bytes name) limit }
    ensures stay { IsTrue (H.tells shelf.old) → AllStay (H.files shelf.old) (H.files shelf.new) }
    ensures tells_on { IsTrue (H.tells shelf.old) → IsTrue (H.tells shelf.new) }
    ensures later { H.faults shelf.old ≤ H.faults shelf.new }
    ensures refused { H.refusals shelf.new ≡ H.refusals shelf.old }
    ensures failed { IfErr result (λ halt. halt ≡ Halt.ShelfFailed → Rose (H.faults shelf.old) (H.faults shelf.new)) }
{
    match shelf.read(alloc, name.as_str(), limit) {
        Ok(Got::Found(bytes)) => Ok(bytes),
        Ok(Got::Absent) => Err(Halt::Refused(Refusal::Absent(name))),
        Ok(Got::TooLong) => Err(Halt::Refused(Refusal::TooLong(name))),
        Err(ShelfFault::Failed) => Err(Halt::ShelfFailed),
        Err(ShelfFault::NoMemory) => Err(Halt::NoMemory),
    }
}
