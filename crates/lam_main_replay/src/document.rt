//! The start of a run, which is the world of the document in a file.

ghost use Rattle.std.specs.Prelude.{◌≡◌, ◌≢◌, ◌≤◌, Ok, IsTrue, IfOk, IfErr, string_bytes};
ghost use Rattle.lam_io.specs.Outside.{Rose, AllStay};
ghost use Rattle.lam_bytecode.specs.Codes.{IsCode};
ghost use Rattle.guarded_code_runs.specs.Worlds.{IsSound};
ghost use Rattle.world_doc_terms.specs.Start.{start_of};
ghost use Rattle.lam_main_plan.specs.Reading.{HasFile, WithFile, world_limit};
ghost use Rattle.lam_main_plan.specs.Replays.{NoStart};
ghost use Rattle.lam_main_replay.specs.Halts.{Finds};
ghost use Rattle.lam_main_replay.specs.Asked.{IsStartOf};

use crate::files::read_file;
use crate::halt::Halt;
use audit_log_lines::World;
use guarded_code::Verified;
use lam_io::Shelf;
use std::alloc::Global;

/// The most bytes of the document of a world.
pub const WORLD_LIMIT: u64 = 16_777_216;

/// The world of the document in a file, from which a code starts. Runs of the code from there are sound.
///
/// # Errors
///
/// A refusal where the file can't be read, or with the first break of the document; `NoMemory`; `ShelfFailed` only where
/// the shelf counted a fault.
pub fn read_start<H: Shelf>(
    alloc: Global,
    shelf: &mut H,
    code: &Verified,
    world: String,
) -> Result<World, Halt>
    requires { IsCode code.now }
    ensures finds { IsTrue (H.tells shelf.old) → Finds result (λ start. HasFile (H.files shelf.old (string_bytes world)) world_limit (λ bytes. start_of bytes code.now ≡ Ok start)) (WithFile (H.files shelf.old (string_bytes world)) (string_bytes world) world_limit (NoStart code.now)) }
    ensures given { IfOk result (IsStartOf code.now) }
    ensures sound { IfOk result (IsSound code.now) }
    ensures stay { IsTrue (H.tells shelf.old) → AllStay (H.files shelf.old) (H.files shelf.new) }
    ensures tells_on { IsTrue (H.tells shelf.old) → IsTrue (H.tells shelf.new) }
    ensures later { H.faults shelf.old ≤ H.faults shelf.new }
    ensures refused { H.refusals shelf.new ≡ H.refusals shelf.old }
    ensures failed { IfErr result (λ halt. halt ≡ Halt.ShelfFailed → Rose (H.faults shelf.old) (H.faults shelf.new)) }
{
    let bytes = read_file(alloc, shelf, world, WORLD_LIMIT)?;
    start_in(alloc, code, bytes.as_slice())
}

/// The world of the document in a file's bytes. Runs of the code from there are sound.
///
/// # Errors
///
/// A refusal with the first break of the document; `NoMemory`.
pub fn start_in(alloc: Global, code: &Verified, bytes: &[u8]) -> Result<World, Halt>
    requires { IsCode code.now }
    ensures finds { Finds result (λ start. start_of bytes.now code.now ≡ Ok start) (NoStart code.now bytes.now) }
    ensures sound { IfOk result (IsSound code.now) }
    ensures no_fault { IfErr result (λ halt. halt ≢ Halt.ShelfFailed) }
{
    Ok(lam_main_plan::start_in(alloc, code, bytes)?)
}
