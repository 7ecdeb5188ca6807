//! The start of a run, which is the world of a document.
//!
//! Its threads stand at the entries of functions (`world_doc_laws`), so that runs of a guarded code from there are
//! sound.

ghost use Rattle.std.specs.Prelude.{◌≡◌, Ok, IfOk, IfErr};
ghost use Rattle.lam_bytecode.specs.Codes.{IsCode};
ghost use Rattle.world_doc_laws.specs.Worlds.{IsSound};
ghost use Rattle.world_doc_terms.specs.Start.{start_of};
ghost use Rattle.run_inputs.specs.Inputs.{NoStart};

use crate::fault::InputFault;
use guarded_code::Verified;
use lam_machine_world::World;
use std::alloc::Global;
use world_doc::start;
use world_doc_laws::starts_are_entered;

/// The world of the document with these bytes, from which a code starts. Runs of the code from there are sound.
///
/// # Errors
///
/// The first break of the document; `NoMemory`.
pub fn start_in(alloc: Global, code: &Verified, bytes: &[u8]) -> Result<World, InputFault>
    requires { IsCode code.now }
    ensures start { IfOk result (λ start. start_of bytes.now code.now ≡ Ok start) }
    ensures sound { IfOk result (IsSound code.now) }
    ensures refused { IfErr result (NoStart code.now bytes.now) }
{
    starts_are_entered();
    Ok(start(alloc, bytes, code.code())?)
}
