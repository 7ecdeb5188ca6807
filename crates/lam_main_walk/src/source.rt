//! The code of a program that is run, and its resolved tree, from one reading.

ghost use Rattle.std.specs.Prelude.{◌≡◌, ◌≤◌, IsTrue, IfOk, IfErr, string_bytes};
ghost use Rattle.lam_io.specs.Outside.{Rose, AllStay};
ghost use Rattle.region_check.specs.Seen.{checked_tree};
ghost use Rattle.lam_front.specs.Programs.{IsFine};
ghost use Rattle.lam_main_replay.specs.Inputs.{NoCode};
ghost use Rattle.lam_main_words.specs.Words.{Text};
ghost use Rattle.lam_main_replay.specs.Reading.{HasFile, WithFile, Never, Compiles, program_limit};
ghost use Rattle.lam_main_replay.specs.Halts.{Finds};
ghost use Rattle.lam_main_walk.specs.Sources.{IsSourceOf, IsOfProgram, IsSoundSource};

use guarded_code::Verified;
use lam_io::Shelf;
use lam_main_replay::{Halt, InputFault, PROGRAM_LIMIT, program_in, read_file, run_code};
use lam_resolve::resolve;
use lam_resolve_tree::Resolved;
use region_check::Checked;
use std::alloc::Global;
use std::mem::forget;
use want_of_memory::NoMemory;

/// The code that is run of a program, and the program with its names resolved. Neither is let go: whoever is done with both
/// hands them to [`let_go_source`].
pub(crate) struct Source {
    pub(crate) code: Verified,
    pub(crate) program: Resolved,
}

/// Leaves a source to the end of the call's process, which prints one text.
pub(crate) fn let_go_source(source: Source) {
    let Source { code, program } = source;
    forget(code);
    forget(program);
}

/// The code that is run of the program in a file, and its source.
///
/// # Errors
///
/// A refusal where the file can't be read, with the first fault of its bytes, or with its first unit that is too long.
pub(crate) fn read_source<H: Shelf>(
    alloc: Global,
    shelf: &mut H,
    program: String,
) -> Result<Source, Halt>
    ensures finds { IsTrue (H.tells shelf.old) → Finds result (λ s. HasFile (H.files shelf.old (string_bytes program)) program_limit (λ bytes. IsSourceOf bytes s)) (WithFile (H.files shelf.old (string_bytes program)) (string_bytes program) program_limit (Compiles Never)) }
    ensures found { IfOk result IsOfProgram }
    ensures sound { IfOk result IsSoundSource }
    ensures stay { IsTrue (H.tells shelf.old) → AllStay (H.files shelf.old) (H.files shelf.new) }
    ensures tells_on { IsTrue (H.tells shelf.old) → IsTrue (H.tells shelf.new) }
    ensures later { H.faults shelf.old ≤ H.faults shelf.new }
    ensures failed { IfErr result (λ halt. halt ≡ Halt.ShelfFailed → Rose (H.faults shelf.old) (H.faults shelf.new)) }
{
    let bytes = read_file(alloc, shelf, program, PROGRAM_LIMIT)?;
    Ok(source_of(alloc, bytes.as_slice())?)
}

/// The code that is run of the program that the bytes spell, and its source.
fn source_of(alloc: Global, bytes: &[u8]) -> Result<Source, InputFault>
    ensures found { IfOk result (IsSourceOf bytes.now) }
    ensures sound { IfOk result IsSoundSource }
    ensures refused { IfErr result (NoCode bytes.now) }
{
    let checked = program_in(alloc, bytes)?;
    let source = source_in(alloc, &checked);
    forget(checked);
    source
}

/// The same of a checked program.
fn source_in(alloc: Global, checked: &Checked) -> Result<Source, InputFault>
    ensures found { (bytes : Text) → IsFine bytes (checked_tree checked.now) → IfOk result (IsSourceOf bytes) }
    ensures sound { IfOk result IsSoundSource }
    ensures refused { (bytes : Text) → IsFine bytes (checked_tree checked.now) → IfErr result (NoCode bytes) }
{
    let code = run_code(alloc, checked)?;
    match resolve(checked) {
        Ok(program) => Ok(Source { code, program }),
        Err(NoMemory) => {
            forget(code);
            Err(InputFault::NoMemory)
        }
    }
}
