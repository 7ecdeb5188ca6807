//! The commands `format`, `check` and `code`, and the code of a program that is run.
//!
//! `check` and `code` are of the code that a program is compiled to. What is run has no redundant barrier.
//! `run_inputs` reads both from the file's bytes.

ghost use Rattle.std.specs.Prelude.{◌≡◌, ◌≢◌, ◌≤◌, Ok, IsTrue, IfOk, IfErr, string_bytes};
ghost use Rattle.lam_io.specs.Outside.{Rose, AllStay};
ghost use Rattle.lam_syntax.specs.Tree.{program_tree};
ghost use Rattle.lam_print.specs.Canon.{canon};
ghost use Rattle.lam_front.specs.Programs.{IsFine};
ghost use Rattle.region_check.specs.Seen.{checked_tree};
ghost use Rattle.lam_bytecode.specs.Codes.{IsCode};
ghost use Rattle.lam_main_plan.specs.Inputs.{NoCode};
ghost use Rattle.lam_main_words.specs.Words.{Text};
ghost use Rattle.lam_main_plan.specs.Reading.{HasFile, WithFile, Never, IsCompiled, Compiles, IsRunCode, program_limit};
ghost use Rattle.lam_main_plan.specs.Plan.{Formats, Checks, Lists};
ghost use Rattle.lam_main_replay.specs.Halts.{Says, Finds, Gives};

use crate::files::read_file;
use crate::halt::Halt;
use guarded_code::Verified;
use lam_bytecode::{Code, listing};
use lam_front::read_program;
use lam_io::Shelf;
use lam_main_plan::{InputFault, compiled_code, program_in, run_code};
use lam_print::print;
use lam_syntax::Program;
use region_check::Checked;
use std::alloc::Global;
use std::mem::forget;
use want_of_memory::NoMemory;

/// The most bytes of a program.
pub const PROGRAM_LIMIT: u64 = 1_048_576;

/// The canonical text of the program in a file.
///
/// # Errors
///
/// A refusal where the file can't be read, or with the first fault of its bytes.
pub fn format<H: Shelf>(alloc: Global, shelf: &mut H, program: String) -> Result<String, Halt>
    ensures gives { IsTrue (H.tells shelf.old) → Gives result (WithFile (H.files shelf.old (string_bytes program)) (string_bytes program) program_limit Formats) (H.files shelf.old) (H.files shelf.new) }
    ensures stay { IsTrue (H.tells shelf.old) → AllStay (H.files shelf.old) (H.files shelf.new) }
    ensures failed { IfErr result (λ halt. halt ≡ Halt.ShelfFailed → Rose (H.faults shelf.old) (H.faults shelf.new)) }
{
    let bytes = read_file(alloc, shelf, program, PROGRAM_LIMIT)?;
    format_bytes(alloc, bytes.as_slice())
}

/// `ok`, where the program in a file keeps the type rules and the region rules.
///
/// # Errors
///
/// A refusal where the file can't be read, with the first fault of its bytes, or with its first unit that is too long.
pub fn check<H: Shelf>(alloc: Global, shelf: &mut H, program: String) -> Result<String, Halt>
    ensures gives { IsTrue (H.tells shelf.old) → Gives result (WithFile (H.files shelf.old (string_bytes program)) (string_bytes program) program_limit Checks) (H.files shelf.old) (H.files shelf.new) }
    ensures stay { IsTrue (H.tells shelf.old) → AllStay (H.files shelf.old) (H.files shelf.new) }
    ensures failed { IfErr result (λ halt. halt ≡ Halt.ShelfFailed → Rose (H.faults shelf.old) (H.faults shelf.new)) }
{
    match read_compiled(alloc, shelf, program) {
        Ok(_code) => Ok(String::from_str(alloc, "ok\n")?),
        Err(halt) => Err(halt),
    }
}

/// The listing of the code of the program in a file.
///
/// # Errors
///
/// A refusal where the file can't be read, with the first fault of its bytes, or with its first unit that is too long.
pub fn code<H: Shelf>(alloc: Global, shelf: &mut H, program: String) -> Result<String, Halt>
    ensures gives { IsTrue (H.tells shelf.old) → Gives result (WithFile (H.files shelf.old (string_bytes program)) (string_bytes program) program_limit Lists) (H.files shelf.old) (H.files shelf.new) }
    ensures stay { IsTrue (H.tells shelf.old) → AllStay (H.files shelf.old) (H.files shelf.new) }
    ensures failed { IfErr result (λ halt. halt ≡ Halt.ShelfFailed → Rose (H.faults shelf.old) (H.faults shelf.new)) }
{
    match read_compiled(alloc, shelf, program) {
        Ok(code) => Ok(listing(alloc, &code)?),
        Err(halt) => Err(halt),
    }
}

/// The code that is run of the program in a file. It is guarded.
///
/// # Errors
///
/// A refusal where the file can't be read, with the first fault of its bytes, or with its first unit that is too long.
pub fn read_code<H: Shelf>(alloc: Global, shelf: &mut H, program: String) -> Result<Verified, Halt>
    ensures finds { IsTrue (H.tells shelf.old) → Finds result (λ code. HasFile (H.files shelf.old (string_bytes program)) program_limit (λ bytes. IsRunCode bytes code)) (WithFile (H.files shelf.old (string_bytes program)) (string_bytes program) program_limit (Compiles Never)) }
    ensures sound { IfOk result (λ code. IsCode code) }
    ensures stay { IsTrue (H.tells shelf.old) → AllStay (H.files shelf.old) (H.files shelf.new) }
    ensures tells_on { IsTrue (H.tells shelf.old) → IsTrue (H.tells shelf.new) }
    ensures later { H.faults shelf.old ≤ H.faults shelf.new }
    ensures refused { H.refusals shelf.new ≡ H.refusals shelf.old }
    ensures failed { IfErr result (λ halt. halt ≡ Halt.ShelfFailed → Rose (H.faults shelf.old) (H.faults shelf.new)) }
{
    let bytes = read_file(alloc, shelf, program, PROGRAM_LIMIT)?;
    run_code_of(alloc, bytes.as_slice())
}

/// The code that the program in a file is compiled to.
fn read_compiled<H: Shelf>(alloc: Global, shelf: &mut H, program: String) -> Result<Code, Halt>
    ensures finds { IsTrue (H.tells shelf.old) → Finds result (λ code. HasFile (H.files shelf.old (string_bytes program)) program_limit (λ bytes. IsCompiled bytes (Ok code))) (WithFile (H.files shelf.old (string_bytes program)) (string_bytes program) program_limit (Compiles Never)) }
    ensures stay { IsTrue (H.tells shelf.old) → AllStay (H.files shelf.old) (H.files shelf.new) }
    ensures failed { IfErr result (λ halt. halt ≡ Halt.ShelfFailed → Rose (H.faults shelf.old) (H.faults shelf.new)) }
{
    let bytes = read_file(alloc, shelf, program, PROGRAM_LIMIT)?;
    compiled(alloc, bytes.as_slice())
}

fn format_bytes(alloc: Global, bytes: &[u8]) -> Result<String, Halt>
    ensures says { Says result (Formats bytes.now) }
    ensures no_fault { IfErr result (λ halt. halt ≢ Halt.ShelfFailed) }
{
    let program = read_program(alloc, bytes)?;
    Ok(text_of(program)?)
}

/// The canonical text of a program, whose tree is left to the end of the call's process, which prints one text.
fn text_of(program: Program) -> Result<String, NoMemory>
    ensures { IfOk result (λ text. string_bytes text ≡ canon (program_tree program)) }
{
    let text = print(&program);
    forget(program);
    text
}

/// The code that is run of the program that the bytes spell: what it is compiled to, without its redundant barriers. It is
/// guarded.
///
/// # Errors
///
/// A refusal with the first fault of the bytes, or with the first unit that is too long; `NoMemory`.
pub fn run_code_of(alloc: Global, bytes: &[u8]) -> Result<Verified, Halt>
    ensures finds { Finds result (λ code. IsRunCode bytes.now code) (Compiles Never bytes.now) }
    ensures sound { IfOk result (λ code. IsCode code) }
    ensures no_fault { IfErr result (λ halt. halt ≢ Halt.ShelfFailed) }
{
    let checked = program_in(alloc, bytes)?;
    Ok(run_code_in(alloc, checked)?)
}

/// The code that is run of a checked program, whose tree is left to the end of the call's process.
fn run_code_in(alloc: Global, checked: Checked) -> Result<Verified, InputFault>
    ensures run { (bytes : Text) → IsFine bytes (checked_tree checked) → IfOk result (λ code. IsRunCode bytes code) }
    ensures sound { IfOk result (λ code. IsCode code) }
    ensures refused { (bytes : Text) → IsFine bytes (checked_tree checked) → IfErr result (NoCode bytes) }
{
    let code = run_code(alloc, &checked);
    forget(checked);
    code
}

/// The code that the program that the bytes spell is compiled to.
fn compiled(alloc: Global, bytes: &[u8]) -> Result<Code, Halt>
    ensures finds { Finds result (λ code. IsCompiled bytes.now (Ok code)) (Compiles Never bytes.now) }
    ensures no_fault { IfErr result (λ halt. halt ≢ Halt.ShelfFailed) }
{
    let checked = program_in(alloc, bytes)?;
    Ok(compiled_in(checked)?)
}

/// The code that a checked program is compiled to, whose tree is left to the end of the call's process.
fn compiled_in(checked: Checked) -> Result<Code, InputFault>
    ensures compiled { (bytes : Text) → IsFine bytes (checked_tree checked) → IfOk result (λ code. IsCompiled bytes (Ok code)) }
    ensures refused { (bytes : Text) → IsFine bytes (checked_tree checked) → IfErr result (NoCode bytes) }
{
    let code = compiled_code(&checked);
    forget(checked);
    code
}
