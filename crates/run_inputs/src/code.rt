//! The code of a program, and the code that is run of it, without redundant barriers.

ghost use Rattle.std.specs.Prelude.{◌≡◌, ◌⊎◌, ℕ, Ok, Err, IfOk, IfErr};
ghost use Rattle.flow_labels.specs.TwoLists.{Text};
ghost use Rattle.region_check.specs.Seen.{checked_tree};
ghost use Rattle.lam_front.specs.Programs.{IsFine};
ghost use Rattle.lam_bytecode.specs.Codes.{IsCode};
ghost use Rattle.barrier_compiler.specs.Compiled.{IsCompiledTo};
ghost use Rattle.barrier_compiler.specs.declared.generation.CompileFault.TheVariants.{CodeTooLong, NoMemory as no_memory};
ghost use Rattle.thinned_code.specs.Thinned.{thinned};
ghost use Rattle.run_inputs.specs.Inputs.{IsCompiled, IsRunCode, NoCode};

use crate::fault::InputFault;
use barrier_compiler::{CompileFault, compile};
use barrier_thin::thin_verified;
use guarded_code::Verified;
use lam_bytecode::Code;
use lam_front::check_program;
use lam_resolve_laws::resolves;
use region_check::Checked;
use std::alloc::Global;
use want_of_memory::NoMemory;

/// The program that the bytes spell, which keeps the type rules and the region rules.
///
/// # Errors
///
/// The first fault of the bytes; `NoMemory`.
pub fn program_in(alloc: Global, bytes: &[u8]) -> Result<Checked, InputFault>
    ensures fine { IfOk result (λ checked. IsFine bytes.now (checked_tree checked)) }
    ensures refused { IfErr result (NoCode bytes.now) }
{
    Ok(check_program(alloc, bytes)?)
}

/// The code that a checked program is compiled to, which bytes spell.
///
/// # Errors
///
/// The first unit that is too long; `NoMemory`.
pub fn compiled_code(checked: &Checked) -> Result<Code, InputFault>
    ensures compiled { (bytes : Text) → IsFine bytes (checked_tree checked.now) → IfOk result (λ code. IsCompiled bytes (Ok code)) }
    ensures sound { IfOk result (λ code. IsCode code) }
    ensures refused { (bytes : Text) → IsFine bytes (checked_tree checked.now) → IfErr result (NoCode bytes) }
{
    Ok(compile(checked)?)
}

/// The code that is run of a checked program, which bytes spell: what it is compiled to, without its redundant barriers.
/// It is guarded.
///
/// # Errors
///
/// The first unit that is too long; `NoMemory`.
pub fn run_code(alloc: Global, checked: &Checked) -> Result<Verified, InputFault>
    ensures run { (bytes : Text) → IsFine bytes (checked_tree checked.now) → IfOk result (λ code. IsRunCode bytes code) }
    ensures sound { IfOk result (λ code. IsCode code) }
    ensures refused { (bytes : Text) → IsFine bytes (checked_tree checked.now) → IfErr result (NoCode bytes) }
{
    let whole = whole_code(checked)?;
    let code = thin(alloc, whole)?;
    Ok(code)
}

/// The code that a checked program is compiled to. It is guarded.
fn whole_code(checked: &Checked) -> Result<Verified, CompileFault>
    ensures ok { IfOk result (λ code. IsCompiledTo (checked_tree checked.now) (Ok code)) }
    ensures sound { IfOk result (λ code. IsCode code) }
    ensures long { IfErr result (λ f. (f ≡ no_memory) ⊎ ((unit : ℕ) × (f ≡ CodeTooLong unit) × IsCompiledTo (checked_tree checked.now) (Err unit))) }
{
    resolves(checked);
    match compile(checked) {
        Ok(code) => Ok(Verified::of(code)),
        Err(fault) => Err(fault),
    }
}

/// A code without its redundant barriers.
fn thin(alloc: Global, whole: Verified) -> Result<Verified, NoMemory>
    requires { IsCode whole }
    ensures thinned { IfOk result (λ code. code ≡ thinned whole) }
    ensures sound { IfOk result (λ code. IsCode code) }
{
    let code = thin_verified(alloc, &whole);
    drop(whole);
    code
}

/// The code that is run of the program that the bytes spell.
///
/// # Errors
///
/// The first fault of the bytes, or the first unit that is too long; `NoMemory`.
pub fn run_code_of(alloc: Global, bytes: &[u8]) -> Result<Verified, InputFault>
    ensures run { IfOk result (λ code. IsRunCode bytes.now code) }
    ensures sound { IfOk result (λ code. IsCode code) }
    ensures refused { IfErr result (NoCode bytes.now) }
{
    let checked = program_in(alloc, bytes)?;
    let code = run_code(alloc, &checked);
    let_go_program(checked);
    code
}

/// Lets a program go.
fn let_go_program(checked: Checked) {
    drop(checked);
}
