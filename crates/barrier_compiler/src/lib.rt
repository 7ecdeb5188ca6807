//! The compiler: from a checked program to its code.
//!
//! It resolves names first (`lam_resolve`), and then gives each function and each region its operations by the scheme
//! of `lam_meaning` (`generation`). [`compile`] does both; that the code acts as the program is a clause of it.
//!
//! A public promise rests on `compile` (clauses `ok`, `long`, `acts`): the code is the scheme's and acts as the
//! program. What may be made faster stands in `barrier_compiler_ops` and `barrier_compiler_units`.
#![tactic(auto)]

mod generation;

ghost use Rattle.std.specs.Prelude.{◌≡◌, ◌⊎◌, ℕ, Ok, Err, IfOk, IfErr};
ghost use Rattle.lam_bytecode.specs.Codes.{IsCode};
ghost use Rattle.region_check.specs.Seen.{checked_tree};
ghost use Rattle.barrier_compiler.specs.declared.generation.CompileFault.TheVariants.{CodeTooLong, NoMemory as no_memory};
ghost use Rattle.barrier_compiler.specs.Compiled.{IsCompiledTo, ActsAsProgram};

pub use generation::{CompileFault, emit};
use lam_bytecode::Code;
use lam_meaning_laws::compiled_code_acts_as_its_source;
use lam_resolve::resolve;
use lam_resolve_laws::resolves;
use region_check::Checked;

/// The code of a checked program, which is the one that the scheme gives it. A thread of that code makes the asks that
/// the program means, in order, and is not stuck.
///
/// # Errors
///
/// `CodeTooLong` with the number of the first unit that has more than 65,535 operations by the scheme; `NoMemory`.
pub fn compile(c: &Checked) -> Result<Code, CompileFault>
    ensures ok { IfOk result (λ code. IsCompiledTo (checked_tree c.now) (Ok code)) }
    ensures sound { IfOk result (λ code. IsCode code) }
    ensures acts { ActsAsProgram (checked_tree c.now) }
    ensures long { IfErr result (λ f. (f ≡ no_memory) ⊎ ((unit : ℕ) × (f ≡ CodeTooLong unit) × IsCompiledTo (checked_tree c.now) (Err unit))) }
{
    resolves(c);
    compiled_code_acts_as_its_source();
    let program = resolve(c)?;
    emit(*c.program().items.allocator(), &program)
}
