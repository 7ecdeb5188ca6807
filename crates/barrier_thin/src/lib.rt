//! The removal of redundant barriers.
//!
//! A barrier is redundant where the same rule tested its operand already: it always passes. From guarded code all
//! redundant barriers are removed at once. Jumps and catch blocks go to the operation that stood there, or to the next
//! one that stayed.
//!
//! `again` finds the operations that stay: all but the redundant barriers of each unit (`code_verify`). `units` builds
//! the new code, where `remainder` says which operations stay and `ops` where jumps go. `thinned_code_acts` has the laws
//! that thinned code acts as the code, and as the code's program. That a program's code has no break is a law of
//! `compiled_code_guarded`.
//!
//! A public promise rests on `thin` and `thin_verified` (clauses `thinned`, `acts`): the code that runs is the
//! program's without its redundant barriers, and acts as the program. Free to change for speed: how `Staying` finds
//! the new address of an operation.
#![tactic(auto)]

mod again;
mod ops;
mod remainder;
mod units;

ghost use Rattle.std.specs.Prelude.{◌≡◌, IfOk};
ghost use Rattle.lam_bytecode.specs.Codes.{IsCode};
ghost use Rattle.guarded_code.specs.Breaks.{IsGuarded};
ghost use Rattle.thinned_code.specs.Thinned.{thinned};
ghost use Rattle.barrier_thin.specs.Programs.{StandsForPrograms};

use again::staying_units;
use code_verify::is_guarded;
use compiled_code_guarded::compiled_code_is_guarded;
use guarded_code::Verified;
use lam_bytecode::Code;
pub use remainder::Staying;
use std::alloc::Global;
use thinned_code_acts::thinned_scheme_acts;
pub use units::thin_code;
use want_of_memory::NoMemory;

/// The code without its redundant barriers, all left out at once. A code that has a break stays as it is. What is made of
/// the code of a program has no break, and acts as the program.
///
/// # Errors
///
/// `NoMemory` where memory is refused.
pub fn thin(alloc: Global, code: Code) -> Result<Code, NoMemory>
    requires { IsCode code }
    ensures thinned { IfOk result (λ c. c ≡ thinned code) }
    ensures sound { IfOk result (λ c. IsCode c) }
    ensures guarded { IsGuarded code → IfOk result (λ c. IsGuarded c) }
    ensures acts { IfOk result (StandsForPrograms code) }
{
    compiled_code_is_guarded();
    thinned_scheme_acts();
    thin_any(alloc, code)
}

#[tactic(auto, using(crate::proofs::Thinned::broken_stays))]
fn thin_any(alloc: Global, code: Code) -> Result<Code, NoMemory>
    requires { IsCode code }
    ensures thinned { IfOk result (λ c. c ≡ thinned code) }
    ensures sound { IfOk result (λ c. IsCode c) }
    ensures guarded { IsGuarded code → IfOk result (λ c. IsGuarded c) }
{
    if is_guarded(alloc, &code)? {
        thin_guarded(alloc, &code)
    } else {
        Ok(code)
    }
}

/// The same of a code of which it is known that it has no break; nor has the thinned code.
///
/// # Errors
///
/// `NoMemory` where memory is refused.
pub fn thin_verified(alloc: Global, code: &Verified) -> Result<Verified, NoMemory>
    requires { IsCode code.now }
    ensures thinned { IfOk result (λ v. v ≡ thinned code.now) }
    ensures sound { IfOk result (λ v. IsCode v) }
    ensures acts { IfOk result (StandsForPrograms code.now) }
{
    compiled_code_is_guarded();
    thinned_scheme_acts();
    thin_known(alloc, code)
}

fn thin_known(alloc: Global, code: &Verified) -> Result<Verified, NoMemory>
    requires { IsCode code.now }
    ensures thinned { IfOk result (λ v. v ≡ thinned code.now) }
    ensures sound { IfOk result (λ v. IsCode v) }
{
    let thin = thin_guarded(alloc, code.code())?;
    Ok(Verified::of(thin))
}

#[tactic(auto, using(crate::proofs::Thinned::thin_code_is, crate::proofs::Thinned::thin_guarded_is))]
fn thin_guarded(alloc: Global, code: &Code) -> Result<Code, NoMemory>
    requires code { IsCode code.now }
    requires guarded { IsGuarded code.now }
    ensures thinned { IfOk result (λ c. c ≡ thinned code.now) }
    ensures sound { IfOk result (λ c. IsCode c) }
    ensures guarded { IfOk result (λ c. IsGuarded c) }
{
    let staying = staying_units(alloc, code)?;
    thin_code(alloc, code, staying.as_slice())
}
