//! A verifier of guarded code, which names the first break of other code.
//!
//! The descriptions of a unit are found in rounds over its addresses. They are swept in order, as they are defined,
//! since another order would meet another first break. The rounds keep the table of one unit in memory at a time, with
//! a byte for each local of each address, and allocate nothing where two paths meet. The sweeps, which find redundant
//! barriers, keep fewer descriptions, and copy one where two paths meet.
//!
//! - `verify` makes a code into one that is known to be guarded, or names its first break.
//! - `is_guarded` answers the same for a borrowed code.
//! - `describe` gives the descriptions themselves, also where an access without its barrier is the first break.
//! - `redundant_barriers` tells of each operation of a unit whether it is a redundant barrier.
//!
//! `targets` has the rule that is tested first, and `rounds` the rounds. `breaks` finds the first break of a unit and
//! of a code, and `described` has what `describe` gives. `redundant` has the redundant barriers, and `sweep` how they
//! are found without a description for each address.
//!
//! Public promises rest on `verify` (clauses `same`, `guarded`, `err`) and `is_guarded` (guarded code alone passes, and
//! other code is refused for its first break), and on `redundant_barriers` (which barriers go). Free to change for
//! speed: `sweep`, and how the rounds keep their tables.
#![tactic(auto)]

mod breaks;
mod described;
mod fault;
mod locals;
mod redundant;
mod rounds;
mod sweep;
mod targets;

ghost use Rattle.std.specs.Prelude.{◌≡◌, ◌↔◌, IfOk, OnOk, IfErr, IsTrue};
ghost use Rattle.lam_bytecode.specs.Codes.{IsCode};
ghost use Rattle.guarded_code.specs.Breaks.{first_code_break, IsGuarded};
ghost use Rattle.code_verify.specs.Faults.{Tells, TellsOf, is_describable};
ghost use Rattle.code_verify.specs.Tables.{tables_of};

use breaks::code_break;
pub use described::Described;
use described::{tables_of, unless_describable};
pub use fault::VerifyFault;
use guarded_code::Verified;
use lam_bytecode::Code;
pub use redundant::redundant_barriers;
use std::alloc::Global;
use want_of_memory::NoMemory;

/// The code as one that is known to have no break. It is not copied.
///
/// # Errors
///
/// The first break of the code: of the least unit that has one, the first rule that is broken, at its least address.
/// `NoMemory` where memory is refused.
pub fn verify(alloc: Global, code: Code) -> Result<Verified, VerifyFault>
    requires { IsCode code }
    ensures same { IfOk result (λ v. v ≡ code) }
    ensures guarded { OnOk result (IsGuarded code) }
    ensures err { IfErr result (λ f. Tells f (first_code_break code)) }
{
    match code_break(alloc, &code)? {
        None => Ok(Verified::of(code)),
        Some(broken) => Err(VerifyFault::of(broken)),
    }
}

/// Whether a code has no break.
///
/// # Errors
///
/// `NoMemory` where memory is refused.
pub fn is_guarded(alloc: Global, code: &Code) -> Result<bool, NoMemory>
    requires { IsCode code.now }
    ensures { IfOk result (λ guarded. IsTrue guarded ↔ IsGuarded code.now) }
{
    match code_break(alloc, code)? {
        None => Ok(true),
        Some(_) => Ok(false),
    }
}

/// The descriptions of a code, unit by unit; of a unit that has a bad target, or whose rounds break, none.
///
/// # Errors
///
/// The first break of the code where that is of another rule than that accesses are guarded. `NoMemory` where memory is
/// refused.
pub fn describe(alloc: Global, code: &Code) -> Result<Described, VerifyFault>
    requires { IsCode code.now }
    ensures tables { IfOk result (λ d. d ≡ tables_of code.now) }
    ensures ok { OnOk result (IsTrue (is_describable (first_code_break code.now))) }
    ensures err { IfErr result (λ f. TellsOf f (first_code_break code.now)) }
{
    unless_describable(code_break(alloc, code)?)?;
    Ok(Described::of(tables_of(alloc, code)?))
}
