//! Code generation from a resolved program, by the scheme of `lam_meaning`.
//!
//! Each access stands behind a barrier, and each region is a unit of its own. A program comes to its code, or to the
//! number of its first unit that is too long. `compiled` of `lam_meaning` defines that, and `emit` computes it.

ghost use Rattle.std.specs.Prelude.{◌≡◌, map, Ok, IfOk, IfErr};
ghost use Rattle.lam_resolve_tree.specs.Tree.{types_tree, classes_tree, resolved_tree};
ghost use Rattle.lam_resolve_tree.specs.Typing.{IsTypedTree};
ghost use Rattle.lam_resolve_tree.specs.Slots.{SlotsDiffer};
ghost use Rattle.lam_resolve_tree.specs.Limits.{WithinLimits};
ghost use Rattle.lam_resolve_tree.specs.Regions.{AreNumbered};
ghost use Rattle.lam_bytecode.specs.Codes.{IsCode};
ghost use Rattle.lam_meaning.specs.Means.{kind_of};
ghost use Rattle.lam_meaning.specs.Long.{compiled};
ghost use Rattle.barrier_compiler.specs.Faults.{IsFaultOf};
ghost use Rattle.barrier_compiler.specs.declared.generation.CompileFault.TheVariants.{NoMemory as no_memory};

use barrier_compiler_ops::kind_of;
use barrier_compiler_units::{Halt, Units, add_function_units, add_region_units};
use lam_bytecode::{Code, Kinds};
use lam_resolve_tree::{Class, Resolved, ValueType};
use std::alloc::{AllocError, AllocFailed, Global};
use want_of_memory::NoMemory;

/// Why a program has no code.
#[derive(Clone, Copy, Debug, PartialEq, Eq)]
pub enum CompileFault {
    /// This unit has more than 65,535 operations, and none before it has.
    CodeTooLong { unit: u32 },
    /// Memory was refused.
    NoMemory,
}

impl From<NoMemory> for CompileFault {
    ghost from_gives = { λ _ f. f ≡ no_memory };

    fn from(_error: NoMemory) -> CompileFault {
        CompileFault::NoMemory
    }
}

impl From<AllocError> for CompileFault {
    ghost from_gives = { λ _ f. f ≡ no_memory };

    fn from(_error: AllocError) -> CompileFault {
        CompileFault::NoMemory
    }
}

impl<T: Drop> From<AllocFailed<T>> for CompileFault {
    ghost from_gives = { λ _ f. f ≡ no_memory };

    fn from(_failed: AllocFailed<T>) -> CompileFault {
        CompileFault::NoMemory
    }
}

/// The code of a program. It is within the limits of the language, so each of its numbers is one of 32 bits.
///
/// # Errors
///
/// `CodeTooLong` with the number of the first unit that has more than 65,535 operations; `NoMemory`.
pub fn emit(alloc: Global, program: &Resolved) -> Result<Code, CompileFault>
    requires typed { IsTypedTree (resolved_tree program.now) }
    requires slots { SlotsDiffer (resolved_tree program.now) }
    requires regions { AreNumbered (resolved_tree program.now) }
    requires limits { WithinLimits (resolved_tree program.now) }
    ensures ok { IfOk result (λ code. compiled (resolved_tree program.now) ≡ Ok code) }
    ensures sound { IfOk result (λ code. IsCode code) }
    ensures fault { IfErr result (λ f. IsFaultOf f (compiled (resolved_tree program.now))) }
{
    let mut units = Units::new(alloc);
    add_function_units(&mut units, alloc, &program.functions);
    add_region_units(&mut units, alloc, &program.functions);
    match units.finish() {
        Ok(parts) => {
            let classes = classes_of(alloc, &program.classes)?;
            Ok(Code::new(parts.units, parts.constants, classes))
        }
        Err(Halt::TooLong { unit }) => Err(CompileFault::CodeTooLong { unit }),
        Err(Halt::Wide) => unreachable!(),
        Err(Halt::NoMemory) => Err(CompileFault::NoMemory),
    }
}

/// The kinds of each class's fields.
fn classes_of(alloc: Global, classes: &Vec<Class>) -> Result<Vec<Kinds>, NoMemory>
    ensures { IfOk result (λ v. v.items ≡ map (λ ts. map kind_of ts) (classes_tree classes.now.items)) }
{
    let mut all = Vec::new(alloc);
    for class in classes {
        all.push(kinds_of(alloc, &class.fields)?)?;
    }
    Ok(all)
}

/// The kinds of fields.
fn kinds_of(alloc: Global, types: &Vec<ValueType>) -> Result<Kinds, NoMemory>
    ensures { IfOk result (λ ks. ks ≡ map kind_of (types_tree types.now.items)) }
{
    let mut kinds = Vec::new(alloc);
    for ty in types {
        kinds.push(kind_of(ty))?;
    }
    Ok(Kinds::from_vec(kinds))
}
