//! The descriptions at a unit's entry and at a region's catch place.

ghost use Rattle.std.specs.Prelude.{◌≡◌, if◌then◌else◌, nat_lt, IfOk};
ghost use Rattle.lam_bytecode.specs.Codes.{given};
ghost use Rattle.guarded_code.specs.declared.known.ValueKind.TheVariants.{Other, Unknown};
ghost use Rattle.guarded_code.specs.Descriptions.{entry_locals, entry, catching, untested};

use code_verify_tables::{Description, PackedKnown, fresh, untested};
use guarded_code::{Known, ValueKind};
use lam_bytecode::{CodeUnit, UnitKind};
use std::alloc::Global;
use want_of_memory::NoMemory;

fn given(kind: &UnitKind) -> usize
    ensures { result ≡ given kind.now }
{
    match kind {
        UnitKind::Function { takes, .. } => takes.as_slice().len(),
        UnitKind::Region { captures, .. } => *captures as usize,
    }
}

/// What is known of a local where so many are given: of those nothing, and the others are null.
fn local_at(given: usize, number: usize) -> Known
    ensures { result ≡ untested (if nat_lt number given then Unknown else Other) }
{
    if number < given {
        untested(ValueKind::Unknown)
    } else {
        untested(ValueKind::Other)
    }
}

#[tactic(auto, using(crate::proofs::Entered::entry_more))]
fn entry_locals(alloc: Global, given: usize, count: u32) -> Result<Vec<PackedKnown>, NoMemory>
    ensures { IfOk result (λ v. v.items ≡ entry_locals given count) }
{
    let mut locals = Vec::new(alloc);
    for number in 0..count {
        locals.push(PackedKnown::of(local_at(given, number as usize)))?;
    }
    Ok(locals)
}

/// What is known at the entry of a unit.
pub fn entry(alloc: Global, unit: &CodeUnit) -> Result<Description, NoMemory>
    ensures { IfOk result (λ d. d ≡ entry unit.now) }
{
    let locals = entry_locals(alloc, given(&unit.kind), unit.locals)?;
    Ok(Description::of(Vec::new(alloc), locals))
}

/// What is known at a catch place of so many locals.
#[tactic(auto, using(crate::proofs::Entered::all_given))]
pub fn catching(alloc: Global, count: u32) -> Result<Description, NoMemory>
    ensures { IfOk result (λ d. d ≡ catching count) }
{
    let mut stack = Vec::new(alloc);
    stack.push(fresh(ValueKind::Number))?;
    let locals = entry_locals(alloc, count as usize, count)?;
    Ok(Description::of(stack, locals))
}
