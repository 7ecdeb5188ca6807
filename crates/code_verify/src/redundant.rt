//! The redundant barriers of a unit.

ghost use Rattle.std.specs.Prelude.{◌≡◌, ◌<◌, ◌^◌, false, length, replicate, IfOk};
ghost use Rattle.std.specs.List.{list_any};
ghost use Rattle.code_verify.specs.Redundant.{is_barrier, redundant, redundant_in};

use crate::described::tests_again_row;
use crate::rounds::{RoundFault, describe_unit};
use crate::sweep::swept;
use code_verify_tables::Description;
use lam_bytecode::{Code, CodeUnit, Op};
use std::alloc::Global;
use want_of_memory::NoMemory;

fn is_barrier(op: Op) -> bool
    ensures { result ≡ is_barrier op }
{
    match op {
        Op::ReadBarrier(_) | Op::WriteBarrier(_) => true,
        _ => false,
    }
}

#[tactic(auto, using(crate::proofs::Flags::any_skip, crate::proofs::Flags::any_hit, crate::proofs::Flags::any_end))]
fn has_barrier(ops: &[Op]) -> bool
    ensures { result ≡ list_any is_barrier ops.now }
{
    for at in 0..ops.len() {
        let op = ops[at];
        if is_barrier(op) {
            return true;
        }
    }
    false
}

/// No operation of so many is a redundant barrier.
#[tactic(auto, using(crate::proofs::Flags::one_more_false))]
fn none_redundant(alloc: Global, count: usize) -> Result<Vec<bool>, NoMemory>
    ensures { IfOk result (λ v. v.items ≡ replicate count false) }
{
    let mut flags = Vec::with_capacity(alloc, count)?;
    for _i in 0..count {
        flags.push(false)?;
    }
    Ok(flags)
}

/// Of each operation whether it is a redundant barrier, by the descriptions.
#[tactic(auto, using(crate::proofs::Flags::flags_end))]
fn flags_of(alloc: Global, ops: &[Op], table: &[Option<Description>]) -> Result<Vec<bool>, NoMemory>
    ensures { IfOk result (λ v. v.items ≡ redundant ops.now table.now) }
{
    let mut flags = Vec::with_capacity(alloc, ops.len())?;
    for at in 0..ops.len() {
        let op = ops[at];
        flags.push(tests_again_row(op, table, at))?;
    }
    Ok(flags)
}

/// Of each operation of a unit whether it is a redundant barrier. A unit without a barrier is not described.
///
/// # Errors
///
/// `NoMemory` where memory is refused.
#[tactic(auto, using(crate::proofs::Flags::without_barrier))]
pub fn redundant_barriers(
    alloc: Global,
    code: &Code,
    unit: &CodeUnit,
) -> Result<Vec<bool>, NoMemory>
    requires { length unit.now.ops < 2 ^ 32 }
    ensures { IfOk result (λ v. v.items ≡ redundant_in code.now unit.now) }
{
    let ops = unit.ops.as_slice();
    if !has_barrier(ops) {
        return Ok(none_redundant(alloc, ops.len())?);
    }
    match swept(alloc, code, unit) {
        Ok(flags) => Ok(flags),
        Err(RoundFault::NoMemory) => Err(NoMemory),
        Err(RoundFault::Depth(_)) => by_rounds(alloc, code, unit),
    }
}

/// The same by the rounds, for a unit with a break of depth.
#[tactic(auto, using(crate::proofs::Flags::where_broken, crate::proofs::Flags::where_found))]
fn by_rounds(alloc: Global, code: &Code, unit: &CodeUnit) -> Result<Vec<bool>, NoMemory>
    requires { length unit.now.ops < 2 ^ 32 }
    ensures { IfOk result (λ v. v.items ≡ redundant_in code.now unit.now) }
{
    let ops = unit.ops.as_slice();
    match describe_unit(alloc, code, unit) {
        Err(RoundFault::NoMemory) => Err(NoMemory),
        Err(RoundFault::Depth(_)) => Ok(none_redundant(alloc, ops.len())?),
        Ok(table) => Ok(flags_of(alloc, ops, table.as_slice())?),
    }
}
