//! The first break of a unit, and of a code.

ghost use Rattle.std.specs.Prelude.{◌≡◌, ◌<◌, ◌^◌, length, option_map, IfOk};
ghost use Rattle.lam_bytecode.specs.Codes.{IsCode};
ghost use Rattle.guarded_code.specs.Breaks.{takes_kinds, is_guarded, passes_where, first_failing, break_found, unit_break, first_code_break};
ghost use Rattle.code_verify.specs.Faults.{break_seen};
ghost use Rattle.guarded_code.specs.Changes.{descriptions};
ghost use Rattle.code_verify.specs.UnitBreaks.{unit_break_seen, table_break};

use crate::fault::{CodeBreak, Rule};
use crate::rounds::{RoundFault, describe_unit};
use crate::targets::first_bad_target;
use code_verify_tables::{Description, is_guarded, takes_kinds};
use lam_bytecode::{Code, CodeUnit, Op};
use std::alloc::Global;
use want_of_memory::NoMemory;

/// A broken rule with its address, in a unit.
#[derive(Clone, Copy, Debug, PartialEq, Eq)]
pub struct UnitBreak {
    pub rule: Rule,
    pub at: u32,
}

/// Whether an operation takes what it finds; one without a description finds nothing.
fn takes_row(code: &Code, op: Op, row: &Option<Description>) -> bool
    ensures { result ≡ passes_where (takes_kinds code.now) op row.now }
{
    match row {
        None => true,
        Some(here) => takes_kinds(code, op, here),
    }
}

/// Whether an operation is no access, or one that stands behind its barrier; one without a description is.
fn guards_row(op: Op, row: &Option<Description>) -> bool
    ensures { result ≡ passes_where is_guarded op row.now }
{
    match row {
        None => true,
        Some(here) => is_guarded(op, here),
    }
}

/// The first address whose operation does not take what it finds.
#[tactic(auto, using(crate::proofs::Rows::row_passes, crate::proofs::Rows::row_fails, crate::proofs::Rows::rows_end, crate::proofs::Rows::ops_end))]
fn first_wrong_kind(code: &Code, ops: &[Op], table: &[Option<Description>]) -> Option<u32>
    requires { length ops.now < 2 ^ 32 }
    ensures { result ≡ first_failing (takes_kinds code.now) 0 ops.now table.now }
{
    for i in 0..ops.len() {
        let op = ops[i];
        match table.get(i) {
            None => return None,
            Some(row) => {
                if !takes_row(code, op, row) {
                    return Some(i as u32);
                }
            }
        }
    }
    None
}

/// The first address whose access stands behind no barrier.
#[tactic(auto, using(crate::proofs::Rows::row_passes, crate::proofs::Rows::row_fails, crate::proofs::Rows::rows_end, crate::proofs::Rows::ops_end))]
fn first_unguarded(ops: &[Op], table: &[Option<Description>]) -> Option<u32>
    requires { length ops.now < 2 ^ 32 }
    ensures { result ≡ first_failing is_guarded 0 ops.now table.now }
{
    for i in 0..ops.len() {
        let op = ops[i];
        match table.get(i) {
            None => return None,
            Some(row) => {
                if !guards_row(op, row) {
                    return Some(i as u32);
                }
            }
        }
    }
    None
}

/// The first break of a unit whose rounds hold.
fn table_break(code: &Code, ops: &[Op], table: &[Option<Description>]) -> Option<UnitBreak>
    requires { length ops.now < 2 ^ 32 }
    ensures { unit_break_seen result ≡ table_break code.now ops.now table.now }
{
    match first_wrong_kind(code, ops, table) {
        Some(at) => Some(UnitBreak {
            rule: Rule::Kind,
            at,
        }),
        None => match first_unguarded(ops, table) {
            Some(at) => Some(UnitBreak {
                rule: Rule::Unguarded,
                at,
            }),
            None => None,
        },
    }
}

/// The first break of a unit whose targets are good.
fn round_break(alloc: Global, code: &Code, unit: &CodeUnit) -> Result<Option<UnitBreak>, NoMemory>
    requires { length unit.now.ops < 2 ^ 32 }
    ensures { IfOk result (λ b. unit_break_seen b ≡ break_found code.now unit.now (descriptions code.now unit.now)) }
{
    match describe_unit(alloc, code, unit) {
        Err(RoundFault::NoMemory) => Err(NoMemory),
        Err(RoundFault::Depth(at)) => Ok(Some(UnitBreak {
            rule: Rule::Depth,
            at,
        })),
        Ok(table) => Ok(table_break(code, unit.ops.as_slice(), table.as_slice())),
    }
}

/// The first break of a unit.
fn unit_break(alloc: Global, code: &Code, unit: &CodeUnit) -> Result<Option<UnitBreak>, NoMemory>
    requires { length unit.now.ops < 2 ^ 32 }
    ensures { IfOk result (λ b. unit_break_seen b ≡ unit_break code.now unit.now) }
{
    match first_bad_target(code, unit) {
        Some(at) => Ok(Some(UnitBreak {
            rule: Rule::BadTarget,
            at,
        })),
        None => round_break(alloc, code, unit),
    }
}

/// The first break of a code.
///
/// # Errors
///
/// `NoMemory` where memory is refused.
#[tactic(auto, using(crate::proofs::Units::unit_short, crate::proofs::Units::unit_holds, crate::proofs::Units::unit_breaks, crate::proofs::Units::units_end), unfolding(guarded_code::specs::Breaks::first_code_break))]
pub fn code_break(alloc: Global, code: &Code) -> Result<Option<CodeBreak>, NoMemory>
    requires { IsCode code.now }
    ensures { IfOk result (λ b. option_map break_seen b ≡ first_code_break code.now) }
{
    let units = code.units();
    for n in 0..units.len() {
        match unit_break(alloc, code, &units[n])? {
            None => {}
            Some(broken) => {
                return Ok(Some(CodeBreak {
                    rule: broken.rule,
                    unit: n as u32,
                    at: broken.at,
                }));
            }
        }
    }
    Ok(None)
}
