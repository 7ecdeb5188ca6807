//! The sweeps of a unit, with one description in memory along straight code.
//!
//! What falls from an operation to the next one is not stored: it is changed in place. What a jump brings to an address
//! further on stands in a table until the sweep comes there, which takes it. What jumps bring back, and the starts, are
//! kept in another, from sweep to sweep. So a description stands in memory only for a jump that has not landed yet, for a
//! target of a jump back, or for a start. What stands after the last sweep is what stands after the last round.

ghost use Rattle.std.specs.Prelude.{◌≡◌, ℕ, ◌<◌, ◌^◌, ◌++◌, ◌∷◌, [], length, slice_get, slice_set, Some, None, Option, OnOk, IfOk, IsFalse};
ghost use Rattle.guarded_code.specs.Rounds.{Sent, blank};
ghost use Rattle.guarded_code.specs.Descriptions.{Description as Plain};
ghost use Rattle.code_verify.specs.Redundant.{is_redundant, redundant_in};
ghost use Rattle.code_verify.specs.Sweeps.{falls, jumps, arrived, acted, onward, Lands, Brought, Lowers, Ends};

use crate::rounds::{RoundFault, blank_table, either, first_table, into};
use code_verify_tables::{Current, Description, change_of};
use lam_bytecode::{Code, CodeUnit, Op};
use std::alloc::Global;
use std::mem::replace;
use want_of_memory::NoMemory;

/// Whether the next address may come next.
fn falls(op: Op) -> bool
    ensures { result ≡ falls op }
{
    match op {
        Op::Jump(_) | Op::Return | Op::Throw | Op::LeaveRegion => false,
        _ => true,
    }
}

/// The address that an operation jumps to.
fn target(op: Op) -> Option<u32>
    ensures { result ≡ jumps op }
{
    match op {
        Op::Jump(to) | Op::JumpIfFalse(to) => Some(to),
        _ => None,
    }
}

/// What falls to an address meets what jumps brought there.
fn arrive(
    at: u32,
    fallen: Option<Current>,
    brought: Option<Description>,
) -> Result<Option<Current>, RoundFault>
    ensures { IfOk result (λ row. arrived fallen brought ≡ Some row) }
{
    match brought {
        None => Ok(fallen),
        Some(brought) => match fallen {
            None => Ok(Some(Current::of(brought))),
            Some(fallen) => met(at, fallen, brought),
        },
    }
}

fn met(at: u32, fallen: Current, brought: Description) -> Result<Option<Current>, RoundFault>
    ensures { IfOk result (λ row. arrived (Some fallen) (Some brought) ≡ Some row) }
{
    let mut here = fallen.description()?;
    match here.meet(&brought) {
        None => Err(RoundFault::Depth(at)),
        Some(_) => Ok(Some(Current::of(here))),
    }
}

/// What stands at an address, which is taken from there.
fn taken(table: &mut Vec<Option<Description>>, at: usize) -> Option<Description>
    requires { at < length table.old.items }
    ensures is { slice_get table.old.items at ≡ Some result }
    ensures left { table.new.items ≡ slice_set table.old.items at None }
{
    replace(&mut table[at], None)
}

/// A copy of what stands at an address.
fn copied(table: &[Option<Description>], at: usize) -> Result<Option<Description>, NoMemory>
    requires { at < length table.now }
    ensures { IfOk result (λ o. slice_get table.now at ≡ Some o) }
{
    match &table[at] {
        None => Ok(None),
        Some(here) => Ok(Some(here.copy()?)),
    }
}

/// What the operation of an address leaves of what stands there.
fn act(code: &Code, at: u32, op: Op, row: Option<Current>) -> Result<Option<Current>, RoundFault>
    ensures { IfOk result (λ left. acted code.now op row ≡ Some left) }
{
    match row {
        None => Ok(None),
        Some(mut current) => {
            if current.change(change_of(code, op))? {
                Ok(Some(current))
            } else {
                Err(RoundFault::Depth(at))
            }
        }
    }
}

/// A jump brings what is left to its target; tells whether that changed what is kept.
fn jump(
    at: usize,
    op: Op,
    left: &Option<Current>,
    kept: &mut Vec<Option<Description>>,
    ahead: &mut Vec<Option<Description>>,
) -> Result<bool, RoundFault>
    ensures brought { OnOk result ((passes : ℕ → Plain → Option (Sent Plain)) → Brought passes at left.now (jumps op) kept.old.items ahead.old.items kept.new.items ahead.new.items) }
    ensures kept_len { OnOk result (length kept.new.items ≡ length kept.old.items) }
    ensures ahead_len { OnOk result (length ahead.new.items ≡ length ahead.old.items) }
    ensures same { IfOk result (λ changed. IsFalse changed → kept.new.items ≡ kept.old.items) }
{
    match left {
        None => Ok(false),
        Some(left) => match target(op) {
            None => Ok(false),
            Some(to) => land(at, to, &left.description()?, kept, ahead),
        },
    }
}

/// A description comes to what lies ahead, where its address is further on, and else to what is kept; tells whether that
/// changed what is kept.
fn land(
    at: usize,
    to: u32,
    description: &Description,
    kept: &mut Vec<Option<Description>>,
    ahead: &mut Vec<Option<Description>>,
) -> Result<bool, RoundFault>
    ensures lands { OnOk result ((passes : ℕ → Plain → Option (Sent Plain)) → Lands passes at to description.now kept.old.items ahead.old.items kept.new.items ahead.new.items) }
    ensures kept_len { OnOk result (length kept.new.items ≡ length kept.old.items) }
    ensures ahead_len { OnOk result (length ahead.new.items ≡ length ahead.old.items) }
    ensures same { IfOk result (λ changed. IsFalse changed → kept.new.items ≡ kept.old.items) }
{
    if at < to as usize {
        into(ahead, to, description)?;
        Ok(false)
    } else {
        into(kept, to, description)
    }
}

/// What falls to the next address.
fn onward(op: Op, left: Option<Current>) -> Option<Current>
    ensures { result ≡ onward op left }
{
    match left {
        None => None,
        Some(left) => if falls(op) { Some(left) } else { None },
    }
}

fn is_redundant(op: Op, row: &Option<Current>) -> bool
    ensures { result ≡ is_redundant op row.now }
{
    match row {
        None => false,
        Some(here) => here.tests_again(op),
    }
}

fn note(flags: &mut Vec<bool>, flag: bool) -> Result<(), NoMemory>
    ensures { OnOk result (flags.new.items ≡ flags.old.items ++ flag ∷ []) }
{
    flags.push(flag)?;
    Ok(())
}

/// One sweep, which flags the redundant barriers; tells whether a jump brought something anew to what is kept.
fn one_sweep(
    code: &Code,
    ops: &[Op],
    kept: &mut Vec<Option<Description>>,
    ahead: &mut Vec<Option<Description>>,
    flags: &mut Vec<bool>,
) -> Result<bool, RoundFault>
    requires len { length kept.old.items ≡ length ops.now }
    requires blank { ahead.old.items ≡ blank Plain (length ops.now) }
    requires room { length ops.now < 2 ^ 32 }
    ensures len { OnOk result (length kept.new.items ≡ length ops.now) }
    ensures lowers { OnOk result (Lowers code.now ops.now kept.old.items kept.new.items) }
    ensures ends { IfOk result (λ changed. IsFalse changed → Ends code.now ops.now kept.new.items flags.new.items) }
{
    flags.clear();
    let mut changed = false;
    let mut fallen = None;
    for at in 0..ops.len() {
        let op = ops[at];
        let landed = arrive(at as u32, fallen, taken(ahead, at))?;
        let row = arrive(at as u32, landed, copied(kept, at)?)?;
        note(flags, is_redundant(op, &row))?;
        let left = act(code, at as u32, op, row)?;
        let anew = jump(at, op, &left, kept, ahead)?;
        changed = either(changed, anew);
        fallen = onward(op, left);
    }
    nothing_falls(fallen, ops.len() as u32)?;
    Ok(changed)
}

/// Nothing falls past the end of the unit.
fn nothing_falls(fallen: Option<Current>, end: u32) -> Result<(), RoundFault>
    ensures { OnOk result (fallen ≡ None) }
{
    match fallen {
        None => Ok(()),
        Some(_) => Err(RoundFault::Depth(end)),
    }
}

/// Of each operation of a unit whether it is a redundant barrier.
///
/// # Errors
///
/// `Depth` where two paths may not meet or an operation finds too few operands: the rounds are taken then, and no clause
/// says when it comes. `NoMemory` where memory is refused.
pub fn swept(alloc: Global, code: &Code, unit: &CodeUnit) -> Result<Vec<bool>, RoundFault>
    requires { length unit.now.ops < 2 ^ 32 }
    ensures { IfOk result (λ v. v.items ≡ redundant_in code.now unit.now) }
{
    let ops = unit.ops.as_slice();
    let mut kept = first_table(alloc, unit)?;
    let mut flags = Vec::new(alloc);
    for _i in 0..u64::MAX {
        let mut ahead = blank_table(alloc, ops.len())?;
        let changed = one_sweep(code, ops, &mut kept, &mut ahead, &mut flags)?;
        if !changed {
            return Ok(flags);
        }
    }
    Err(RoundFault::NoMemory)
}
