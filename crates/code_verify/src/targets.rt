//! The test of a unit's targets and of the numbers that its operations name.

ghost use Rattle.std.specs.Prelude.{◌≡◌, ◌<◌, ◌+◌, ◌^◌, length};
ghost use Rattle.guarded_code.specs.Changes.{goes};
ghost use Rattle.guarded_code.specs.Breaks.{names_something, all_within, is_well_targeted, first_failing_op, start_places, first_bad_target};
ghost use Rattle.code_verify.specs.Stops.{next_seen};

use lam_bytecode::{Code, CodeUnit, Op, UnitKind};
use thread_steps::{function_takes, region_takes};

/// The addresses that may come next.
#[derive(Clone, Copy, Debug, PartialEq, Eq)]
pub enum Next {
    Nowhere,
    One(u32),
    Two(u32, u32),
}

/// Where an operation goes on.
pub fn next_of(at: u32, op: Op) -> Next
    requires { at + 1 < 2 ^ 32 }
    ensures { next_seen result ≡ goes at op }
{
    match op {
        Op::Jump(to) => Next::One(to),
        Op::JumpIfFalse(to) => Next::Two(at + 1, to),
        Op::Return | Op::Throw | Op::LeaveRegion => Next::Nowhere,
        _ => Next::One(at + 1),
    }
}

fn is_within(next: Next, size: usize) -> bool
    ensures { result ≡ all_within size (next_seen next) }
{
    match next {
        Next::Nowhere => true,
        Next::One(a) => (a as usize) < size,
        Next::Two(a, b) => (a as usize) < size && (b as usize) < size,
    }
}

#[tactic(auto, using(crate::proofs::Going::takes_some))]
fn names_something(code: &Code, locals: u32, op: Op) -> bool
    ensures { result ≡ names_something code.now locals op }
{
    match op {
        Op::Const(k) => (k as usize) < code.constants().len(),
        Op::Load(n) | Op::Store(n) => n < locals,
        Op::Call(unit) | Op::Spawn(unit) => function_takes(code.units(), unit).is_some(),
        Op::NewObject(class) => (class as usize) < code.classes().len(),
        Op::EnterRegion(region) => region_takes(code, region).is_some(),
        _ => true,
    }
}

fn is_well_targeted(code: &Code, unit: &CodeUnit, at: u32, op: Op) -> bool
    requires { at + 1 < 2 ^ 32 }
    ensures { result ≡ is_well_targeted code.now unit.now at op }
{
    names_something(code, unit.locals, op) && is_within(next_of(at, op), unit.ops.as_slice().len())
}

fn starts_within(unit: &CodeUnit) -> bool
    ensures { result ≡ all_within (length unit.now.ops) (start_places unit.now) }
{
    let size = unit.ops.as_slice().len();
    match &unit.kind {
        UnitKind::Function { .. } => 0 < size,
        UnitKind::Region { catch_at, .. } => 0 < size && (*catch_at as usize) < size,
    }
}

#[tactic(auto, using(crate::proofs::Going::op_passes, crate::proofs::Going::op_fails, crate::proofs::Going::ops_end))]
fn first_failing_op(code: &Code, unit: &CodeUnit) -> Option<u32>
    requires { length unit.now.ops < 2 ^ 32 }
    ensures { result ≡ first_failing_op (is_well_targeted code.now unit.now) 0 unit.now.ops }
{
    let ops = unit.ops.as_slice();
    for i in 0..ops.len() {
        let at = i as u32;
        if !is_well_targeted(code, unit, at, ops[i]) {
            return Some(at);
        }
    }
    None
}

/// The first address of a unit with a bad target.
pub fn first_bad_target(code: &Code, unit: &CodeUnit) -> Option<u32>
    requires { length unit.now.ops < 2 ^ 32 }
    ensures { result ≡ first_bad_target code.now unit.now }
{
    if starts_within(unit) {
        first_failing_op(code, unit)
    } else {
        Some(0)
    }
}
