//! Tests that operands suit their operation, and that an access was tested by its rule.

ghost use Rattle.std.specs.Prelude.{◌≡◌, slice_get, Some, None};
ghost use Rattle.guarded_code.specs.Descriptions.{is_tested};
ghost use Rattle.guarded_code.specs.Breaks.{may_agree, fits, all_fit, two_agree, compares, takes_kinds, is_tested_at, is_guarded};
ghost use Rattle.code_verify_tables.specs.Seen.{place_seen, places_seen};
ghost use Rattle.guarded_code.specs.Breaks.{tests_again};

use crate::changes::change_of;
use crate::description::Description;
use crate::places::{Place, Places};
use guarded_code::{Access, Known, Operand, ValueKind};
use lam_bytecode::{Code, Op};

fn may_agree(a: ValueKind, b: ValueKind) -> bool
    ensures { result ≡ may_agree a b }
{
    match a {
        ValueKind::Unknown => true,
        ValueKind::Number => match b {
            ValueKind::Unknown | ValueKind::Number => true,
            _ => false,
        },
        ValueKind::Truth => match b {
            ValueKind::Unknown | ValueKind::Truth => true,
            _ => false,
        },
        ValueKind::Other => match b {
            ValueKind::Unknown | ValueKind::Other => true,
            _ => false,
        },
    }
}

fn fits(place: Place, kind: ValueKind) -> bool
    ensures { result ≡ fits (place_seen place) kind }
{
    match place {
        Place::Any => true,
        Place::Only(want) => may_agree(want, kind),
    }
}

/// Whether each operand is of a kind that its place takes, as far as it is known.
fn all_fit(places: Places, stack: &[Operand]) -> bool
    ensures { result ≡ all_fit (places_seen places) stack.now }
{
    for i in 0..stack.len() {
        match places.at(i) {
            None => return true,
            Some(place) => {
                if !fits(place, stack[i].known.kind) {
                    return false;
                }
            }
        }
    }
    true
}

fn two_agree(stack: &[Operand]) -> bool
    ensures { result ≡ two_agree stack.now }
{
    if stack.len() < 2 {
        return true;
    }
    may_agree(stack[0].known.kind, stack[1].known.kind)
}

/// Only values of one kind are compared.
fn compares(op: Op, stack: &[Operand]) -> bool
    ensures { result ≡ compares op stack.now }
{
    match op {
        Op::Eq | Op::Ne => two_agree(stack),
        _ => true,
    }
}

/// Whether no operand is of a known kind that the operation does not take.
pub fn takes_kinds(code: &Code, op: Op, description: &Description) -> bool
    ensures { result ≡ takes_kinds code.now op description.now }
{
    let stack = description.stack();
    all_fit(change_of(code, op).wanted(), stack) && compares(op, stack)
}

pub fn is_tested(access: Access, known: Known) -> bool
    ensures { result ≡ is_tested access known }
{
    match access {
        Access::Reading => known.read,
        Access::Writing => known.write,
    }
}

fn is_tested_at(access: Access, stack: &[Operand], at: usize) -> bool
    ensures { result ≡ is_tested_at access (slice_get stack.now at) }
{
    match stack.get(at) {
        None => false,
        Some(operand) => is_tested(access, operand.known),
    }
}

/// Whether the operation is no access, or an access that finds its reference tested by its rule.
pub fn is_guarded(op: Op, description: &Description) -> bool
    ensures { result ≡ is_guarded op description.now }
{
    let stack = description.stack();
    match op {
        Op::GetField(_) => is_tested_at(Access::Reading, stack, 0),
        Op::PutField(_) => is_tested_at(Access::Writing, stack, 1),
        Op::GetElement => is_tested_at(Access::Reading, stack, 1),
        Op::PutElement => is_tested_at(Access::Writing, stack, 2),
        _ => true,
    }
}

/// Whether the operation is a barrier whose operand was tested by its rule already.
pub fn tests_again(op: Op, description: &Description) -> bool
    ensures { result ≡ tests_again op description.now }
{
    let stack = description.stack();
    match op {
        Op::ReadBarrier(depth) => is_tested_at(Access::Reading, stack, depth as usize),
        Op::WriteBarrier(depth) => is_tested_at(Access::Writing, stack, depth as usize),
        _ => false,
    }
}
