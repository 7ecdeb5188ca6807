//! The in-place transfer of operands and locals over an operation.
//!
//! A description is written anew at each operation, in the same memory. So nothing is allocated once it is large
//! enough.

ghost use Rattle.std.specs.Prelude.{◌≡◌, ◌<◌, ◌∷◌, length, map, slice_set, OnOk, Some};
ghost use Rattle.guarded_code.specs.Descriptions.{untested, tested, fresh};
ghost use Rattle.guarded_code.specs.Changes.{known_at, is_copy, forgotten, tested_operand, tested_copy, tested_local, at_place, put};

use crate::packed::PackedKnown;
use guarded_code::{Access, Known, Operand, ValueKind};
use want_of_memory::NoMemory;

/// A value of a kind, not tested.
pub fn untested(kind: ValueKind) -> Known
    ensures { result ≡ untested kind }
{
    Known {
        kind,
        read: false,
        write: false,
    }
}

/// The same value once it is tested.
fn tested(access: Access, known: Known) -> Known
    ensures { result ≡ tested access known }
{
    match access {
        Access::Reading => Known {
            kind: known.kind,
            read: true,
            write: known.write,
        },
        Access::Writing => Known {
            kind: known.kind,
            read: known.read,
            write: true,
        },
    }
}

/// A value that is a copy of no local.
pub fn fresh(kind: ValueKind) -> Operand
    ensures { result ≡ fresh kind }
{
    Operand {
        known: untested(kind),
        copies: None,
    }
}

pub fn is_copy(local: u32, copies: Option<u32>) -> bool
    ensures { result ≡ is_copy local copies }
{
    match copies {
        None => false,
        Some(own) => own == local,
    }
}

/// What is known of a local.
pub fn known_at(locals: &[PackedKnown], local: u32) -> Known
    ensures { result ≡ known_at locals.now local }
{
    match locals.get(local as usize) {
        None => untested(ValueKind::Unknown),
        Some(known) => {
            let known = *known;
            known.known()
        }
    }
}

/// No copy of the local.
pub fn forgotten(local: u32, operand: Operand) -> Operand
    ensures { result ≡ forgotten local operand }
{
    let copies = if is_copy(local, operand.copies) {
        None
    } else {
        operand.copies
    };
    Operand {
        known: operand.known,
        copies,
    }
}

pub fn tested_operand(access: Access, operand: Operand) -> Operand
    ensures { result ≡ tested_operand access operand }
{
    Operand {
        known: tested(access, operand.known),
        copies: operand.copies,
    }
}

/// Tested where it is a copy of that local.
pub fn tested_copy(access: Access, copies: Option<u32>, operand: Operand) -> Operand
    ensures { result ≡ tested_copy access copies operand }
{
    match copies {
        None => operand,
        Some(local) => {
            if is_copy(local, operand.copies) {
                tested_operand(access, operand)
            } else {
                operand
            }
        }
    }
}

/// The same operands.
pub fn write_operands(stack: &mut Vec<Operand>, from: &[Operand]) -> Result<(), NoMemory>
    ensures { OnOk result (stack.new.items ≡ from.now) }
{
    stack.clear();
    stack.extend_from_slice(from)?;
    Ok(())
}

/// The same locals.
pub fn write_locals(locals: &mut Vec<PackedKnown>, from: &[PackedKnown]) -> Result<(), NoMemory>
    ensures { OnOk result (locals.new.items ≡ from.now) }
{
    locals.clear();
    locals.extend_from_slice(from)?;
    Ok(())
}

/// A copy of a local on top.
pub fn write_loaded(
    stack: &mut Vec<Operand>,
    from: &[Operand],
    locals: &[PackedKnown],
    local: u32,
) -> Result<(), NoMemory>
    ensures { OnOk result (stack.new.items ≡ record { known = known_at locals.now local; copies = Some local } ∷ from.now) }
{
    stack.clear();
    stack.push(Operand {
        known: known_at(locals, local),
        copies: Some(local),
    })?;
    stack.extend_from_slice(from)?;
    Ok(())
}

/// What a trade puts on top, and the operands that it did not take.
pub fn write_traded(
    stack: &mut Vec<Operand>,
    rest: &[Operand],
    gives: Option<ValueKind>,
) -> Result<(), NoMemory>
    ensures { OnOk result (stack.new.items ≡ put gives rest.now) }
{
    match gives {
        None => write_operands(stack, rest),
        Some(kind) => {
            stack.clear();
            stack.push(fresh(kind))?;
            stack.extend_from_slice(rest)?;
            Ok(())
        }
    }
}

/// No operand is a copy of the local any more.
pub fn forget_copies(local: u32, stack: &mut Vec<Operand>)
    ensures { stack.new.items ≡ map (forgotten local) stack.old.items }
{
    for i in 0..stack.len() {
        let old = stack[i];
        stack[i] = forgotten(local, old);
    }
}

/// The copies of a local are tested.
pub fn test_copies(access: Access, copies: Option<u32>, stack: &mut Vec<Operand>)
    ensures { stack.new.items ≡ map (tested_copy access copies) stack.old.items }
{
    for i in 0..stack.len() {
        let old = stack[i];
        stack[i] = tested_copy(access, copies, old);
    }
}

/// One operand is tested.
pub fn test_operand(access: Access, at: usize, stack: &mut Vec<Operand>)
    requires { at < length stack.old.items }
    ensures { stack.new.items ≡ at_place (tested_operand access) at stack.old.items }
{
    let old = stack[at];
    stack[at] = tested_operand(access, old);
}

/// The local that an operand is a copy of is tested.
#[tactic(auto, using(crate::proofs::OnePlace::place_past))]
pub fn test_local(access: Access, copies: Option<u32>, locals: &mut Vec<PackedKnown>)
    ensures { locals.new.items ≡ tested_local access copies locals.old.items }
{
    let Some(local) = copies else {
        return;
    };
    let local = local as usize;
    if local < locals.len() {
        let old = locals[local];
        locals[local] = PackedKnown::of(tested(access, old.known()));
    }
}

/// A local's new value, where there is such a local.
#[tactic(auto, using(crate::proofs::OnePlace::set_past))]
pub fn set_local(locals: &mut Vec<PackedKnown>, local: u32, known: Known)
    ensures { locals.new.items ≡ slice_set locals.old.items local known }
{
    let local = local as usize;
    if local < locals.len() {
        locals[local] = PackedKnown::of(known);
    }
}
