//! A description that operations change in place.
//!
//! Along straight code an operation changes the top of the stack. So the stack is a deque with the top in front. Only a
//! store, and a barrier on a copy of a local, go through the stack.

ghost use Rattle.std.specs.Prelude.{◌≡◌, ◌<◌, ◌≤◌, ◌∷◌, length, map, drop, slice_get, Some, IfOk, OnOk, IsFalse};
ghost use Rattle.guarded_code.specs.Breaks.{is_tested_at};
ghost use Rattle.guarded_code.specs.Changes.{Loads, Stores, Tests, Trades, known_at, forgotten, tested_operand, tested_copy, at_place, put};
ghost use Rattle.guarded_code.specs.Breaks.{tests_again};
ghost use Rattle.code_verify_tables.specs.Leaves.{Leaves};
ghost use Rattle.code_verify_tables.specs.Seen.{change_seen, places_seen};

use crate::description::Description;
use crate::kinds::is_tested;
use crate::packed::PackedKnown;
use crate::places::{OpChange, Places};
use crate::transfer::{
    forgotten, fresh, is_copy, known_at, set_local, test_local, tested_copy, tested_operand,
};
use guarded_code::{Access, Operand, ValueKind};
use lam_bytecode::Op;
use std::collections::VecDeque;
use std::marker::Model;
use want_of_memory::NoMemory;

/// What is known of the operands, the top one first, and of the locals by number.
#[derive(Drop)]
pub struct Current {
    stack: VecDeque<Operand>,
    locals: Vec<PackedKnown>,
}

impl Model for Current {
    ghost use Rattle.guarded_code.specs.Descriptions.{Description as Plain};

    ghost Value = { Plain };

    ghost view = { λ c. record { stack = c.stack.items; locals = c.locals.items } };
}

impl Current {
    /// The same description. Takes no memory.
    pub fn of(description: Description) -> Current
        ensures { result ≡ description }
    {
        let (stack, locals) = description.into_parts();
        Current {
            stack: VecDeque::from_vec(stack),
            locals,
        }
    }

    /// A copy.
    ///
    /// # Errors
    ///
    /// `NoMemory` where memory is refused.
    pub fn description(&self) -> Result<Description, NoMemory>
        ensures { IfOk result (λ d. d ≡ self.now) }
    {
        let stack = copied(&self.stack)?;
        Ok(Description::of(stack, self.locals.clone()?))
    }

    /// Changes the description to what an operation leaves of it, and tells whether it finds its operands.
    ///
    /// # Errors
    ///
    /// `NoMemory` where memory is refused.
    pub fn change(&mut self, change: OpChange) -> Result<bool, NoMemory>
        ensures { IfOk result (λ found. Leaves found (change_seen change) self.old self.new) }
    {
        let stack = &mut self.stack;
        let locals = &mut self.locals;
        match change {
            OpChange::Loads(local) => load(stack, locals, local),
            OpChange::Stores(local) => Ok(store(stack, locals, local)),
            OpChange::Tests(access, depth) => Ok(bar(stack, locals, access, depth)),
            OpChange::Trades(takes, gives) => trade(stack, locals, takes, gives),
        }
    }

    /// Whether the operation is a barrier whose operand was tested by its rule already.
    pub fn tests_again(&self, op: Op) -> bool
        ensures { result ≡ tests_again op self.now }
    {
        let stack = &self.stack;
        match op {
            Op::ReadBarrier(depth) => is_tested_in(Access::Reading, stack, depth as usize),
            Op::WriteBarrier(depth) => is_tested_in(Access::Writing, stack, depth as usize),
            _ => false,
        }
    }
}

fn is_tested_in(access: Access, stack: &VecDeque<Operand>, at: usize) -> bool
    ensures { result ≡ is_tested_at access (slice_get stack.now.items at) }
{
    match stack.get(at) {
        None => false,
        Some(operand) => is_tested(access, operand.known),
    }
}

fn copied(stack: &VecDeque<Operand>) -> Result<Vec<Operand>, NoMemory>
    ensures { IfOk result (λ v. v.items ≡ stack.now.items) }
{
    let mut out = Vec::with_capacity(*stack.allocator(), stack.len())?;
    let (front, back) = stack.as_slices();
    out.extend_from_slice(front)?;
    out.extend_from_slice(back)?;
    Ok(out)
}

/// A copy of a local is put on top.
fn push_copy(
    stack: &mut VecDeque<Operand>,
    locals: &[PackedKnown],
    local: u32,
) -> Result<(), NoMemory>
    ensures { OnOk result (stack.new.items ≡ record { known = known_at locals.now local; copies = Some local } ∷ stack.old.items) }
{
    stack.push_front(Operand {
        known: known_at(locals, local),
        copies: Some(local),
    })?;
    Ok(())
}

/// A value of that kind is put on top, or none.
fn put(gives: Option<ValueKind>, stack: &mut VecDeque<Operand>) -> Result<(), NoMemory>
    ensures { OnOk result (stack.new.items ≡ put gives stack.old.items) }
{
    match gives {
        None => Ok(()),
        Some(kind) => {
            stack.push_front(fresh(kind))?;
            Ok(())
        }
    }
}

fn load(
    stack: &mut VecDeque<Operand>,
    locals: &mut Vec<PackedKnown>,
    local: u32,
) -> Result<bool, NoMemory>
    ensures { IfOk result (λ found. Leaves found (Loads local) (record { stack = stack.old.items; locals = locals.old.items }) (record { stack = stack.new.items; locals = locals.new.items })) }
{
    push_copy(stack, locals.as_slice(), local)?;
    Ok(true)
}

#[tactic(auto, using(crate::proofs::Tops::stored_none))]
fn store(stack: &mut VecDeque<Operand>, locals: &mut Vec<PackedKnown>, local: u32) -> bool
    ensures { Leaves result (Stores local) (record { stack = stack.old.items; locals = locals.old.items }) (record { stack = stack.new.items; locals = locals.new.items }) }
{
    match stack.pop_front() {
        None => false,
        Some(top) => {
            forget_copies(local, stack);
            set_local(locals, local, top.known);
            true
        }
    }
}

fn bar(
    stack: &mut VecDeque<Operand>,
    locals: &mut Vec<PackedKnown>,
    access: Access,
    depth: u32,
) -> bool
    ensures { Leaves result (Tests access depth) (record { stack = stack.old.items; locals = locals.old.items }) (record { stack = stack.new.items; locals = locals.new.items }) }
{
    let at = depth as usize;
    if at >= stack.len() {
        return false;
    }
    let copies = stack[at].copies;
    test_copies(access, copies, stack);
    test_operand(access, at, stack);
    test_local(access, copies, locals);
    true
}

fn trade(
    stack: &mut VecDeque<Operand>,
    locals: &mut Vec<PackedKnown>,
    takes: Places,
    gives: Option<ValueKind>,
) -> Result<bool, NoMemory>
    ensures { IfOk result (λ found. Leaves found (Trades (places_seen takes) gives) (record { stack = stack.old.items; locals = locals.old.items }) (record { stack = stack.new.items; locals = locals.new.items })) }
{
    match takes.count_within(stack.len()) {
        None => Ok(false),
        Some(taken) => {
            take_off(taken, stack);
            put(gives, stack)?;
            Ok(true)
        }
    }
}

/// So many operands are taken.
#[tactic(auto, using(crate::proofs::Tops::drop_next))]
fn take_off(count: usize, stack: &mut VecDeque<Operand>)
    ensures { stack.new.items ≡ drop count stack.old.items }
{
    for _i in 0..count {
        stack.pop_front();
    }
}

/// No operand is a copy of the local any more.
fn forget_copies(local: u32, stack: &mut VecDeque<Operand>)
    ensures { stack.new.items ≡ map (forgotten local) stack.old.items }
{
    for i in 0..stack.len() {
        let old = stack[i];
        stack[i] = forgotten(local, old);
    }
}

/// The copies of a local are tested, where there is one.
fn test_copies(access: Access, copies: Option<u32>, stack: &mut VecDeque<Operand>)
    ensures { stack.new.items ≡ map (tested_copy access copies) stack.old.items }
{
    match copies {
        None => {}
        Some(local) => test_copies_of(access, local, stack),
    }
}

fn test_copies_of(access: Access, local: u32, stack: &mut VecDeque<Operand>)
    ensures { stack.new.items ≡ map (tested_copy access (Some local)) stack.old.items }
{
    let deep = untested_within(access, local, stack);
    for i in 0..deep {
        let old = stack[i];
        stack[i] = tested_copy(access, Some(local), old);
    }
}

/// How many operands there are down to the deepest copy of the local that is not tested yet.
fn untested_within(access: Access, local: u32, stack: &VecDeque<Operand>) -> usize
    ensures within { result ≤ length stack.now.items }
    ensures same { map (tested_copy access (Some local)) (drop result stack.now.items) ≡ drop result stack.now.items }
{
    let (front, back) = stack.as_slices();
    let deep = untested_in(access, local, back);
    if deep > 0 {
        front.len() + deep
    } else {
        untested_in(access, local, front)
    }
}

fn untested_in(access: Access, local: u32, part: &[Operand]) -> usize
    ensures within { result ≤ length part.now }
    ensures same { map (tested_copy access (Some local)) (drop result part.now) ≡ drop result part.now }
{
    for i in 0..part.len() {
        let at = part.len() - 1 - i;
        if is_untested_copy(access, local, part[at]) {
            return at + 1;
        }
    }
    0
}

/// Whether testing the copies of the local changes the operand.
fn is_untested_copy(access: Access, local: u32, operand: Operand) -> bool
    ensures { IsFalse result → tested_copy access (Some local) operand ≡ operand }
{
    is_copy(local, operand.copies) && !is_tested(access, operand.known)
}

/// One operand is tested.
fn test_operand(access: Access, at: usize, stack: &mut VecDeque<Operand>)
    requires { at < length stack.old.items }
    ensures { stack.new.items ≡ at_place (tested_operand access) at stack.old.items }
{
    let old = stack[at];
    stack[at] = tested_operand(access, old);
}
