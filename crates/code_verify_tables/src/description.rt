//! The description of an address, and its transfer over an operation.

ghost use Rattle.std.specs.Prelude.{◌≡◌, [], IfOk, IfNone, OnSome, IfSome, IsFalse, Some, None};
ghost use Rattle.guarded_code.specs.Descriptions.{meet};
ghost use Rattle.guarded_code.specs.Changes.{Loads, Stores, Tests, Trades};
ghost use Rattle.code_verify_tables.specs.Seen.{change_seen, places_seen};
ghost use Rattle.code_verify_tables.specs.Leaves.{Leaves};

use crate::joins::{meet_locals, meet_stacks};
use crate::packed::PackedKnown;
use crate::places::{OpChange, Places};
use crate::transfer::{
    forget_copies, set_local, test_copies, test_local, test_operand, write_loaded, write_locals,
    write_operands, write_traded,
};
use guarded_code::{Access, Operand, ValueKind};
use std::alloc::Global;
use std::marker::Model;
use want_of_memory::NoMemory;

/// What is known of the operands, the top one first, and of the locals by number.
///
/// The top stands first since a description is never pushed to: each operation writes a new one over an old one.
#[derive(Drop)]
pub struct Description {
    stack: Vec<Operand>,
    locals: Vec<PackedKnown>,
}

impl Model for Description {
    ghost use Rattle.guarded_code.specs.Descriptions.{Description as Plain};

    ghost Value = { Plain };

    ghost view = { λ d. record { stack = d.stack.items; locals = d.locals.items } };
}

impl Description {
    /// Of no operand and no local. Takes no memory.
    pub fn empty(alloc: Global) -> Description
        ensures { result ≡ record { stack = []; locals = [] } }
    {
        Description {
            stack: Vec::new(alloc),
            locals: Vec::new(alloc),
        }
    }

    /// Of these operands, the top one first, and these locals.
    pub fn of(stack: Vec<Operand>, locals: Vec<PackedKnown>) -> Description
        ensures { result ≡ record { stack = stack.items; locals = locals.items } }
    {
        Description { stack, locals }
    }

    /// The operands, the top one first.
    pub fn stack(&self) -> &[Operand]
        ensures { result.now ≡ self.now.stack }
    {
        self.stack.as_slice()
    }

    /// The operands and the locals.
    pub(crate) fn into_parts(self) -> (Vec<Operand>, Vec<PackedKnown>)
        ensures stack { result.0.items ≡ self.stack }
        ensures locals { result.1.items ≡ self.locals }
    {
        let Description { stack, locals } = self;
        (stack, locals)
    }

    /// A copy.
    ///
    /// # Errors
    ///
    /// `NoMemory` where memory is refused.
    pub fn copy(&self) -> Result<Description, NoMemory>
        ensures { IfOk result (λ d. d ≡ self.now) }
    {
        Ok(Description {
            stack: self.stack.clone()?,
            locals: self.locals.clone()?,
        })
    }

    /// Lowers the description to what both say where they meet, and tells whether that changed it; `None`, with nothing
    /// changed, where they may not meet. Takes no memory.
    pub fn meet(&mut self, other: &Description) -> Option<bool>
        ensures none { IfNone result (meet self.old other.now ≡ None) }
        ensures some { OnSome result (meet self.old other.now ≡ Some self.new) }
        ensures same { IfSome result (λ changed. IsFalse changed → self.new ≡ self.old) }
    {
        if self.stack.len() != other.stack.len() {
            return None;
        }
        if self.locals.len() != other.locals.len() {
            return None;
        }
        let stack = meet_stacks(&mut self.stack, &other.stack);
        let locals = meet_locals(&mut self.locals, &other.locals);
        Some(stack || locals)
    }

    /// Writes what an operation leaves of another description over this one, and tells whether it finds its operands.
    ///
    /// # Errors
    ///
    /// `NoMemory` where memory is refused.
    pub fn write_after(&mut self, change: OpChange, from: &Description) -> Result<bool, NoMemory>
        ensures { IfOk result (λ found. Leaves found (change_seen change) from.now self.new) }
    {
        let stack = &mut self.stack;
        let locals = &mut self.locals;
        let old_stack = from.stack.as_slice();
        let old_locals = from.locals.as_slice();
        match change {
            OpChange::Loads(local) => load(stack, locals, old_stack, old_locals, local),
            OpChange::Stores(local) => store(stack, locals, old_stack, old_locals, local),
            OpChange::Tests(access, depth) => {
                bar(stack, locals, old_stack, old_locals, access, depth)
            }
            OpChange::Trades(takes, gives) => {
                trade(stack, locals, old_stack, old_locals, takes, gives)
            }
        }
    }
}

fn load(
    stack: &mut Vec<Operand>,
    locals: &mut Vec<PackedKnown>,
    old_stack: &[Operand],
    old_locals: &[PackedKnown],
    local: u32,
) -> Result<bool, NoMemory>
    ensures { IfOk result (λ found. Leaves found (Loads local) (record { stack = old_stack.now; locals = old_locals.now }) (record { stack = stack.new.items; locals = locals.new.items })) }
{
    write_loaded(stack, old_stack, old_locals, local)?;
    write_locals(locals, old_locals)?;
    Ok(true)
}

fn store(
    stack: &mut Vec<Operand>,
    locals: &mut Vec<PackedKnown>,
    old_stack: &[Operand],
    old_locals: &[PackedKnown],
    local: u32,
) -> Result<bool, NoMemory>
    ensures { IfOk result (λ found. Leaves found (Stores local) (record { stack = old_stack.now; locals = old_locals.now }) (record { stack = stack.new.items; locals = locals.new.items })) }
{
    if old_stack.is_empty() {
        return Ok(false);
    }
    let top = old_stack[0];
    write_operands(stack, &old_stack[1..])?;
    forget_copies(local, stack);
    write_locals(locals, old_locals)?;
    set_local(locals, local, top.known);
    Ok(true)
}

fn bar(
    stack: &mut Vec<Operand>,
    locals: &mut Vec<PackedKnown>,
    old_stack: &[Operand],
    old_locals: &[PackedKnown],
    access: Access,
    depth: u32,
) -> Result<bool, NoMemory>
    ensures { IfOk result (λ found. Leaves found (Tests access depth) (record { stack = old_stack.now; locals = old_locals.now }) (record { stack = stack.new.items; locals = locals.new.items })) }
{
    let at = depth as usize;
    if at >= old_stack.len() {
        return Ok(false);
    }
    let copies = old_stack[at].copies;
    write_operands(stack, old_stack)?;
    test_copies(access, copies, stack);
    test_operand(access, at, stack);
    write_locals(locals, old_locals)?;
    test_local(access, copies, locals);
    Ok(true)
}

fn trade(
    stack: &mut Vec<Operand>,
    locals: &mut Vec<PackedKnown>,
    old_stack: &[Operand],
    old_locals: &[PackedKnown],
    takes: Places,
    gives: Option<ValueKind>,
) -> Result<bool, NoMemory>
    ensures { IfOk result (λ found. Leaves found (Trades (places_seen takes) gives) (record { stack = old_stack.now; locals = old_locals.now }) (record { stack = stack.new.items; locals = locals.new.items })) }
{
    match takes.count_within(old_stack.len()) {
        None => Ok(false),
        Some(taken) => {
            write_traded(stack, &old_stack[taken..], gives)?;
            write_locals(locals, old_locals)?;
            Ok(true)
        }
    }
}
