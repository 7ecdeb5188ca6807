//! The instruction buffer of a unit.

ghost use Rattle.std.specs.Prelude.{◌≡◌, ◌≤◌, length, map, slice_set, [], Ok, Err, IfOk, IfErr};
ghost use Rattle.lam_bytecode.specs.declared.op.Op.TheVariants.{Load, Store, Call, GetField, PutField, NewObject, EnterRegion, Spawn};
ghost use Rattle.lam_meaning.specs.Pieces.{Pieces, puts, one, op, an_op};
ghost use Rattle.barrier_compiler_ops.specs.Emits.{Emits, IsOperand, IsAt, IsCount, stopped, pointed};
ghost use Rattle.barrier_compiler_ops.specs.Views.{constant_value, flat_view, piece_view, PutsLast};
ghost use Rattle.lam_meaning.specs.Long.{most_operations};

use crate::instruction::{Constant, Instruction};
use lam_bytecode::Op;
use std::alloc::Global;
use std::marker::Model;

/// The most operations of a unit.
const MOST_OPERATIONS: usize = 65535;

/// Why a unit has no code.
#[derive(Clone, Copy, Debug, PartialEq, Eq)]
pub enum Stop {
    /// It has more than 65,535 operations.
    TooLong,
    /// It names something by a number of more than 32 bits. No checked program does.
    Wide,
    /// Memory was refused.
    NoMemory,
}

/// A unit's code so far, or why it is given up.
///
/// A buffer that gave up stays as it is, whatever is put into it.
#[derive(Drop)]
pub struct Buffer {
    items: Vec<Instruction>,
    fault: Option<Stop>,
}

impl Model for Buffer {
    ghost use Rattle.std.specs.Prelude.{◌≤◌, length};
    ghost use Rattle.barrier_compiler_ops.specs.Emits.{State, coded_state};

    ghost Value = { State };

    ghost coded = { coded_state };

    ghost use Rattle.lam_meaning.specs.Long.{most_operations};
    ghost use Rattle.barrier_compiler_ops.specs.Views.{state_of};

    ghost view = { λ b. state_of b.items.items b.fault };

    ghost invariant = { λ b. length b.items.items ≤ most_operations };
}

impl Buffer {
    /// No code yet. Takes no memory.
    pub fn new(alloc: Global) -> Buffer
        ensures { result ≡ Ok [] }
    {
        Buffer {
            items: Vec::new(alloc),
            fault: None,
        }
    }

    /// The address of what is put next.
    pub fn len(&self) -> u32
        ensures { IsAt self.now result }
    {
        self.items.len() as u32
    }

    /// So many things whose code was put here, as a number of 32 bits: there are not more of them than instructions.
    pub fn count(&self, things: usize) -> u32
        ensures { IsCount self.now result things }
    {
        if things <= self.items.len() {
            things as u32
        } else {
            0
        }
    }

    /// Puts an operation.
    pub fn push(&mut self, operation: Op)
        ensures { Emits self.old self.new (op operation) }
    {
        self.put(Instruction::Op(operation))
    }

    /// Puts a constant.
    pub fn constant(&mut self, constant: Constant)
        ensures { Emits self.old self.new (one (puts (constant_value constant))) }
    {
        self.put(Instruction::Constant(constant))
    }

    fn put(&mut self, last: Instruction)
        ensures { Emits self.old self.new (one (piece_view last)) }
    {
        if self.fault.is_none() {
            self.fault = put_last(&mut self.items, last);
        }
    }

    /// Puts a jump whose target is not known yet, and gives its address.
    pub fn jump(&mut self, operation: Op) -> u32
        ensures at { IsAt self.old result }
        ensures emits { Emits self.old self.new (op operation) }
    {
        let at = self.len();
        self.push(operation);
        at
    }

    /// Puts an operation over the one at an address, where there is one.
    pub fn point(&mut self, at: u32, operation: Op)
        ensures { self.new ≡ pointed self.old at operation }
    {
        point_at(&mut self.items, at as usize, operation)
    }

    /// Gives up for want of memory.
    pub fn give_up(&mut self)
        ensures { (ps : Pieces) → Emits self.old self.new ps }
    {
        self.stop(Stop::NoMemory)
    }

    fn stop(&mut self, why: Stop)
        ensures { self.new ≡ stopped self.old why }
    {
        if self.fault.is_none() {
            self.fault = Some(why);
        }
    }

    /// A number as the operand of an operation.
    pub fn operand(&mut self, number: usize) -> u32
        ensures { IsOperand self.old self.new result number }
    {
        match u32::try_from(number) {
            Ok(operand) => operand,
            Err(_) => {
                self.stop(Stop::Wide);
                0
            }
        }
    }

    pub fn load(&mut self, slot: usize)
        ensures { Emits self.old self.new (op (Load slot)) }
    {
        let slot = self.operand(slot);
        self.push(Op::Load(slot))
    }

    pub fn store(&mut self, slot: usize)
        ensures { Emits self.old self.new (op (Store slot)) }
    {
        let slot = self.operand(slot);
        self.push(Op::Store(slot))
    }

    pub fn call(&mut self, function: usize)
        ensures { Emits self.old self.new (op (Call function)) }
    {
        let function = self.operand(function);
        self.push(Op::Call(function))
    }

    pub fn get_field(&mut self, field: usize)
        ensures { Emits self.old self.new (op (GetField field)) }
    {
        let field = self.operand(field);
        self.push(Op::GetField(field))
    }

    pub fn put_field(&mut self, field: usize)
        ensures { Emits self.old self.new (op (PutField field)) }
    {
        let field = self.operand(field);
        self.push(Op::PutField(field))
    }

    pub fn new_object(&mut self, class: usize)
        ensures { Emits self.old self.new (op (NewObject class)) }
    {
        let class = self.operand(class);
        self.push(Op::NewObject(class))
    }

    pub fn enter_region(&mut self, region: usize)
        ensures { Emits self.old self.new (op (EnterRegion region)) }
    {
        let region = self.operand(region);
        self.push(Op::EnterRegion(region))
    }

    pub fn spawn(&mut self, function: usize)
        ensures { Emits self.old self.new (op (Spawn function)) }
    {
        let function = self.operand(function);
        self.push(Op::Spawn(function))
    }

    /// The code.
    ///
    /// # Errors
    ///
    /// Why it was given up.
    pub fn finish(self) -> Result<Vec<Instruction>, Stop>
        ensures code { IfOk result (λ v. self ≡ Ok (map flat_view v.items)) }
        ensures room { IfOk result (λ v. length v.items ≤ most_operations) }
        ensures err { IfErr result (λ f. self ≡ Err f) }
    {
        match self.fault {
            None => Ok(self.items),
            Some(why) => Err(why),
        }
    }
}

/// Puts an instruction at the end, or says why not.
fn put_last(items: &mut Vec<Instruction>, last: Instruction) -> Option<Stop>
    requires { length items.old.items ≤ most_operations }
    ensures { PutsLast items.old.items items.new.items last result }
{
    if items.len() == MOST_OPERATIONS {
        return Some(Stop::TooLong);
    }
    match items.push(last) {
        Ok(()) => None,
        Err(_) => Some(Stop::NoMemory),
    }
}

fn point_at(items: &mut Vec<Instruction>, at: usize, operation: Op)
    ensures items { map flat_view items.new.items ≡ slice_set (map flat_view items.old.items) at (an_op operation) }
    ensures room { length items.new.items ≡ length items.old.items }
{
    if at < items.len() {
        items[at] = Instruction::Op(operation);
    }
}
