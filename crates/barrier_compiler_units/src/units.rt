//! The growing list of units.

ghost use Rattle.std.specs.Prelude.{◌≡◌, ◌⊎◌, ◌<◌, ◌≤◌, ◌*◌, List, [], ◌∷◌, length, map, None, Ok, Err, IfOk, IfErr};
ghost use Rattle.std.specs.List.{AllByRecursion};
ghost use Rattle.lam_bytecode.specs.Codes.{IsConstant};
ghost use Rattle.lam_meaning.specs.Scheme.{Draft};
ghost use Rattle.barrier_compiler_ops.specs.Views.{flat_view};
ghost use Rattle.barrier_compiler_units.specs.Adds.{Adds, IsDraft, made_of, most_units};
ghost use Rattle.barrier_compiler_units.specs.Views.{HasRoom, AddsUnit};
ghost use Rattle.barrier_compiler_units.specs.declared.units.Halt.TheVariants.{NoMemory as no_memory};
ghost use Rattle.lam_meaning.specs.Long.{most_operations};

use crate::pool::{Pool, number_code};
use barrier_compiler_ops::{Buffer, Instruction, Stop};
use lam_bytecode::{CodeUnit, Ops, UnitKind};
use lam_value::Values;
use std::alloc::Global;
use std::marker::Model;

/// More units than any checked program has.
const MOST_UNITS: usize = 65536;

/// Why a program has no code.
#[derive(Clone, Copy, Debug, PartialEq, Eq)]
pub enum Halt {
    /// This unit, and none before it, has more than 65,535 operations.
    TooLong { unit: u32 },
    /// It has 65,536 units, or names something by a number of more than 32 bits. No checked program does.
    Wide,
    /// Memory was refused.
    NoMemory,
}

/// The units so far and their constants, or why they are given up.
#[derive(Drop)]
pub struct Units {
    made: Vec<CodeUnit>,
    pool: Pool,
    fault: Option<Halt>,
}

impl Model for Units {
    ghost use Rattle.barrier_compiler_units.specs.Adds.{Stage, coded_stage};

    ghost Value = { Stage };

    ghost coded = { coded_stage };

    ghost use Rattle.barrier_compiler_units.specs.Views.{stage_of, HasRoom};

    ghost view = { λ u. stage_of u.made.items u.pool u.fault };

    ghost invariant = { λ u. HasRoom u.made.items u.pool u.fault };
}

/// What units come to.
#[derive(Drop)]
pub struct Parts {
    pub units: Vec<CodeUnit>,
    pub constants: Values,
}

impl Units {
    /// No units yet. Takes no memory.
    pub fn new(alloc: Global) -> Units
        ensures { result ≡ Ok (made_of [] []) }
    {
        Units {
            made: Vec::new(alloc),
            pool: Pool::new(alloc),
            fault: None,
        }
    }

    /// Adds a unit of this code.
    pub fn add(&mut self, kind: UnitKind, locals: u32, code: Buffer)
        ensures { (d : Draft) → IsDraft code kind locals d → Adds self.old self.new (d ∷ []) }
    {
        if self.fault.is_none() {
            self.fault = add_unit(&mut self.made, &mut self.pool, kind, locals, code);
        }
    }

    /// Gives up for want of memory.
    pub fn give_up(&mut self)
        ensures { (ds : List Draft) → Adds self.old self.new ds }
    {
        if self.fault.is_none() {
            self.fault = Some(Halt::NoMemory);
        }
    }

    /// The units and their constants.
    ///
    /// # Errors
    ///
    /// Why they were given up, or `NoMemory`.
    pub fn finish(self) -> Result<Parts, Halt>
        ensures parts { IfOk result (λ p. self ≡ Ok (made_of p.units.items p.constants)) }
        ensures constants { IfOk result (λ p. AllByRecursion IsConstant p.constants) }
        ensures room { IfOk result (λ p. length p.constants ≤ most_operations * length p.units.items) }
        ensures count { IfOk result (λ p. length p.units.items ≤ most_units) }
        ensures err { IfErr result (λ h. (h ≡ no_memory) ⊎ (self ≡ Err h)) }
    {
        match self.fault {
            None => parts_of(self.made, &self.pool),
            Some(why) => Err(why),
        }
    }
}

fn parts_of(units: Vec<CodeUnit>, pool: &Pool) -> Result<Parts, Halt>
    ensures units { IfOk result (λ p. p.units.items ≡ units.items) }
    ensures pool { IfOk result (λ p. p.constants ≡ pool.now) }
    ensures constants { IfOk result (λ p. AllByRecursion IsConstant p.constants) }
    ensures err { IfErr result (λ h. h ≡ no_memory) }
{
    match pool.values() {
        Ok(constants) => Ok(Parts { units, constants }),
        Err(_) => Err(Halt::NoMemory),
    }
}

fn add_unit(
    made: &mut Vec<CodeUnit>,
    pool: &mut Pool,
    kind: UnitKind,
    locals: u32,
    code: Buffer,
) -> Option<Halt>
    requires { HasRoom made.old.items pool.old None }
    ensures { AddsUnit made.old.items pool.old made.new.items pool.new result code kind locals }
{
    if made.len() >= MOST_UNITS {
        return Some(Halt::Wide);
    }
    let unit = made.len() as u32;
    match code.finish() {
        Ok(code) => add_code(made, pool, kind, locals, code.as_slice()),
        Err(Stop::TooLong) => Some(Halt::TooLong { unit }),
        Err(Stop::Wide) => Some(Halt::Wide),
        Err(Stop::NoMemory) => Some(Halt::NoMemory),
    }
}

fn add_code(
    made: &mut Vec<CodeUnit>,
    pool: &mut Pool,
    kind: UnitKind,
    locals: u32,
    code: &[Instruction],
) -> Option<Halt>
    requires room { HasRoom made.old.items pool.old None }
    requires units { length made.old.items < most_units }
    requires code { length code.now ≤ most_operations }
    ensures { AddsUnit made.old.items pool.old made.new.items pool.new result (Ok (map flat_view code.now)) kind locals }
{
    let alloc = *made.allocator();
    match number_code(pool, code, alloc) {
        Ok(ops) => {
            let unit = CodeUnit {
                kind,
                locals,
                ops: Ops::from_vec(ops),
            };
            match made.push(unit) {
                Ok(()) => None,
                Err(_) => Some(Halt::NoMemory),
            }
        }
        Err(_) => Some(Halt::NoMemory),
    }
}
