//! The descriptions of a code.

ghost use Rattle.std.specs.Prelude.{◌≡◌, ◌<◌, ◌^◌, length, option_map, slice_get, IfOk, OnOk, IfErr, IsTrue, Some};
ghost use Rattle.lam_bytecode.specs.Codes.{IsCode};
ghost use Rattle.guarded_code.specs.Breaks.{tests_again};
ghost use Rattle.code_verify.specs.Faults.{break_seen, is_describable, TellsOf};
ghost use Rattle.code_verify.specs.Tables.{table_of, tables_of, tests_again_at, again_by, op_in, row_in};

use crate::fault::{CodeBreak, Rule, VerifyFault};
use crate::rounds::{RoundFault, describe_unit};
use crate::targets::first_bad_target;
use code_verify_tables::{Description, tests_again};
use lam_bytecode::{Code, CodeUnit, Op};
use std::alloc::Global;
use std::marker::Model;
use want_of_memory::NoMemory;

/// What stands at each address of a unit.
#[derive(Drop)]
pub struct UnitTable {
    rows: Vec<Option<Description>>,
}

impl Model for UnitTable {
    ghost use Rattle.std.specs.Prelude.{List, Option};
    ghost use Rattle.guarded_code.specs.Descriptions.{Description as Plain};

    ghost Value = { List (Option Plain) };

    ghost view = { λ t. t.rows.items };
}

impl UnitTable {
    fn of(rows: Vec<Option<Description>>) -> UnitTable
        ensures { result ≡ rows.items }
    {
        UnitTable { rows }
    }

    fn rows(&self) -> &[Option<Description>]
        ensures { result.now ≡ self.now }
    {
        self.rows.as_slice()
    }
}

/// The descriptions of a code: for each unit what stands at its addresses after the last round, or nothing where a target
/// is bad or the rounds break.
#[derive(Drop)]
pub struct Described {
    tables: Vec<Option<UnitTable>>,
}

impl Model for Described {
    ghost use Rattle.std.specs.Prelude.{List, Option};
    ghost use Rattle.guarded_code.specs.Descriptions.{Description as Plain};

    ghost Value = { List (Option (List (Option Plain))) };

    ghost view = { λ d. d.tables.items };
}

impl Described {
    pub fn of(tables: Vec<Option<UnitTable>>) -> Described
        ensures { result ≡ tables.items }
    {
        Described { tables }
    }

    /// Whether a barrier of the code stands at an address of a unit, and its operand was tested by the barrier's rule
    /// there already. False where the address has no description.
    pub fn tested(&self, code: &Code, unit: u32, at: u32) -> bool
        ensures { result ≡ tests_again_at code.now self.now unit at }
    {
        let op = op_in(code.units(), unit as usize, at as usize);
        tests_again_in(op, self.tables.as_slice(), unit as usize, at as usize)
    }
}

fn op_in(units: &[CodeUnit], unit: usize, at: usize) -> Option<Op>
    ensures { result ≡ op_in (slice_get units.now unit) at }
{
    match units.get(unit) {
        None => None,
        Some(unit) => match unit.ops.as_slice().get(at) {
            None => None,
            Some(op) => Some(*op),
        },
    }
}

fn tests_again_in(op: Option<Op>, tables: &[Option<UnitTable>], unit: usize, at: usize) -> bool
    ensures { result ≡ again_by op (row_in (slice_get tables.now unit) at) }
{
    let Some(op) = op else {
        return false;
    };
    match tables.get(unit) {
        Some(Some(table)) => tests_again_row(op, table.rows(), at),
        _ => false,
    }
}

/// Whether an operation is a redundant barrier at an address of a table.
pub fn tests_again_row(op: Op, rows: &[Option<Description>], at: usize) -> bool
    ensures { result ≡ again_by (Some op) (slice_get rows.now at) }
{
    match rows.get(at) {
        Some(Some(here)) => tests_again(op, here),
        _ => false,
    }
}

/// Nothing where a code has no break, or an access without its barrier is the first.
///
/// # Errors
///
/// The first break, where it is of another rule.
pub fn unless_describable(first: Option<CodeBreak>) -> Result<(), VerifyFault>
    ensures ok { OnOk result (IsTrue (is_describable (option_map break_seen first))) }
    ensures err { IfErr result (λ f. TellsOf f (option_map break_seen first)) }
{
    match first {
        None => Ok(()),
        Some(broken) => match broken.rule {
            Rule::Unguarded => Ok(()),
            Rule::BadTarget | Rule::Depth | Rule::Kind => Err(VerifyFault::of(broken)),
        },
    }
}

fn table_of(alloc: Global, code: &Code, unit: &CodeUnit) -> Result<Option<UnitTable>, NoMemory>
    requires { length unit.now.ops < 2 ^ 32 }
    ensures { IfOk result (λ t. t ≡ table_of code.now unit.now) }
{
    match first_bad_target(code, unit) {
        Some(_) => Ok(None),
        None => match describe_unit(alloc, code, unit) {
            Err(RoundFault::NoMemory) => Err(NoMemory),
            Err(RoundFault::Depth(_)) => Ok(None),
            Ok(table) => Ok(Some(UnitTable::of(table))),
        },
    }
}

/// What stands at the addresses of each unit.
///
/// # Errors
///
/// `NoMemory` where memory is refused.
#[tactic(auto, using(crate::proofs::Units::unit_short))]
pub fn tables_of(alloc: Global, code: &Code) -> Result<Vec<Option<UnitTable>>, NoMemory>
    requires { IsCode code.now }
    ensures { IfOk result (λ v. v.items ≡ tables_of code.now) }
{
    let units = code.units();
    let mut tables = Vec::new(alloc);
    for n in 0..units.len() {
        tables.push(table_of(alloc, code, &units[n])?)?;
    }
    Ok(tables)
}
