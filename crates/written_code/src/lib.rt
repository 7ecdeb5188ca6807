//! Hand-written code for worked examples of the machine and of the verifier.
//!
//! Both take code that no compiler made. A code is written down as a constant of Rust's plain slices and texts.
//! `code_of` makes it into what runs and is verified, where it is what every code is. No program is parsed or compiled
//! here, and the tool does not depend on it.
//!
//! No public promise rests on this crate: examples and tests use it.
#![tactic(auto)]

ghost use Rattle.std.specs.Prelude.{◌≡◌, ◌<◌, ◌^◌, true, map, IfOk};
ghost use Rattle.std.specs.List.{All};
ghost use Rattle.lam_bytecode.specs.Codes.{given, IsUnit, IsConstant, IsCode, AreCounted, region_numbers, code_of as code_tree};
ghost use Rattle.written_code.specs.Writing.{kind_of, unit_of, units_from, number_after, constant_of, classes_of, code_of};

use lam_bytecode::{ArgKind, ArgKinds, Code, CodeUnit, FunctionName, Kinds, Op, Ops, UnitKind};
use lam_value::{ByteText, Kind, Value, Values};
use std::alloc::{AllocError, AllocFailed, Global};
use want_of_memory::NoMemory;

/// What a unit is the code of. Each function gives a number, and the regions are numbered as they come.
#[derive(Clone, Copy)]
pub enum UnitHead<'a> {
    Function { name: &'a str, takes: &'a [ArgKind] },
    Region { captures: u32, catch_at: u32 },
}

/// A function or a region.
#[derive(Clone, Copy)]
pub struct Unit<'a> {
    pub head: UnitHead<'a>,
    pub locals: u32,
    pub ops: &'a [Op],
}

/// A constant.
#[derive(Clone, Copy)]
pub enum Constant<'a> {
    Int(i64),
    Bool(bool),
    Bytes(&'a str),
    Nothing,
}

/// A code, as it is written down: its units, its constants and the kinds of each class's fields.
#[derive(Clone, Copy)]
pub struct Written<'a> {
    pub units: &'a [Unit<'a>],
    pub constants: &'a [Constant<'a>],
    pub classes: &'a [&'a [Kind]],
}

/// Why what is written down gives no code.
#[derive(Clone, Copy, Debug, PartialEq, Eq)]
pub enum WrittenFault {
    /// It is not what every code is: a unit has fewer locals than it is given, or there are too many of something.
    NotCode,
    /// Memory was refused.
    NoMemory,
}

impl From<NoMemory> for WrittenFault {
    fn from(_e: NoMemory) -> WrittenFault {
        WrittenFault::NoMemory
    }
}

impl From<AllocError> for WrittenFault {
    fn from(_e: AllocError) -> WrittenFault {
        WrittenFault::NoMemory
    }
}

impl<T: Drop> From<AllocFailed<T>> for WrittenFault {
    fn from(_e: AllocFailed<T>) -> WrittenFault {
        WrittenFault::NoMemory
    }
}

/// The code that is written down.
///
/// # Errors
///
/// `NotCode` where it is not what every code is, `NoMemory` where memory is refused.
pub fn code_of(alloc: Global, written: Written<'_>) -> Result<Code, WrittenFault>
    ensures same { IfOk result (λ c. c ≡ code_of written.entry) }
    ensures keeps { IfOk result IsCode }
{
    let units = units_of(alloc, written.units)?;
    let constants = constants_of(alloc, written.constants)?;
    let classes = classes_of(alloc, written.classes)?;
    tested_code(units, constants, classes)
}

/// The code of these parts, where they are what every code is of.
fn tested_code(
    units: Vec<CodeUnit>,
    constants: Values,
    classes: Vec<Kinds>,
) -> Result<Code, WrittenFault>
    ensures same { IfOk result (λ c. c ≡ code_tree units.items constants classes.items) }
    ensures keeps { IfOk result IsCode }
{
    if can_count(units.len())
        && can_count(constants.as_slice().len())
        && can_count(classes.len())
        && are_units(&units)
        && are_constants(constants.as_slice())
        && are_counted(&units)
    {
        return Ok(Code::new(units, constants, classes));
    }
    Err(WrittenFault::NotCode)
}

/// Whether code can count so many things.
fn can_count(len: usize) -> bool
    ensures { result ≡ true → len < 2 ^ 32 }
{
    len <= u32::MAX as usize
}

fn are_units(units: &[CodeUnit]) -> bool
    ensures { result ≡ true → All IsUnit units.now }
{
    for unit in units {
        if !is_unit(unit) {
            return false;
        }
    }
    true
}

/// Whether a unit has a local for all that it is given, and not too many operations.
fn is_unit(unit: &CodeUnit) -> bool
    ensures { result ≡ true → IsUnit unit.now }
{
    given(&unit.kind) <= unit.locals as usize && can_count(unit.ops.as_slice().len())
}

fn given(kind: &UnitKind) -> usize
    ensures { result ≡ given kind.now }
{
    match kind {
        UnitKind::Function { takes, .. } => takes.as_slice().len(),
        UnitKind::Region { captures, .. } => *captures as usize,
    }
}

fn are_constants(values: &[Value]) -> bool
    ensures { result ≡ true → All IsConstant values.now }
{
    for value in values {
        if !is_constant(value) {
            return false;
        }
    }
    true
}

fn is_constant(value: &Value) -> bool
    ensures { result ≡ true → IsConstant value.now }
{
    matches!(
        value,
        Value::Int(_) | Value::Bool(_) | Value::Bytes(_) | Value::Nothing
    )
}

/// Whether the regions are numbered from 0 in their order.
fn are_counted(units: &[CodeUnit]) -> bool
    ensures { result ≡ true → AreCounted 0 (region_numbers units.now) }
{
    let mut next = 0u64;
    for at in 0..units.len() {
        if let UnitKind::Region { region, .. } = &units[at].kind {
            if *region as u64 != next {
                return false;
            }
            next = *region as u64 + 1;
        }
    }
    true
}

fn units_of(alloc: Global, written: &[Unit<'_>]) -> Result<Vec<CodeUnit>, WrittenFault>
    ensures { IfOk result (λ v. v.items ≡ units_from 0 written.now) }
{
    let mut units = Vec::new(alloc);
    let mut regions = 0;
    for unit in written {
        units.push(unit_of(alloc, unit, regions)?)?;
        regions = number_after(regions, unit.head)?;
    }
    Ok(units)
}

/// The number of the next region after a unit. There are not so many that it has none.
fn number_after(regions: u32, head: UnitHead<'_>) -> Result<u32, WrittenFault>
    ensures { IfOk result (λ n. n ≡ number_after regions head.entry) }
{
    match head {
        UnitHead::Function { .. } => Ok(regions),
        UnitHead::Region { .. } => match regions.checked_add(1) {
            Some(next) => Ok(next),
            None => Err(WrittenFault::NotCode),
        },
    }
}

fn unit_of(alloc: Global, unit: &Unit<'_>, regions: u32) -> Result<CodeUnit, WrittenFault>
    ensures { IfOk result (λ u. u ≡ unit_of regions unit.now) }
{
    let kind = kind_of(alloc, unit.head, regions)?;
    let ops = Ops::from_vec(unit.ops.to_vec(alloc)?);
    Ok(CodeUnit {
        kind,
        locals: unit.locals,
        ops,
    })
}

fn kind_of(alloc: Global, head: UnitHead<'_>, regions: u32) -> Result<UnitKind, WrittenFault>
    ensures { IfOk result (λ k. k ≡ kind_of regions head.entry) }
{
    match head {
        UnitHead::Function { name, takes } => {
            let name = FunctionName::from_string(String::from_str(alloc, name)?);
            Ok(UnitKind::Function {
                name,
                takes: ArgKinds::from_vec(takes.to_vec(alloc)?),
                gives_int: true,
            })
        }
        UnitHead::Region { captures, catch_at } => Ok(UnitKind::Region {
            region: regions,
            captures,
            catch_at,
        }),
    }
}

fn constants_of(alloc: Global, written: &[Constant<'_>]) -> Result<Values, WrittenFault>
    ensures { IfOk result (λ vs. vs ≡ map constant_of written.now) }
{
    let mut values = Vec::new(alloc);
    for constant in written {
        values.push(constant_of(alloc, *constant)?)?;
    }
    Ok(Values::from_vec(values))
}

fn constant_of(alloc: Global, constant: Constant<'_>) -> Result<Value, WrittenFault>
    ensures { IfOk result (λ v. v ≡ constant_of constant.entry) }
{
    match constant {
        Constant::Int(n) => Ok(Value::Int(n)),
        Constant::Bool(b) => Ok(Value::Bool(b)),
        Constant::Bytes(text) => Ok(Value::Bytes(ByteText::from_slice(alloc, text.as_bytes())?)),
        Constant::Nothing => Ok(Value::Nothing),
    }
}

fn classes_of(alloc: Global, written: &[&[Kind]]) -> Result<Vec<Kinds>, WrittenFault>
    ensures { IfOk result (λ v. v.items ≡ classes_of written.now) }
{
    let mut classes = Vec::new(alloc);
    for kinds in written {
        classes.push(Kinds::from_vec(kinds.to_vec(alloc)?))?;
    }
    Ok(classes)
}
