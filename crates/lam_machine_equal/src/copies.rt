//! Deep copies of a code.

ghost use Rattle.std.specs.Prelude.{◌≡◌, IfOk};
ghost use Rattle.lam_bytecode.specs.Codes.{IsCode};

use lam_bytecode::{ArgKind, ArgKinds, Code, CodeUnit, FunctionName, Kinds, Op, Ops, UnitKind};
use lam_value::{Kind, Value, Values};
use std::alloc::Global;
use want_of_memory::NoMemory;

/// An equal code.
///
/// # Errors
///
/// `NoMemory` where memory is refused.
pub fn copy_code(alloc: Global, code: &Code) -> Result<Code, NoMemory>
    requires { IsCode code.now }
    ensures { IfOk result (λ c. c ≡ code.now) }
{
    let units = copied_units(alloc, code.units())?;
    let constants = copied_values(alloc, code.constants())?;
    let classes = copied_classes(alloc, code.classes())?;
    Ok(Code::new(units, Values::from_vec(constants), classes))
}

fn copied_units(alloc: Global, units: &[CodeUnit]) -> Result<Vec<CodeUnit>, NoMemory>
    ensures { IfOk result (λ v. v.items ≡ units.now) }
{
    let mut out = Vec::with_capacity(alloc, units.len())?;
    for unit in units {
        out.push(copy_unit(alloc, unit)?)?;
    }
    Ok(out)
}

fn copy_unit(alloc: Global, unit: &CodeUnit) -> Result<CodeUnit, NoMemory>
    ensures { IfOk result (λ u. u ≡ unit.now) }
{
    let kind = copy_unit_kind(alloc, &unit.kind)?;
    let ops = copy_ops(alloc, &unit.ops)?;
    Ok(CodeUnit {
        kind,
        locals: unit.locals,
        ops,
    })
}

fn copy_unit_kind(alloc: Global, kind: &UnitKind) -> Result<UnitKind, NoMemory>
    ensures { IfOk result (λ k. k ≡ kind.now) }
{
    match kind {
        UnitKind::Function {
            name,
            takes,
            gives_int,
        } => {
            let name = copy_name(alloc, name)?;
            let takes = copy_arg_kinds(alloc, takes)?;
            Ok(UnitKind::Function {
                name,
                takes,
                gives_int: *gives_int,
            })
        }
        UnitKind::Region {
            region,
            captures,
            catch_at,
        } => Ok(UnitKind::Region {
            region: *region,
            captures: *captures,
            catch_at: *catch_at,
        }),
    }
}

fn copy_name(alloc: Global, name: &FunctionName) -> Result<FunctionName, NoMemory>
    ensures { IfOk result (λ n. n ≡ name.now) }
{
    let text = String::from_str(alloc, name.as_str())?;
    Ok(FunctionName::from_string(text))
}

fn copy_arg_kinds(alloc: Global, kinds: &ArgKinds) -> Result<ArgKinds, NoMemory>
    ensures { IfOk result (λ k. k ≡ kinds.now) }
{
    let items = copied_arg_kinds(alloc, kinds.as_slice())?;
    Ok(ArgKinds::from_vec(items))
}

fn copied_arg_kinds(alloc: Global, kinds: &[ArgKind]) -> Result<Vec<ArgKind>, NoMemory>
    ensures { IfOk result (λ v. v.items ≡ kinds.now) }
{
    Ok(Vec::from_slice(alloc, kinds)?)
}

fn copy_ops(alloc: Global, ops: &Ops) -> Result<Ops, NoMemory>
    ensures { IfOk result (λ o. o ≡ ops.now) }
{
    let items = copied_ops(alloc, ops.as_slice())?;
    Ok(Ops::from_vec(items))
}

fn copied_ops(alloc: Global, ops: &[Op]) -> Result<Vec<Op>, NoMemory>
    ensures { IfOk result (λ v. v.items ≡ ops.now) }
{
    Ok(Vec::from_slice(alloc, ops)?)
}

fn copied_values(alloc: Global, values: &[Value]) -> Result<Vec<Value>, NoMemory>
    ensures { IfOk result (λ v. v.items ≡ values.now) }
{
    let mut out = Vec::with_capacity(alloc, values.len())?;
    for value in values {
        out.push(value.copy()?)?;
    }
    Ok(out)
}

fn copied_classes(alloc: Global, classes: &[Kinds]) -> Result<Vec<Kinds>, NoMemory>
    ensures { IfOk result (λ v. v.items ≡ classes.now) }
{
    let mut out = Vec::with_capacity(alloc, classes.len())?;
    for kinds in classes {
        out.push(copy_kinds(alloc, kinds)?)?;
    }
    Ok(out)
}

fn copy_kinds(alloc: Global, kinds: &Kinds) -> Result<Kinds, NoMemory>
    ensures { IfOk result (λ k. k ≡ kinds.now) }
{
    let items = copied_kinds(alloc, kinds.as_slice())?;
    Ok(Kinds::from_vec(items))
}

fn copied_kinds(alloc: Global, kinds: &[Kind]) -> Result<Vec<Kind>, NoMemory>
    ensures { IfOk result (λ v. v.items ≡ kinds.now) }
{
    Ok(Vec::from_slice(alloc, kinds)?)
}
