//! The units of thinned code.

ghost use Rattle.std.specs.Prelude.{◌≡◌, map, length, IfOk};
ghost use Rattle.lam_bytecode.specs.Codes.{IsCode};
ghost use Rattle.guarded_code.specs.Breaks.{IsGuarded};
ghost use Rattle.thinned_code.specs.Thinned.{moved_kind, thin_unit, staying_in, thinned};
ghost use Rattle.barrier_thin.specs.Units.{thin_each};

use crate::ops::moved_ops;
use crate::remainder::Staying;
use lam_bytecode::{ArgKinds, Code, CodeUnit, FunctionName, Kinds, Ops, UnitKind};
use lam_value::{Value, Values};
use std::alloc::Global;
use want_of_memory::NoMemory;

/// What a unit is, with the place of its catch block moved.
fn moved_kind(alloc: Global, staying: &Staying, kind: &UnitKind) -> Result<UnitKind, NoMemory>
    ensures { IfOk result (λ k. k ≡ moved_kind staying.now kind.now) }
{
    match kind {
        UnitKind::Function {
            name,
            takes,
            gives_int,
        } => Ok(UnitKind::Function {
            name: FunctionName::from_string(String::from_str(alloc, name.as_str())?),
            takes: ArgKinds::from_vec(takes.as_slice().to_vec(alloc)?),
            gives_int: *gives_int,
        }),
        UnitKind::Region {
            region,
            captures,
            catch_at,
        } => Ok(UnitKind::Region {
            region: *region,
            captures: *captures,
            catch_at: staying.moved(*catch_at),
        }),
    }
}

fn thin_unit(alloc: Global, staying: &Staying, unit: &CodeUnit) -> Result<CodeUnit, NoMemory>
    ensures { IfOk result (λ u. u ≡ thin_unit staying.now unit.now) }
{
    let kind = moved_kind(alloc, staying, &unit.kind)?;
    let ops = moved_ops(alloc, staying, unit.ops.as_slice())?;
    Ok(CodeUnit {
        kind,
        locals: unit.locals,
        ops: Ops::from_vec(ops),
    })
}

fn copied_values(alloc: Global, values: &[Value]) -> Result<Values, NoMemory>
    ensures { IfOk result (λ vs. vs ≡ values.now) }
{
    let mut out = Vec::with_capacity(alloc, values.len())?;
    for value in values {
        out.push(value.copy()?)?;
    }
    Ok(Values::from_vec(out))
}

fn copied_classes(alloc: Global, classes: &[Kinds]) -> Result<Vec<Kinds>, NoMemory>
    ensures { IfOk result (λ v. v.items ≡ classes.now) }
{
    let mut out = Vec::with_capacity(alloc, classes.len())?;
    for kinds in classes {
        out.push(Kinds::from_vec(kinds.as_slice().to_vec(alloc)?))?;
    }
    Ok(out)
}

/// The thinned code of a guarded code, of whose units it is known which operations stay.
///
/// # Errors
///
/// `NoMemory` where memory is refused.
#[tactic(auto, using(crate::proofs::Building::same_long, crate::proofs::Building::whole_is_code, crate::proofs::Building::whole_is_thinned))]
pub fn thin_code(alloc: Global, code: &Code, staying: &[Staying]) -> Result<Code, NoMemory>
    requires code { IsCode code.now }
    requires guarded { IsGuarded code.now }
    requires each { staying.now ≡ map (staying_in code.now) code.now.units }
    ensures { IfOk result (λ c. c ≡ thinned code.now) }
{
    let units = thin_units(alloc, code.units(), staying)?;
    let constants = copied_values(alloc, code.constants())?;
    let classes = copied_classes(alloc, code.classes())?;
    Ok(Code::new(units, constants, classes))
}

#[tactic(auto, using(crate::proofs::Building::units_end))]
fn thin_units(
    alloc: Global,
    units: &[CodeUnit],
    staying: &[Staying],
) -> Result<Vec<CodeUnit>, NoMemory>
    requires { length staying.now ≡ length units.now }
    ensures { IfOk result (λ v. v.items ≡ thin_each staying.now units.now) }
{
    let mut out = Vec::with_capacity(alloc, units.len())?;
    for n in 0..units.len() {
        out.push(thin_unit(alloc, &staying[n], &units[n])?)?;
    }
    Ok(out)
}
