//! The units of functions and of regions.

ghost use Rattle.std.specs.Prelude.{◌≡◌, ◌∷◌, [], map, IfOk};
ghost use Rattle.lam_resolve_tree.specs.Tree.{type_tree, types_tree, option_type_tree, stmt_tree, stmts_tree, function_tree, functions_tree};
ghost use Rattle.lam_bytecode.specs.declared.unit.UnitKind.TheVariants.{Function as function};
ghost use Rattle.lam_meaning.specs.Scheme.{arg_kind, is_int, function_draft, region_draft, regions_of, regions_in, all_regions};
ghost use Rattle.barrier_compiler_units.specs.Adds.{Adds};

use crate::units::Units;
use barrier_compiler_ops::{Buffer, Constant, emit_block};
use lam_bytecode::{ArgKind, ArgKinds, FunctionName, Op, UnitKind};
use lam_resolve_tree::{Function, Stmt, ValueType};
use std::alloc::Global;
use want_of_memory::NoMemory;

fn arg_kind(ty: &ValueType) -> ArgKind
    ensures { result ≡ arg_kind (type_tree ty.now) }
{
    match ty {
        ValueType::Int => ArgKind::Int,
        ValueType::Bool => ArgKind::Bool,
        ValueType::Bytes => ArgKind::Bytes,
        ValueType::Tag => ArgKind::Tag,
        ValueType::Pipe => ArgKind::Pipe,
        _ => ArgKind::Other,
    }
}

fn arg_kinds(alloc: Global, types: &Vec<ValueType>) -> Result<ArgKinds, NoMemory>
    ensures { IfOk result (λ ks. ks ≡ map arg_kind (types_tree types.now.items)) }
{
    let mut kinds = Vec::new(alloc);
    for ty in types {
        kinds.push(arg_kind(ty))?;
    }
    Ok(ArgKinds::from_vec(kinds))
}

fn is_int(result_type: &Option<ValueType>) -> bool
    ensures { result ≡ is_int (option_type_tree result_type.now) }
{
    matches!(result_type, Some(ValueType::Int))
}

fn function_kind(alloc: Global, f: &Function) -> Result<UnitKind, NoMemory>
    ensures { IfOk result (λ k. k ≡ (function_draft (function_tree f.now)).kind) }
{
    let name = FunctionName::from_string(f.name.clone()?);
    Ok(UnitKind::Function {
        name,
        takes: arg_kinds(alloc, &f.params)?,
        gives_int: is_int(&f.result),
    })
}

/// Adds the unit of a function.
fn add_function(units: &mut Units, alloc: Global, f: &Function)
    ensures { Adds units.old units.new (function_draft (function_tree f.now) ∷ []) }
{
    let mut out = Buffer::new(alloc);
    let locals = out.operand(f.slots.len());
    let mut open = Vec::new(alloc);
    emit_block(&mut out, &f.body, &mut open);
    out.constant(Constant::Nothing);
    out.push(Op::Return);
    match function_kind(alloc, f) {
        Ok(kind) => units.add(kind, locals, out),
        Err(_) => units.give_up(),
    }
}

/// Adds a unit for each function.
pub fn add_function_units(units: &mut Units, alloc: Global, functions: &Vec<Function>)
    ensures { Adds units.old units.new (map function_draft (functions_tree functions.now.items)) }
{
    for f in functions {
        add_function(units, alloc, f);
    }
}

/// Adds the unit of a region: its body, and behind it the catch block, which finds the fault's number as an operand.
fn add_region(
    units: &mut Units,
    alloc: Global,
    number: usize,
    captures: &Vec<usize>,
    slots: &Vec<ValueType>,
    body: &Vec<Stmt>,
    catch_slot: usize,
    catch_body: &Vec<Stmt>,
)
    ensures { Adds units.old units.new (region_draft number captures.now.items (types_tree slots.now.items) (stmts_tree body.now.items) catch_slot (stmts_tree catch_body.now.items) ∷ []) }
{
    let mut out = Buffer::new(alloc);
    let locals = out.operand(slots.len());
    let region = out.operand(number);
    let captured = out.operand(captures.len());
    let mut open = Vec::new(alloc);
    emit_block(&mut out, body, &mut open);
    out.push(Op::LeaveRegion);
    let catch_at = out.len();
    out.store(catch_slot);
    emit_block(&mut out, catch_body, &mut open);
    out.push(Op::LeaveRegion);
    let kind = UnitKind::Region {
        region,
        captures: captured,
        catch_at,
    };
    units.add(kind, locals, out)
}

/// Adds a unit for each region in a statement, by the position of its `region`.
#[cycle(region)]
fn add_regions_of(units: &mut Units, s: &Stmt, alloc: Global)
    ensures { Adds units.old units.new (regions_of (stmt_tree s.now)) }
{
    match s {
        Stmt::If { yes, no, .. } => {
            add_regions_in(units, yes, alloc);
            match no {
                None => {}
                Some(other) => add_regions_in(units, other, alloc),
            }
        }
        Stmt::While { body, .. } => add_regions_in(units, body, alloc),
        Stmt::Sync { body, .. } => add_regions_in(units, body, alloc),
        Stmt::Region {
            number,
            captures,
            slots,
            body,
            catch_slot,
            catch_body,
            ..
        } => {
            add_region(
                units,
                alloc,
                *number,
                captures,
                slots,
                body,
                *catch_slot,
                catch_body,
            );
            add_regions_in(units, body, alloc);
            add_regions_in(units, catch_body, alloc)
        }
        _ => {}
    }
}

/// Adds a unit for each region in a block.
#[cycle(region)]
fn add_regions_in(units: &mut Units, body: &Vec<Stmt>, alloc: Global)
    ensures { Adds units.old units.new (regions_in (stmts_tree body.now.items)) }
{
    for s in body {
        add_regions_of(units, s, alloc);
    }
}

/// Adds a unit for each region of each function.
pub fn add_region_units(units: &mut Units, alloc: Global, functions: &Vec<Function>)
    ensures { Adds units.old units.new (all_regions (functions_tree functions.now.items)) }
{
    for f in functions {
        add_regions_in(units, &f.body, alloc);
    }
}
