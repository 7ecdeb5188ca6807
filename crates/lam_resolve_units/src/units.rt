//! Units: functions and regions, each with slots of its own.

ghost use Rattle.std.specs.Prelude.{◌≡◌, ◌+◌, IfOk, IsSome, OnOk, Some, length, take};
ghost use Rattle.lam_syntax.specs.Tree.{ids_tree, id_tree};
ghost use Rattle.lam_resolve_laws.specs.Resolved.{then_some, with_local, locals_from, local_named as first_local, next_slot, state_as, types_of, resolve_captures as resolved_captures, enter_region, slots_of as slots_of_locals, taken_over as taken};
ghost use Rattle.lam_resolve_tables.specs.Kinds.{kind_type};
ghost use Rattle.lam_resolve_tables.specs.Tables.{vars as seen_vars};
ghost use Rattle.lam_resolve_exprs.specs.Values.{local, locals};
ghost use Rattle.lam_resolve_units.specs.Seen.{state, captured, entered, entered_by};

use lam_resolve_exprs::values::{Local, local_named};
use lam_resolve_tables::kinds::{Kind, value_type};
use lam_resolve_tables::named::Named;
use lam_resolve_tables::tables::types_of_vars;
use lam_resolve_tree::ValueType;
use lam_syntax::Id;
use std::alloc::Global;
use want_of_memory::NoMemory;

/// The types of a unit's slots so far, and the number of the program's regions so far.
#[derive(Drop)]
pub struct State {
    pub slots: Vec<ValueType>,
    pub regions: usize,
}

/// The names in scope of a unit, and its slots.
#[derive(Drop)]
pub struct Unit<'a> {
    pub scope: Named<'a, Local>,
    pub state: State,
}

/// One more slot: its number.
pub fn new_slot(alloc: Global, st: &mut State, kind: Kind) -> Result<usize, NoMemory>
    ensures slot { IfOk result (λ n. n ≡ length (state st.old).slots) }
    ensures added { OnOk result (state st.new ≡ next_slot (state st.old) (kind_type kind)) }
{
    let slot = st.slots.len();
    st.slots.push(value_type(alloc, kind)?)?;
    Ok(slot)
}

/// One more name, with a slot of its own: its number.
pub fn declare<'a>(
    alloc: Global,
    scope: &mut Named<'a, Local>,
    st: &mut State,
    name: &'a str,
    kind: Kind,
) -> Result<usize, NoMemory>
    ensures slot { IfOk result (λ n. n ≡ length (state st.old).slots) }
    ensures added { OnOk result (state st.new ≡ next_slot (state st.old) (kind_type kind)) }
    ensures named { OnOk result (locals scope.new ≡ with_local (locals scope.old) name.now (length (state st.old).slots) (kind_type kind)) }
{
    let slot = new_slot(alloc, st, kind)?;
    scope.push(name, Local { slot, kind })?;
    Ok(slot)
}

/// Takes away the names that came into scope since there were `n`.
pub fn close(scope: &mut Named<Local>, n: usize)
    ensures { locals scope.new ≡ take n (locals scope.old) }
{
    scope.cut(n);
}

fn first_locals<'a>(alloc: Global, vars: &[(&'a str, Kind)]) -> Result<Named<'a, Local>, NoMemory>
    ensures { IfOk result (λ n. locals n ≡ locals_from 0 (seen_vars vars.now)) }
{
    let mut scope = Named::new(alloc);
    for (slot, var) in vars.iter().enumerate() {
        scope.push(var.0, Local { slot, kind: var.1 })?;
    }
    Ok(scope)
}

/// A unit whose first slots are of these names and types, after so many regions.
pub fn open_unit<'a>(
    alloc: Global,
    vars: &[(&'a str, Kind)],
    regions: usize,
) -> Result<Unit<'a>, NoMemory>
    ensures scope { IfOk result (λ u. locals u.scope ≡ locals_from 0 (seen_vars vars.now)) }
    ensures state { IfOk result (λ u. state u.state ≡ state_as (types_of (seen_vars vars.now)) regions) }
{
    let scope = first_locals(alloc, vars)?;
    let slots = types_of_vars(alloc, vars)?;
    Ok(Unit {
        scope,
        state: State { slots, regions },
    })
}

fn capture<'a>(scope: &Named<Local>, x: &'a Id) -> (&'a str, Local)
    requires { IsSome (first_local (locals scope.now) (id_tree x.now).word) }
    ensures name { result.0.now ≡ (id_tree x.now).word }
    ensures local { Some (local result.1) ≡ first_local (locals scope.now) (id_tree x.now).word }
{
    let name = x.name.as_str();
    let Some(local) = local_named(scope, name) else {
        unreachable!()
    };
    (name, local)
}

// The captured names, as they are outside.
fn resolve_captures<'a>(
    alloc: Global,
    scope: &Named<Local>,
    xs: &'a [Id],
) -> Result<Vec<(&'a str, Local)>, NoMemory>
    requires { IsSome (resolved_captures (locals scope.now) (ids_tree xs.now)) }
    ensures { IfOk result (λ v. Some (captured v.items) ≡ resolved_captures (locals scope.now) (ids_tree xs.now)) }
{
    let mut captures = Vec::new(alloc);
    for x in xs {
        captures.push(capture(scope, x))?;
    }
    Ok(captures)
}

fn slots_of(alloc: Global, captures: &[(&str, Local)]) -> Result<Vec<usize>, NoMemory>
    ensures { IfOk result (λ v. v.items ≡ slots_of_locals (captured captures.now)) }
{
    let mut slots = Vec::new(alloc);
    for capture in captures {
        slots.push(capture.1.slot)?;
    }
    Ok(slots)
}

fn taken_over<'a>(
    alloc: Global,
    captures: &[(&'a str, Local)],
) -> Result<Vec<(&'a str, Kind)>, NoMemory>
    ensures { IfOk result (λ v. seen_vars v.items ≡ taken (captured captures.now)) }
{
    let mut vars = Vec::new(alloc);
    for capture in captures {
        vars.push((capture.0, capture.1.kind))?;
    }
    Ok(vars)
}

/// A region that is entered: the slots that it captures, and its own unit.
#[derive(Drop)]
pub struct Entered<'a> {
    pub captures: Vec<usize>,
    pub unit: Unit<'a>,
}

/// Enters a region, after so many regions before it, which are fewer than the limit.
pub fn enter<'a>(
    alloc: Global,
    scope: &Named<Local>,
    regions: usize,
    xs: &'a [Id],
) -> Result<Entered<'a>, NoMemory>
    requires { IsSome (enter_region regions (locals scope.now) (ids_tree xs.now)) }
    ensures { IfOk result (λ e. Some (entered e) ≡ then_some (enter_region regions (locals scope.now) (ids_tree xs.now)) (λ cs. Some (entered_by cs regions))) }
{
    let found = resolve_captures(alloc, scope, xs)?;
    let captures = slots_of(alloc, found.as_slice())?;
    let vars = taken_over(alloc, found.as_slice())?;
    let unit = open_unit(alloc, vars.as_slice(), regions + 1)?;
    Ok(Entered { captures, unit })
}
