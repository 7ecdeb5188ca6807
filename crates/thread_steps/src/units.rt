//! Look-up of functions and regions among a code's units.

ghost use Rattle.std.specs.Prelude.{◌≡◌, ◌+◌, true, slice_get, IfSome};
ghost use Rattle.thread_steps.specs.Ops.{function_takes, is_region, region_in, region_takes, captures_of};
ghost use Rattle.thread_steps.specs.Units.{unit_at};

use lam_bytecode::{Code, CodeUnit, UnitKind};

/// How many arguments the function with a number takes, `None` where there is no such function.
pub fn function_takes(units: &[CodeUnit], unit: u32) -> Option<usize>
    ensures { result ≡ function_takes (slice_get units.now unit) }
{
    match units.get(unit as usize) {
        None => None,
        Some(unit) => match &unit.kind {
            UnitKind::Function { takes, .. } => Some(takes.as_slice().len()),
            UnitKind::Region { .. } => None,
        },
    }
}

/// The unit of a region, with its number.
#[derive(Clone, Copy)]
pub struct UnitAt<'a> {
    pub number: usize,
    pub it: &'a CodeUnit,
}

fn is_region(region: u32, kind: &UnitKind) -> bool
    ensures { result ≡ is_region region kind.now }
{
    match kind {
        UnitKind::Function { .. } => false,
        UnitKind::Region { region: own, .. } => *own == region,
    }
}

/// The first unit of a region.
#[tactic(auto, using(crate::proofs::UnitLists::region_skip, crate::proofs::UnitLists::region_hit, crate::proofs::UnitLists::region_end))]
fn region_in(units: &[CodeUnit], region: u32) -> Option<UnitAt<'_>>
    ensures { unit_at result ≡ region_in region units.now }
{
    for number in 0..units.len() {
        let it = &units[number];
        if is_region(region, &it.kind) {
            return Some(UnitAt { number, it });
        }
    }
    None
}

/// The place of a region where number `last` stands at `end` and each number between them in turn, if there is one.
fn counted_back(end: usize, last: u32, region: u32) -> Option<usize>
    ensures { IfSome result (λ place. place + last ≡ end + region) }
{
    if region > last {
        return None;
    }
    let behind = (last - region) as usize;
    if behind > end {
        return None;
    }
    Some(end - behind)
}

/// The place of a region where regions stand last and in order. Any other place would do: it is looked at before use.
fn numbered_from_last(units: &[CodeUnit], region: u32) -> Option<usize> {
    let count = units.len();
    if count == 0 {
        return None;
    }
    match &units[count - 1].kind {
        UnitKind::Function { .. } => None,
        UnitKind::Region { region: last, .. } => counted_back(count - 1, *last, region),
    }
}

/// The unit at a place, where it is the region's.
fn region_at(units: &[CodeUnit], region: u32, number: usize) -> Option<UnitAt<'_>>
    ensures { IfSome result (λ u. (slice_get units.now u.number ≡ Some u.it.now) × (is_region region u.it.now.kind ≡ true)) }
{
    match units.get(number) {
        Some(it) if is_region(region, &it.kind) => Some(UnitAt { number, it }),
        _ => None,
    }
}

/// The unit of a region that stands where its number says, if regions stand last.
fn region_by_number(units: &[CodeUnit], region: u32) -> Option<UnitAt<'_>>
    ensures { IfSome result (λ u. (slice_get units.now u.number ≡ Some u.it.now) × (is_region region u.it.now.kind ≡ true)) }
{
    match numbered_from_last(units, region) {
        None => None,
        Some(place) => region_at(units, region, place),
    }
}

/// The unit of a region. Regions are numbered in order, and mostly stand last: so the place is reckoned from the last
/// unit's number and looked at; where it is not this region's, all are searched.
#[tactic(auto, using(crate::proofs::CountedRegions::region_first))]
pub fn region_of(code: &Code, region: u32) -> Option<UnitAt<'_>>
    ensures { unit_at result ≡ region_in region code.now.units }
{
    let units = code.kept_units();
    match region_by_number(units, region) {
        None => region_in(units, region),
        Some(unit) => Some(unit),
    }
}

fn captures_of(kind: &UnitKind) -> u32
    ensures { result ≡ captures_of kind.now }
{
    match kind {
        UnitKind::Function { .. } => 0,
        UnitKind::Region { captures, .. } => *captures,
    }
}

/// How many locals a region captures, `None` where there is no such region.
pub fn region_takes(code: &Code, region: u32) -> Option<u32>
    ensures { result ≡ region_takes (region_in region code.now.units) }
{
    match region_of(code, region) {
        None => None,
        Some(unit) => Some(captures_of(&unit.it.kind)),
    }
}
