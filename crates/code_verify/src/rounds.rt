//! The rounds of a unit.

ghost use Rattle.std.specs.Prelude.{◌≡◌, ℕ, ◌<◌, ◌+◌, ◌^◌, ◌||◌, length, slice_get, OnOk, IfOk, IfErr, IsFalse, Option};
ghost use Rattle.guarded_code.specs.Rounds.{Sent, Holds, into, give, visit, round, first, blank};
ghost use Rattle.guarded_code.specs.Descriptions.{Description as Plain, meet, starts, catch_starts};
ghost use Rattle.guarded_code.specs.Changes.{sent, passes, descriptions};
ghost use Rattle.code_verify.specs.declared.rounds.RoundFault.TheVariants.{NoMemory as no_memory};
ghost use Rattle.code_verify.specs.Stops.{Stops, next_seen};

use crate::locals::{catching, entry};
use crate::targets::{Next, next_of};
use code_verify_tables::{Description, change_of};
use lam_bytecode::{Code, CodeUnit, Op, UnitKind};
use std::alloc::Global;
use std::mem::replace;
use want_of_memory::NoMemory;

/// Why a round stops.
#[derive(Clone, Copy, Debug, PartialEq, Eq)]
pub enum RoundFault {
    /// Two paths may not meet at this address, or its operation finds too few operands.
    Depth(u32),
    NoMemory,
}

impl From<NoMemory> for RoundFault {
    ghost from_gives = { λ _ e. e ≡ no_memory };

    fn from(_e: NoMemory) -> RoundFault {
        RoundFault::NoMemory
    }
}

/// A description comes to an address; tells whether that changed what stands there.
pub fn into(
    table: &mut Vec<Option<Description>>,
    to: u32,
    description: &Description,
) -> Result<bool, RoundFault>
    ensures ok { OnOk result ((passes : ℕ → Plain → Option (Sent Plain)) → into Plain meet passes (slice_get table.old.items to) table.old.items to description.now ≡ Holds table.new.items) }
    ensures len { OnOk result (length table.new.items ≡ length table.old.items) }
    ensures same { IfOk result (λ changed. IsFalse changed → table.new.items ≡ table.old.items) }
    ensures err { IfErr result (λ f. (passes : ℕ → Plain → Option (Sent Plain)) → Stops (into Plain meet passes (slice_get table.old.items to) table.old.items to description.now) f) }
{
    let at = to as usize;
    if at >= table.len() {
        return Err(RoundFault::Depth(to));
    }
    match replace(&mut table[at], None) {
        None => {
            table[at] = Some(description.copy()?);
            Ok(true)
        }
        Some(mut there) => match there.meet(description) {
            None => Err(RoundFault::Depth(to)),
            Some(changed) => {
                table[at] = Some(there);
                Ok(changed)
            }
        },
    }
}

/// A description comes to the addresses that may come next.
fn give(
    table: &mut Vec<Option<Description>>,
    next: Next,
    description: &Description,
) -> Result<bool, RoundFault>
    ensures ok { OnOk result ((passes : ℕ → Plain → Option (Sent Plain)) → give Plain meet passes table.old.items (sent (next_seen next) description.now) ≡ Holds table.new.items) }
    ensures len { OnOk result (length table.new.items ≡ length table.old.items) }
    ensures same { IfOk result (λ changed. IsFalse changed → table.new.items ≡ table.old.items) }
    ensures err { IfErr result (λ f. (passes : ℕ → Plain → Option (Sent Plain)) → Stops (give Plain meet passes table.old.items (sent (next_seen next) description.now)) f) }
{
    match next {
        Next::Nowhere => Ok(false),
        Next::One(a) => into(table, a, description),
        Next::Two(a, b) => match into(table, a, description) {
            Err(fault) => Err(fault),
            Ok(first) => match into(table, b, description) {
                Err(fault) => Err(fault),
                Ok(second) => Ok(first || second),
            },
        },
    }
}

/// An address has its turn. What its operation leaves is written over `left`.
fn visit(
    code: &Code,
    ops: &[Op],
    at: u32,
    table: &mut Vec<Option<Description>>,
    left: &mut Description,
) -> Result<bool, RoundFault>
    requires op { at < length ops.now }
    requires entry { at < length table.old.items }
    requires room { at + 1 < 2 ^ 32 }
    ensures ok { OnOk result (visit Plain meet (passes code.now ops.now) at table.old.items (slice_get table.old.items at) ≡ Holds table.new.items) }
    ensures len { OnOk result (length table.new.items ≡ length table.old.items) }
    ensures same { IfOk result (λ changed. IsFalse changed → table.new.items ≡ table.old.items) }
    ensures err { IfErr result (λ f. Stops (visit Plain meet (passes code.now ops.now) at table.old.items (slice_get table.old.items at)) f) }
{
    let op = ops[at as usize];
    match &table[at as usize] {
        None => Ok(false),
        Some(here) => match left.write_after(change_of(code, op), here) {
            Err(_) => Err(RoundFault::NoMemory),
            Ok(found) => {
                if found {
                    give(table, next_of(at, op), left)
                } else {
                    Err(RoundFault::Depth(at))
                }
            }
        },
    }
}

/// Whether one of them is true.
pub fn either(a: bool, b: bool) -> bool
    ensures { result ≡ a || b }
{
    a || b
}

/// One round; tells whether it changed anything.
fn round(
    code: &Code,
    ops: &[Op],
    table: &mut Vec<Option<Description>>,
    left: &mut Description,
) -> Result<bool, RoundFault>
    requires len { length table.old.items ≡ length ops.now }
    requires room { length ops.now < 2 ^ 32 }
    ensures ok { OnOk result (round Plain meet (passes code.now ops.now) table.old.items ≡ Holds table.new.items) }
    ensures len { OnOk result (length table.new.items ≡ length ops.now) }
    ensures same { IfOk result (λ changed. IsFalse changed → table.new.items ≡ table.old.items) }
    ensures err { IfErr result (λ f. Stops (round Plain meet (passes code.now ops.now) table.old.items) f) }
{
    let mut changed = false;
    for at in 0..ops.len() {
        match visit(code, ops, at as u32, table, left) {
            Err(fault) => return Err(fault),
            Ok(one) => {
                changed = either(changed, one);
            }
        }
    }
    Ok(changed)
}

/// No description anywhere.
pub fn blank_table(alloc: Global, size: usize) -> Result<Vec<Option<Description>>, RoundFault>
    ensures ok { IfOk result (λ t. t.items ≡ blank Plain size) }
    ensures err { IfErr result (λ f. f ≡ no_memory) }
{
    let mut table = Vec::new(alloc);
    for _i in 0..size {
        match table.push(None) {
            Ok(()) => {}
            Err(_) => return Err(RoundFault::NoMemory),
        }
    }
    Ok(table)
}

/// A catch place has its description, where there is one.
fn catch(
    alloc: Global,
    unit: &CodeUnit,
    table: &mut Vec<Option<Description>>,
) -> Result<(), RoundFault>
    ensures ok { OnOk result ((passes : ℕ → Plain → Option (Sent Plain)) → give Plain meet passes table.old.items (catch_starts unit.now.locals unit.now.kind) ≡ Holds table.new.items) }
    ensures len { OnOk result (length table.new.items ≡ length table.old.items) }
    ensures err { IfErr result (λ f. (passes : ℕ → Plain → Option (Sent Plain)) → Stops (give Plain meet passes table.old.items (catch_starts unit.now.locals unit.now.kind)) f) }
{
    match &unit.kind {
        UnitKind::Function { .. } => Ok(()),
        UnitKind::Region { catch_at, .. } => match catching(alloc, unit.locals) {
            Err(_) => Err(RoundFault::NoMemory),
            Ok(caught) => match into(table, *catch_at, &caught) {
                Err(fault) => Err(fault),
                Ok(_) => Ok(()),
            },
        },
    }
}

/// The entry and the catch place have their descriptions, and no other address has one.
pub fn first_table(alloc: Global, unit: &CodeUnit) -> Result<Vec<Option<Description>>, RoundFault>
    ensures ok { IfOk result (λ t. (passes : ℕ → Plain → Option (Sent Plain)) → first Plain meet passes (length unit.now.ops) (starts unit.now) ≡ Holds t.items) }
    ensures len { IfOk result (λ t. length t.items ≡ length unit.now.ops) }
    ensures err { IfErr result (λ f. (passes : ℕ → Plain → Option (Sent Plain)) → Stops (first Plain meet passes (length unit.now.ops) (starts unit.now)) f) }
{
    match blank_table(alloc, unit.ops.as_slice().len()) {
        Err(_) => Err(RoundFault::NoMemory),
        Ok(mut table) => match entry(alloc, unit) {
            Err(_) => Err(RoundFault::NoMemory),
            Ok(entered) => match into(&mut table, 0, &entered) {
                Err(fault) => Err(fault),
                Ok(_) => match catch(alloc, unit, &mut table) {
                    Err(fault) => Err(fault),
                    Ok(()) => Ok(table),
                },
            },
        },
    }
}

/// What stands at the addresses of a unit after the last round.
///
/// Each round but the last lowers what stands somewhere, and there is less to lose than rounds are counted.
pub fn describe_unit(
    alloc: Global,
    code: &Code,
    unit: &CodeUnit,
) -> Result<Vec<Option<Description>>, RoundFault>
    requires { length unit.now.ops < 2 ^ 32 }
    ensures ok { IfOk result (λ t. descriptions code.now unit.now ≡ Holds t.items) }
    ensures err { IfErr result (λ f. Stops (descriptions code.now unit.now) f) }
{
    let ops = unit.ops.as_slice();
    match first_table(alloc, unit) {
        Err(fault) => Err(fault),
        Ok(mut table) => {
            let mut left = Description::empty(alloc);
            for _i in 0..u64::MAX {
                match round(code, ops, &mut table, &mut left) {
                    Err(fault) => return Err(fault),
                    Ok(changed) => {
                        if !changed {
                            return Ok(table);
                        }
                    }
                }
            }
            Err(RoundFault::NoMemory)
        }
    }
}
