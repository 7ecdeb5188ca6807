//! The first locals of calls and regions.

ghost use Rattle.std.specs.Prelude.{◌≡◌, ◌-◌, ◌++◌, length, map, replicate, slice_get, IfOk};
ghost use Rattle.lam_value.specs.declared.values.Value.TheVariants.{Nothing as null};
ghost use Rattle.lam_meaning.specs.Trees.{value_or_null};

use crate::walk::local_of;
use lam_value::{Value, Values};
use std::alloc::Global;
use want_of_memory::NoMemory;

/// So many values at least: null comes behind those that are there.
///
/// # Errors
///
/// `NoMemory` where memory is refused.
pub fn padded(values: Values, slots: usize) -> Result<Values, NoMemory>
    ensures { IfOk result (λ vs. vs ≡ values ++ replicate (slots - length values) null) }
{
    let more = slots.saturating_sub(values.len() as usize);
    more_nulls(values, more)
}

fn more_nulls(values: Values, more: usize) -> Result<Values, NoMemory>
    ensures { IfOk result (λ vs. vs ≡ values ++ replicate more null) }
{
    let mut all = values;
    for _i in 0..more {
        all.push(Value::Nothing)?;
    }
    Ok(all)
}

/// The values of some locals.
///
/// # Errors
///
/// `NoMemory` where memory is refused.
pub fn captured(alloc: Global, locals: &Values, captures: &[usize]) -> Result<Values, NoMemory>
    ensures { IfOk result (λ vs. vs ≡ map (λ slot. value_or_null (slice_get locals.now slot)) captures.now) }
{
    let mut all = Values::new(alloc);
    for slot in captures {
        all.push(local_of(locals, *slot)?)?;
    }
    Ok(all)
}
