//! The operations of each unit that stay: all but its redundant barriers.

ghost use Rattle.std.specs.Prelude.{◌≡◌, ◌<◌, ◌^◌, map, not, length, IfOk};
ghost use Rattle.lam_bytecode.specs.Codes.{IsCode};
ghost use Rattle.thinned_code.specs.Thinned.{staying_in};

use crate::remainder::Staying;
use code_verify::redundant_barriers;
use lam_bytecode::{Code, CodeUnit};
use std::alloc::Global;
use want_of_memory::NoMemory;

/// Of each operation of each unit whether it stays. One unit is described at a time.
///
/// # Errors
///
/// `NoMemory` where memory is refused.
#[tactic(auto, using(crate::proofs::Rows::unit_short))]
pub fn staying_units(alloc: Global, code: &Code) -> Result<Vec<Staying>, NoMemory>
    requires { IsCode code.now }
    ensures { IfOk result (λ v. v.items ≡ map (staying_in code.now) code.now.units) }
{
    let units = code.units();
    let mut out = Vec::with_capacity(alloc, units.len())?;
    for n in 0..units.len() {
        out.push(staying_unit(alloc, code, &units[n])?)?;
    }
    Ok(out)
}

/// Of each operation of a unit whether it stays: all do but the redundant barriers.
#[tactic(auto, using(crate::proofs::Rows::stays_is, crate::proofs::Rows::stays_short))]
fn staying_unit(alloc: Global, code: &Code, unit: &CodeUnit) -> Result<Staying, NoMemory>
    requires { length unit.now.ops < 2 ^ 32 }
    ensures { IfOk result (λ s. s ≡ staying_in code.now unit.now) }
{
    let mut stays = redundant_barriers(alloc, code, unit)?;
    negate(&mut stays);
    Staying::of(stays)
}

fn negate(flags: &mut Vec<bool>)
    ensures { flags.new.items ≡ map not flags.old.items }
{
    for i in 0..flags.len() {
        let old = flags[i];
        flags[i] = !old;
    }
}
