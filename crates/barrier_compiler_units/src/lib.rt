//! The units of a program's code: functions in source order, then regions by number.
//!
//! `pool` numbers the constants, each once, in order of first use. `units` gathers the units. It numbers a unit's
//! constants when the unit is complete, so a unit's code by value lives no longer than it takes. `drafts` fills them,
//! first one unit for each function and then, in a second walk, one for each region.
//!
//! As with a unit's buffer, what gave up keeps its first reason and takes nothing more. `specs/Adds.antt` says what a
//! call adds.
//!
//! The promise of `compile` (`barrier_compiler`, clause `ok`) rests on `add_function_units` and `add_region_units`:
//! the units are the scheme's, in order. Free to change for speed: how `Pool` finds a constant's number.
#![tactic(auto)]

mod drafts;
mod pool;
mod units;

pub use drafts::{add_function_units, add_region_units};
pub use units::{Halt, Parts, Units};
