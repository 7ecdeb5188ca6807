//! The code generator for one unit, by the scheme of `lam_meaning`.
//!
//! The compiler goes over a unit's tree once and appends one instruction after another. An `instruction` is an
//! operation, or a constant by its value, since constants get their numbers only when all code is there. `buffer` has
//! where instructions go, `exprs` the expressions, and `blocks` statements and blocks. A buffer that gave up takes
//! nothing more and keeps its first reason. So the code that fills it is plain calls, one after another, and the reason
//! is told once, at the end.
//!
//! `Emits` of `specs/Emits.antt` says what a call adds. The buffer is the old one with these pieces of the scheme laid
//! out behind it, or it gave up. Each reason but want of memory comes only where it is true of these pieces. The laws
//! in `proofs/Joins.antt` and `proofs/Jumps.antt` put such calls together. `specs/Forks` says how a branch is
//! completed.
//!
//! The promise of `compile` (`barrier_compiler`, clause `ok`) rests on `emit_block` (clause `emits`): a block's
//! operations are the scheme's. Free to change for speed: how `Buffer` keeps its instructions, so far as its view
//! stays.
#![tactic(auto)]

mod blocks;
mod buffer;
mod exprs;
mod instruction;

pub use blocks::emit_block;
pub use buffer::{Buffer, Stop};
pub use exprs::{emit_expr, emit_exprs, kind_of};
pub use instruction::{Constant, Instruction};
