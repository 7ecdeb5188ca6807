//! The bytecode of compiled programs.
//!
//! A *unit* is the code of a function or of a region: operations on a stack of operands and on numbered locals. Each
//! operation is one turn of a thread. An access stands behind a *barrier*, an operation that tests the label rule of
//! the access beforehand (Laminar, PLDI 2009). So the access itself needs no test.
//!
//! - `op`: the operations.
//! - `unit`: the units.
//! - `code`: the code of a whole program, with its invariant.
//! - `text`: its text.
//!
//! This crate is data: `thread_steps` defines what an operation does.
//!
//! A public promise rests on `listing` and `Code::function`: the bytes of a listing, and where a thread begins. Free to
//! change for speed: how a function is found by its name.
#![tactic(auto)]

mod code;
mod op;
mod text;
mod unit;

pub use code::Code;
pub use op::Op;
pub use text::listing;
pub use unit::{ArgKind, ArgKinds, CodeUnit, FunctionName, Kinds, Ops, UnitKind};
