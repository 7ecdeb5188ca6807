//! Name resolution of a unit's statements.
//!
//! `stmts` goes through the statements of a unit, over the names in scope and the slots of `lam_resolve_units` and the
//! expressions of `lam_resolve_exprs`. `regions` stands outside that recursion. It has what stands before a region's
//! blocks, and the node that is made of its parts.
//!
//! Each function requires that its part of the program resolves, and answers what `lam_resolve_laws` says of it.
//!
//! The promise of `resolve` (`lam_resolve`) rests on `resolve_block` (clauses `meets`, `keeps`). Free to change for
//! speed: how statements are put together.
#![tactic(auto)]

mod regions;
mod stmts;

pub use lam_resolve_units::units::open_unit;
pub use stmts::resolve_block;
