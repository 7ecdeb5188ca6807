//! Name resolution of units and of the parts of statements.
//!
//! A unit is a function or a region. `units` has its names in scope and its slots. It adds slots and names, drops names
//! that go out of scope, opens a unit, and enters a region with its captures. `parts` makes statements from resolved
//! parts. `lam_resolve_stmts` goes through the statements themselves.
//!
//! The promise of `resolve` (`lam_resolve`) rests on `open_unit` (clauses `scope`, `state`), `resolve_let` (`meets`,
//! `keeps`) and the one clause of the others that resolve. Free to change for speed: how the names in scope are kept.
#![tactic(auto)]

pub mod parts;
pub mod units;
