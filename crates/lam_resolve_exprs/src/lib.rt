//! Name resolution of expressions.
//!
//! `exprs` goes through an expression once, and `values` makes each form from resolved parts. A name stands for the
//! first entry that has it: of a scope, of a class's fields, of a program's classes or functions. The lists of names
//! and the tables of a program are those of `lam_resolve_tables`.
//!
//! `lam_resolve_laws` defines the tree that an expression resolves to. Each function here requires that there is such a
//! tree, as in a checked program, and returns it or `NoMemory`.
//!
//! The promise of `resolve` (`lam_resolve`) rests on `resolve_expr` (its one clause). Free to change for speed: how
//! names are looked up, and how trees are put together.
#![tactic(auto)]

pub mod exprs;
pub mod values;
