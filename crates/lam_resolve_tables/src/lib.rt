//! The name tables of a program, with look-up in constant time.
//!
//! A name stands for the first entry that has it: of a scope, of a class's fields, of a program's classes or functions.
//!
//! - `named`: lists of such entries.
//! - `lookup`: their look-up.
//! - `tables`: those of a program, made once.
//! - `kinds`: types that are plain values to copy, and what an expression gives.
//!
//! `lam_resolve_laws` defines what a type, a class or a function's head resolves to. A function that may have no answer
//! requires that there is one, as in a checked program, and returns it or `NoMemory`.
//!
//! The promise of `resolve` of `lam_resolve` rests on it. Free to change for speed: how a name's entry is found.
#![tactic(auto)]

pub mod kinds;
mod lookup;
pub mod named;
pub mod tables;
