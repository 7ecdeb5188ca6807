//! The type checker's types and refusals, and its tables of classes and functions.
//!
//! The type checker stands on this crate.
//!
//! - `types`: a program's types without their positions, and what an expression gives.
//! - `builtins`: signatures of the built-in calls of `lam_builtins`.
//! - `fault`: the refusals of the checker.
//! - `tables`: the declared classes and functions, with look-up in constant time.
//!
//! Types borrow from the program's tree and are `Copy`; only a refusal that names types allocates. In `specs/`,
//! `Breaks` says what a break is and how checks follow one another, and `Tables` which names a program declares. The
//! language's types and its table of built-in calls are those of `lam_builtins`.
//!
//! The promise of `check` of `lam_types` rests on it. Free to change for speed: the look-up in `tables`.
#![tactic(auto)]

pub mod builtins;
pub mod fault;
pub mod tables;
pub mod types;

pub use builtins::Returns;
pub use fault::TypeFault;
pub use lam_builtins::Builtin;
pub use tables::{Callable, Fields, Known, Names};
pub use types::{Got, TypeRef, Want};
