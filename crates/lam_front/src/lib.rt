//! The front end: from a file's bytes to a checked program.
//!
//! [`read_program`] goes through UTF-8, the lexer and the parser. [`check_program`] continues through the type rules
//! and the region rules. Each answers the program exactly where there is one. Otherwise it answers the first fault in
//! that order, a [`ProgramFault`] with its kind and its position in bytes from 0.
//!
//! `specs/Faults.antt` names each layer's faults. `specs/Programs.antt` says which program bytes spell, and which fault
//! they have where they spell none or break a rule. The crates below do the work.
//!
//! A public promise rests on `read_program` and on `check_program` (clause `exact` of each): the program that bytes
//! spell, or their first fault. Nothing here is a matter of speed: the crates below do the work.
#![tactic(auto)]

mod fault;
mod layers;

pub use fault::{Flaw, ProgramFault};
pub use layers::{check_program, read_program};
