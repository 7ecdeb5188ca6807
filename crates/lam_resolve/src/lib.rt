//! Name resolution of checked programs.
//!
//! `resolve` answers the tree that `lam_resolve_laws` defines, in one pass. Its contract is that equation with the laws
//! of that tree, and only `NoMemory` is free. The classes, their fields and the functions of a program stand in tables
//! by name, made once (`lam_resolve_tables`). `programs` goes through the functions, whose statements
//! `lam_resolve_stmts` resolves. The program is borrowed, and stays whole beside what it resolves to.
//!
//! The functions below `resolve` require that their part of the program resolves. A law of `lam_resolve_laws` says that
//! a checked program does, and `resolve` alone uses it.
//!
//! A public promise rests on `resolve` (each clause): a checked program's tree without names, with its laws. Free to
//! change for speed: how the one pass makes it.
#![tactic(auto)]

mod checked;
mod programs;

pub use checked::resolve;
pub use programs::resolve_program;
