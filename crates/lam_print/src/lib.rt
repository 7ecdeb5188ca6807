//! The printer of a program's canonical text.
//!
//! Items are separated by an empty line. A statement or a field has one line, with two blanks for each open block.
//! Parentheses stand only where the grammar needs them. Comments are no part of a tree, so they are dropped.
//!
//! `specs/Canon.antt` lays a tree out as pieces (tokens, blanks and lines), and the printer writes those.
//!
//! A public promise rests on `print` and on the three laws of `laws`: canonical text, byte for byte, and its tokens.
//! Free to change for speed: how the bytes come into the string.
#![tactic(auto)]

mod exprs;
mod items;
pub mod laws;
mod stmts;
mod words;

pub use items::print;
