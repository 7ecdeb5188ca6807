//! The first steps of a source walk at expressions and statements.
//!
//! An expression or a statement opens into a control for its first operand and a frame that waits for its value.
//! `exprs` has expressions, arguments and lists of tags, and `stmts` statements and blocks. `caps` has the braces of
//! `caps`, which need no frame, since their tags are locals. Each takes one step, however deep what it opens is.
//!
//! The promise of `walk` (`source_walk`) rests on the one clause each of `eval`, `exec` and `block`: such a step leaves
//! what is asked as it is. Nothing here is a matter of speed.
#![tactic(auto)]

mod caps;
mod exprs;
mod stmts;

pub use exprs::{eval, next_arg};
pub use stmts::{block, exec};
