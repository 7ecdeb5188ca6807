//! The basis of the parser: token classes, the token list, and reading contracts.
//!
//! A reading function reads one rule of the grammar from a token on, with a depth sum. It returns what was read and the
//! token after it, or a `Break`. Its contract is in the words of `specs/Reading.antt`: the rule gives a value
//! (`Gives`), or reading it comes to all that the break says (`Fails`).
//!
//! `proofs/Rules.antt` has the lemmas for the proof of each such function. A rule is begun, its symbols are taken one
//! after another, and it is finished; or what stops at the next symbol stops the rule.
//!
//! The promise of `parse` (`lam_parser`) rests on `take` and `take_if` (clause `takes`). Free to change for speed: how
//! the class of a token is tested.
#![tactic(auto)]

mod breaks;
mod marks;
mod tokens;

pub use breaks::{Break, Wanted};
pub use marks::{Mark, is_mark, wanted_of};
pub use tokens::{Read, begins_expression, begins_statement, name_of, next_is, take, take_if};
