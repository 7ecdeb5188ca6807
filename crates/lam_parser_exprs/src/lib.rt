//! The parser of expressions.
//!
//! Each function reads one rule of the grammar, from a token on and with a depth sum, and says so in its contract.
//! Operators of one level, postfix parts and lists are loops. Only nesting recurses, and the depth limit bounds it.
//! `lam_parser_parts` reads the parts that contain no expression.
//!
//! The promise of `parse` (`lam_parser`) rests on `expression` (clause `reads`). Nothing here is a matter of speed.
#![tactic(auto)]

mod operators;
mod primary;

pub use operators::expression;
pub use primary::parens;
