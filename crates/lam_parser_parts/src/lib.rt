//! The parser of types, typed names, and expression parts without nested expressions.
//!
//! A function that reads a rule of the grammar does so from a token on with a depth sum, and says so in its contract.
//! The others make a node of the tree from what was read.
//!
//! The promise of `parse` (`lam_parser`) rests on the clauses `reads`. Free to change for speed: whether arguments give
//! back spare room (`fitted`).
#![tactic(auto)]

mod nodes;
mod operators;
mod primary;
mod types;
mod variables;

pub use nodes::{array_kind, make_call, make_label, make_name, make_node, make_spawn};
pub use operators::{binary_op, element, joined, make_unary, member, unary_op};
pub use primary::{Form, caps_of, form_at, literal, new_class};
pub use types::typ;
pub use variables::{fields, names, params, take_name, variable};
