//! The type checker.
//!
//! `specs/Stmts.antt` and `specs/Program.antt` define the first break of the typing rules in a program. All class names
//! come first, then all function names, then the items in source order, each from left to right. `specs/Judgement.antt`
//! says which programs are typed, with one rule for each form of the grammar, and without positions or order. `check`
//! joins the two: it answers Ok exactly where the program is typed, and else the first break.
//!
//! `lam_types_exprs` types expressions, and `lam_types_kinds` has the types and the tables. Names in scope are a table
//! that a block cuts back at its end, so a look-up takes constant time.
//!
//! A public promise rests on `check` (clauses `typed`, `only`, `first`): it accepts exactly the typed programs, and
//! names the first break of others. Free to change for speed: how the names in scope are kept.
#![tactic(auto)]

mod endings;
mod items;
mod stmts;
mod typed;

pub use items::check;
pub use lam_types_kinds::TypeFault;
pub use stmts::Counts;
pub use typed::Typed;
