//! The law that compiled code is guarded.
//!
//! The scheme puts a barrier right before each access, and its programs are typed, so its code breaks no rule of
//! guarded code. Every target is good. Operands stand where operations want them, and paths that meet bring as many. No
//! operand is of a known kind that its operation does not take, and each access finds its reference tested by its rule. So a
//! verifier refuses no code that the compiler makes.
//!
//! The proof gives each unit a static layout; a unit that has one is guarded (`laid_out`). At each address operands
//! have the kinds of the expressions that they come from, and slots in scope the kinds of their types. Nested code
//! leads from one shape to another (`proofs/Runs`), with a legal shape at each of its addresses (`proofs/Lays`). So
//! does the code of each expression (`proofs/Operands`, `proofs/Expressions`) and statement (`proofs/Scopes`,
//! `proofs/Statements`) of a typed program. The units of its functions and regions have layouts (`proofs/Units`).
//!
//! A public promise rests on `compiled_code_is_guarded`: a program's code has no break, so `thin` of `barrier_thin`
//! thins it (its clause `acts`). Nothing here is a matter of speed.
#![tactic(auto)]

mod laid_out;

ghost use Rattle.compiled_code_guarded.specs.Compiled.{SchemeIsGuarded, CompiledIsGuarded};

pub use laid_out::laid_out_units_are_guarded;

/// The code of a typed program with its regions numbered breaks no rule of guarded code.
pub fn compiled_code_is_guarded()
    ensures scheme { SchemeIsGuarded }
    ensures compiled { CompiledIsGuarded }
{}
