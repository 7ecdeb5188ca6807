//! Type soundness of programs, and monotonicity of their asks in fuel.
//!
//! A thread of a typed program never comes to an operand of another kind than its place takes. It ends, it waits for an
//! answer, or its units are spent. The judgement on resolved programs (`lam_resolve_tree`'s `specs/Typing`) suffices
//! for that. The answers may be any: one that does not suit its ask ends the asks there.
//!
//! The proof takes of values of types only what `proofs/Sorts` lists, so it is made once. Here values are of their
//! types' sorts, and any ask may be made. `lam_machine_means` has values of types by what stands on the heap, and typed
//! asks. `proofs/Rows` has a line for each operator and built-in call. `proofs/Locals` has the locals of a unit, each
//! of the type of its slot while the slot is in scope.
//!
//! The meaning of a thread has a number of *units*, one for each turn of a loop and each call. So its tree of asks is
//! finite. With fewer units it is the same tree, cut off where the units are used up. So each list of asks that a
//! meaning gives stays, and grows at its end alone.
//!
//! Nothing here is a matter of speed. The laws of compiled code (`lam_meaning_laws`) rest on this crate's lemmas.
#![tactic(auto)]

ghost use Rattle.lam_resolve_tree.specs.Tree.{ResolvedTree};
ghost use Rattle.lam_meaning_typed.specs.Kinds.{NeverBroken};
ghost use Rattle.lam_meaning_typed.specs.Fewer.{FewerUnits};

/// No thread of a typed program is broken: with any function of it, arguments of the sorts of its parameters' types, any
/// capabilities, any number of units and any answers.
pub fn typed_never_wrong()
    ensures { (r : ResolvedTree) → NeverBroken r }
{}

/// With fewer units and the same answers, the asks are the first ones of those with more. They are all of them, and the
/// thread stands as it does with more, where the fewer units are not used up.
pub fn fewer_units_ask_first()
    ensures { (r : ResolvedTree) → FewerUnits r }
{}
