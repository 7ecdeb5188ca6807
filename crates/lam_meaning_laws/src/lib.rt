//! Compiler correctness: the scheme's code makes the asks of its source.
//!
//! A thread of the scheme's code that runs alone, each ask taking the next answer, makes the asks that its typed source
//! means, in order. It is never stuck. The meaning with n *units* bounds the thread from both sides:
//!
//! - while no more than n of its turns are no barrier, the thread asks nothing that the source does not,
//! - after `(n + 1) * bound` turns it has asked all that the source asks with n units.
//!
//! The bound is the number of the code's operations, plus twice the number of its regions, plus one. `specs/Acts` has
//! the statement.
//!
//! *Nested code* stands between the tree of asks and the flat code (`lam_meaning/specs/Nested`). It is the operations
//! of each construct with their structure, a region with its body and its catch block inside. The scheme is its
//! pieces, laid out flat. Under a list of answers nested code changes the operands, gathers the asks, and lists
//! monitors as they are taken: `specs/Gathers` has what it does. `proofs/Placed` says where the units of functions and
//! regions stand in the scheme's code.
//!
//! Half of the proof goes from trees to nested code. Played with the same answers, both make the same asks, construct
//! by construct. They end with the same values, locals, capabilities, answers and units left. `proofs/Plays` has the
//! one induction over trees. Only the code has monitors. A context holds those of the open `sync`s, by the slots of
//! their references, so that each is held when it is given back. `proofs/Operations` and `proofs/Effects` have single
//! operations. `proofs/Expressions`, `proofs/Statements`, `proofs/Regions` and `proofs/Threads` have the constructs.
//!
//! The other half goes from nested code to addresses. A thread of flat code that runs alone goes, turn by turn, through
//! the same operands, locals, monitors and asks as the nested code. The proof counts its turns. An operation takes one,
//! and a region those of its body and catch block. Each turn of a loop and each call takes no more than the bound.
//! `specs/Lone` has the bound and the lone thread, made of `thread_steps`' next turn and taken answer. `proofs/Turns`
//! has ways with their costs, `proofs/Steps` single operations, and `proofs/Contexts` regions. `proofs/Runs` has all
//! forms of nested code at a place where it stands (`proofs/Stands`). `proofs/Constants`, `proofs/Laid` and
//! `proofs/Places` say that the scheme's code stands in its units.
//!
//! A public promise rests on `compiled_code_acts_as_its_source`: a program's code makes the asks that the program
//! means (clause `acts` of `compile`, `barrier_compiler`). Nothing here is a matter of speed.
#![tactic(auto)]

ghost use Rattle.lam_resolve_tree.specs.Tree.{ResolvedTree};
ghost use Rattle.lam_meaning_laws.specs.Acts.{CodeActs, NeverStuck};
ghost use Rattle.lam_meaning_laws.specs.Joined.{NestedMeans};

/// The code of a typed program acts as its source: with each function of it, arguments of the sorts of its parameters'
/// types, any capabilities, and any answers that suit.
pub fn compiled_code_acts_as_its_source()
    ensures { (r : ResolvedTree) → CodeActs r }
{}

/// Where each answer suits its ask, a thread of the code of a typed program is never stuck, after any number of turns.
pub fn compiled_code_is_never_stuck()
    ensures { (r : ResolvedTree) → NeverStuck r }
{}

/// The nested code of a typed program makes the asks that its source means: with any function of it, any capabilities and
/// any number of units, where the answers suit.
pub fn nested_code_means_its_source()
    ensures { (r : ResolvedTree) → NestedMeans r }
{}
