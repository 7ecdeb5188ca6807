//! The law that thinned code acts as its program.
//!
//! The proof compares a thread of guarded code that runs alone with the same thread of the thinned code. Each turn at
//! an operation that stayed is matched by the same operation's turn. A removed barrier passes, asks nothing and counts
//! as no work. So after as many turns, or fewer, the thread of thinned code has made the same asks and done the same
//! work.
//!
//! A removed barrier passes because of what is known at its address (`guarded_code_threads`), and that holds while each
//! ask gets an answer of its form. The answers suit the asks that the program means, and each of those wants an answer
//! of its own form (`proofs/Wanted`).
//!
//! `turns` has one turn of both threads beside each other (`specs/Matches`). `specs/Laws` has the statement,
//! `proofs/Lone` single turns, and `proofs/Acting` whole runs.
//!
//! A public promise rests on `thinned_scheme_acts` (clause `acts`): a program's thinned code acts as the program
//! (clause `acts` of `thin`, `barrier_thin`). Nothing here is a matter of speed.
#![tactic(auto)]

mod turns;

ghost use Rattle.lam_resolve_tree.specs.Tree.{ResolvedTree};
ghost use Rattle.lam_bytecode.specs.Codes.{CodeTree};
ghost use Rattle.thinned_code_acts.specs.Laws.{ThinnedActs, KeepsFunctions, SchemeHasFunctions, ThinnedSchemeActs};

use guarded_code_threads::threads_stay_described;
use lam_meaning_laws::compiled_code_acts_as_its_source;
pub use turns::turns_of_thinned_code_match;

/// Thinned code acts as a program where the code does, and has its functions.
pub fn thinned_code_acts()
    ensures acts { (code : CodeTree) (r : ResolvedTree) → ThinnedActs code r }
    ensures functions { (code : CodeTree) (r : ResolvedTree) → KeepsFunctions code r }
{
    threads_stay_described();
    turns_of_thinned_code_match();
}

/// So the thinned code of a typed program acts as the program, where the program's code is guarded.
pub fn thinned_scheme_acts()
    ensures functions { (r : ResolvedTree) → SchemeHasFunctions r }
    ensures acts { (r : ResolvedTree) → ThinnedSchemeActs r }
{
    thinned_code_acts();
    compiled_code_acts_as_its_source();
}
