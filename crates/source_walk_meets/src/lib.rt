//! Laws of a source walk's answer (`source_walk_terms`), for any walk.
//!
//! A walk has one answer. Each thread began in one way, since the threads that a run starts get the next numbers, in
//! order (`specs/Births`). And a thread's asks leave those of its source at one place. Where each thread means its
//! source, as in every run of a program's own code (`lam_machine_means`), the answer is that all asks are the same.
//!
//! Public promises rest on `walks_have_one_answer` and `meant_runs_are_same`: a walk has one answer, and of a program's
//! own code `lam walk` says `same`. Nothing here is a matter of speed.
#![tactic(auto)]

ghost use Rattle.lam_bytecode.specs.Codes.{CodeTree};
ghost use Rattle.source_walk_meets.specs.Births.{RunsHaveThreads};
ghost use Rattle.source_walk_meets.specs.Meets.{WalksHaveOneAnswer, MeantRunsAreSame};

/// A law: each turn of a run is of a thread that is there; the threads that a run starts have the next numbers, in order,
/// and beside those of the start there are no others.
pub fn runs_have_threads()
    ensures { (code : CodeTree) → RunsHaveThreads code }
{}

/// A law: two answers of a walk over the same run are equal.
pub fn walks_have_one_answer()
    ensures { WalksHaveOneAnswer }
{}

/// A law: where each thread of a run means its source, the answer of a walk is that all asks are the same, and their
/// number.
pub fn meant_runs_are_same()
    ensures { MeantRunsAreSame }
{}
