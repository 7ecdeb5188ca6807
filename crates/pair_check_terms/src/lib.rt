//! Definitions for comparing two runs of a code below an observer's label.
//!
//! Two runs look the same to an observer where their starts agree below its label, and as far as they have the same
//! agenda. An *agenda* is the turns that the observer sees and the releases past it. That is the isolation of runs
//! (`lam_machine_laws`). An answer names the first thing that keeps two runs from it: a [`Part`] of the starts, a turn,
//! or a release.
//!
//! - `specs/Parts`: an observer's view of a world, part by part, and the first part in which two worlds differ.
//! - `specs/Pairs`: when each answer is given.
//! - `specs/Laws`: two runs have one answer, and up to its number they look the same.
//!
//! A public promise rests on [`parts_make_agreement`], [`pairs_have_one_answer`] and [`pairs_look_same`]: two runs have
//! one answer, and look the same up to its number. Nothing here is a matter of speed.
#![tactic(auto)]

mod answer;

ghost use Rattle.lam_bytecode.specs.Codes.{CodeTree};
ghost use Rattle.pair_check_terms.specs.Laws.{PartsMakeAgreement, PairsHaveOneAnswer, PairsLookSame};

pub use answer::{PairAnswer, Part};

/// Two worlds agree below an observer's label exactly where they are the same in each part.
pub fn parts_make_agreement()
    ensures { PartsMakeAgreement }
{}

/// No two answers can be given of the same two runs.
pub fn pairs_have_one_answer()
    ensures { PairsHaveOneAnswer }
{}

/// Up to the number that an answer has, two runs of any code from valid starts have the same visible events and the same
/// releases past the observer, and just after that the observer sees the same of both worlds.
pub fn pairs_look_same()
    ensures { (code : CodeTree) → PairsLookSame code }
{}
