//! Soundness of guarded code's descriptions for its threads, whatever answers they get.
//!
//! A description says which operands and locals were tested at an address, and for what. This crate shows that it holds
//! of every thread that began at a function's entry. So an access finds a non-null reference whose rule holds, and
//! needs no test of its own.
//!
//! - `specs/Described`: when a thread agrees with the descriptions of its code.
//! - `specs/Answers`: the form of an answer.
//! - `specs/Accesses`: what accesses find, and what they do without a second test.
//! - `specs/Laws`: the laws; `specs/Samples`: what is known at some addresses.
//!
//! The promise of `runs_stay_sound` (`guarded_code_runs`) rests on both laws. Nothing here is a matter of speed.
#![tactic(auto)]

ghost use Rattle.lam_bytecode.specs.Codes.{CodeTree};
ghost use Rattle.guarded_code_threads.specs.Laws.{StartsDescribed, PrivateTurnsKeep, AnswersKeep, SpawnsAtEntries, AccessesFind, NoSecondTest};

pub use guarded_code::Verified;

/// A thread of guarded code agrees with its descriptions at the entry of a function, and every turn of its own keeps
/// that: a private one, and an ask with any answer of its form. A thread that it spawns begins at a function's entry.
pub fn threads_stay_described()
    ensures starts { (code : CodeTree) → StartsDescribed code }
    ensures turns { (code : CodeTree) → PrivateTurnsKeep code }
    ensures answers { (code : CodeTree) → AnswersKeep code }
    ensures spawns { (code : CodeTree) → SpawnsAtEntries code }
{}

/// Where a described thread of guarded code stands at an access, its reference is not null and the access's rule holds
/// from the acting label. So it asks there, or raises Index, as it would with no test; nothing else can stop it than an
/// operand of another kind.
pub fn accesses_find_their_rule()
    ensures finds { (code : CodeTree) → AccessesFind code }
    ensures tests { (code : CodeTree) → NoSecondTest code }
{}
