//! The correspondence of single turns in a code and in its thinned code.
//!
//! A thread of a code is compared with the same thread at the addresses of the thinned code. Where it stands at an
//! operation that stayed, or has a fault to handle, it does the same next in both, at their own addresses. An answer
//! does the same to both. At a removed barrier nothing is to be done.
//!
//! - `specs/Moved`: threads at their new addresses.
//! - `specs/Matches`: what is proved of their turns.

ghost use Rattle.lam_bytecode.specs.Codes.{CodeTree};
ghost use Rattle.thinned_code_acts.specs.Matches.{NextMatches, StartsMatch, AnswersMatch, PlaceIsKept};

/// What a thread of guarded code does next, and what an answer does to it, is the same in thinned code.
pub fn turns_of_thinned_code_match()
    ensures starts { (code : CodeTree) → StartsMatch code }
    ensures next { (code : CodeTree) → NextMatches code }
    ensures answers { (code : CodeTree) → AnswersMatch code }
    ensures place { (code : CodeTree) → PlaceIsKept code }
{}
