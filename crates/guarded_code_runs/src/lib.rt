//! Soundness of guarded code in every run, for every interleaving of threads.
//!
//! In such a run each access finds a non-null reference whose rule holds. A thread at a function's entry agrees with
//! the descriptions of its code, and every turn of the machine keeps all threads in agreement. So what a barrier has
//! tested needs no second test.
//!
//! The condition is one: a valid world, a guarded code, and threads that agree with the code's descriptions. It is
//! asked of the world from which a run starts, and holds in every world of the run.
//!
//! - `specs/Worlds`: worlds whose threads are described, those from which runs start, and those from which they are
//!   sound.
//! - `specs/Laws`: the laws.
//!
//! A public promise rests on `runs_stay_sound`: in a run of guarded code each access finds a reference that its rule
//! allows. Nothing here is a matter of speed.
#![tactic(auto)]

ghost use Rattle.lam_bytecode.specs.Codes.{CodeTree};
ghost use Rattle.guarded_code_runs.specs.Laws.{EntriesAreDescribed, TurnsKeep, RunsKeep, AccessesFindInRuns, NoSecondTestInRuns, EntriesAreSound, TurnsKeepSound, RunsKeepSound, SoundAccessesFind};

/// In a world whose threads are at the entries of functions of guarded code, each thread agrees with the descriptions of
/// the code. Every turn keeps that, for the acting thread, the others and one that is spawned; so it holds in every world
/// of a run.
pub fn runs_stay_described()
    ensures entries { (code : CodeTree) → EntriesAreDescribed code }
    ensures turns { (code : CodeTree) → TurnsKeep code }
    ensures runs { (code : CodeTree) → RunsKeep code }
{}

/// In every run of guarded code from a world whose threads are at the entries of functions, an access finds a reference
/// that is not null and whose rule holds from the acting label. So it asks there, or raises Index, with no test of its
/// own.
pub fn accesses_find_their_rule_in_runs()
    ensures finds { (code : CodeTree) → AccessesFindInRuns code }
    ensures tests { (code : CodeTree) → NoSecondTestInRuns code }
{}

/// A valid world whose threads are at the entries of functions of guarded code is one from which runs of the code are
/// sound. The world that a turn leaves is one again, whatever thread takes it, and so is every world of a run. In each of
/// them an access finds a reference that is not null and whose rule holds from the acting label.
pub fn runs_stay_sound()
    ensures entries { (code : CodeTree) → EntriesAreSound code }
    ensures turns { (code : CodeTree) → TurnsKeepSound code }
    ensures runs { (code : CodeTree) → RunsKeepSound code }
    ensures finds { (code : CodeTree) → SoundAccessesFind code }
{}
