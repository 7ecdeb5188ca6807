//! The law that a start's threads stand at function entries, with all their arguments.
//!
//! So where the code is guarded, runs from there are sound: each access finds a non-null reference whose rule holds
//! (`guarded_code_runs`).

ghost use Rattle.lam_bytecode.specs.Codes.{CodeTree};
ghost use Rattle.world_doc_laws.specs.Entered.{StartsAreEntered, StartsAreSound};

/// Where a text gives a world for a code, each thread of it is at the entry of a function of the code, with an argument for
/// each of its parameters. So runs of a guarded code from there are sound.
pub fn starts_are_entered()
    ensures entered { (code : CodeTree) → StartsAreEntered code }
    ensures sound { (code : CodeTree) → StartsAreSound code }
{}
