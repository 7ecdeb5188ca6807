//! The law that every world that a document gives is valid.
//!
//! `world_of` of `world_doc_terms` is a function on what was read of a JSON text, and says nothing of validity. By this
//! law, everything that is proved of runs from a valid start holds of runs from a document. The proof follows the
//! members in the order in which they are looked at. First come the names (`proofs/ReadLemmas`), then the tree and the
//! pipes (`proofs/StoreLemmas`), which stay sound and living with each item. Last come the threads
//! (`proofs/EntryLemmas`), whose arguments live. How the threads stand is a law of its own
//! (`threads_stand_at_entries`).

ghost use Rattle.lam_bytecode.specs.Codes.{CodeTree};
ghost use Rattle.world_doc_laws.specs.Starts.{WorldsStart, TextsStart};
ghost use Rattle.world_doc_laws.specs.Standing.{ThreadsStand};

/// Where a document gives a world, it is valid: its stores are sound, what is named lives, all limits hold. It has one
/// to 64 threads, and each stands at the entry of a function of the code whose result is a number, with an argument of
/// its kind for each parameter.
pub fn worlds_start()
    ensures { (code : CodeTree) → WorldsStart code }
{}

/// So it is where a text gives a world.
pub fn texts_start()
    ensures { (code : CodeTree) → TextsStart code }
{}

/// Where a document gives a world, it has one to 64 threads, and each stands at the entry of a function of the code
/// whose result is a number, with an argument of its kind for each parameter.
pub fn threads_stand_at_entries()
    ensures { (code : CodeTree) → ThreadsStand code }
{}
