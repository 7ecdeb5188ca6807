//! The law that runs from a document's world mean what their source means.
//!
//! A world document starts threads in a valid world (`starts`). Each runs a function whose result is a number, with an
//! argument of its kind for each parameter. The entries of a program's code, also of its thinned code, are its
//! functions (`entries_are_functions`). Each is the program's own function of the same number, which takes what the
//! unit says. No such argument is an object or an array. So what `lam_machine_means` says holds of every run, from
//! every document, of a code that acts as a typed program and has such entries.

ghost use Rattle.lam_bytecode.specs.Codes.{CodeTree};
ghost use Rattle.lam_resolve_tree.specs.Tree.{ResolvedTree};
ghost use Rattle.world_doc_laws.specs.Documents.{DocumentsRunAsMeant};
ghost use Rattle.world_doc_laws.specs.Entries.{SchemeEntries, ThinnedEntries, ThinnedStarts};

use thinned_code::thinned_code_keeps_units;

/// Every run of a code that acts as a typed program, from the world of every document: each thread asks what its source
/// means, and no thread of any world of the run is stuck.
pub fn runs_of_documents_mean()
    ensures { (r : ResolvedTree) (code : CodeTree) → DocumentsRunAsMeant r code }
{}

/// Each unit of a program's code that is a function with a number as its result is the program's function of that number;
/// so it is in thinned code, and a document's threads start at the same functions there.
pub fn entries_are_functions()
    ensures scheme { (r : ResolvedTree) → SchemeEntries r }
    ensures thinned { (code : CodeTree) → ThinnedEntries code }
    ensures starts { (code : CodeTree) → ThinnedStarts code }
{
    thinned_code_keeps_units();
}
