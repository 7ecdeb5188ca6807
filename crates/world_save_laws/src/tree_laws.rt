//! The law that a saved world's items make its files and directories again.
//!
//! `world_save_terms` lists what the root reaches as items, each directory followed by what it holds. `world_doc_terms`
//! puts the items of a document one after another below a root. This law joins the two. Each item finds the directory
//! that was made before it, a free place, and its own name free, since the files are a forest. In the end there is what
//! the root reached, with equal names, entries in their order, bytes and counters, and nothing else (`specs/Reached`).
//! All of it is in proofs alone.

ghost use Rattle.world_save_laws.specs.TreeLaws.{TreesAreMadeAgain};

/// The items of files and directories, put one after another below a root that is alone, make again what the root
/// reaches.
pub fn trees_are_made_again()
    ensures { TreesAreMadeAgain }
{}
