//! The law of reading a document of version 3.
//!
//! The definitions of `world_doc_terms` read such a document member by member, as JSON. This law joins that to what the
//! members say (`SavedItems` there): counters of homes, and items with their paths, names and contents. Other members
//! of the document and its spelling play no part.

ghost use Rattle.lam_bytecode.specs.Codes.{CodeTree};
ghost use Rattle.world_doc_laws.specs.Saved.{FilesAreRead, StartsAreRead, BytesAreRead};

/// Where the members `counts` and `tree` of a document say counters and items, the files and directories that are read are
/// those that these make, one item after another, or the items' first break.
pub fn saved_files_are_read()
    ensures { FilesAreRead }
{}

/// Where a document of version 3 says tags, counters, items that stand in a tree, pipes and threads, its start has exactly
/// them.
pub fn saved_starts_are_read()
    ensures { (code : CodeTree) → StartsAreRead code }
{}

/// The digits that `hex` writes for the bytes of a file are read as these bytes.
pub fn saved_bytes_are_read()
    ensures { BytesAreRead }
{}
