//! The law that a document's files and directories are a forest, in proofs alone.
//!
//! `world_forest` defines a forest of files, and `world_forest_laws` shows that every run keeps one. This is the start
//! of a run. A document's items are put one after another below the root, each at a free place and under a fresh name.
//! So it is in every version of a document (`specs/Laws`).

ghost use Rattle.lam_bytecode.specs.Codes.{CodeTree};
ghost use Rattle.world_forest_laws.specs.FirstWorlds.{WorldsAreForests, TextsAreForests};

/// Where a document gives a world, its files and directories are a forest.
pub fn worlds_begin_as_forests()
    ensures { (code : CodeTree) → WorldsAreForests code }
{}

/// So it is where a text gives a world.
pub fn texts_begin_as_forests()
    ensures { (code : CodeTree) → TextsAreForests code }
{}
