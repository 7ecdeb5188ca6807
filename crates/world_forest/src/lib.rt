//! Files and directories as a forest, in proofs alone.
//!
//! Nothing in the stores says that a directory is not its own grandchild. This crate defines that and shows it to last.
//! Each living name stands in one entry at most, and the root in none (`specs/Forest`). Names are fresh where something
//! is made, and removing only takes entries away (`specs/Laws`). So a walk from the root down by entries comes to each
//! file and directory once at most.
//!
//! A public promise rests on [`calls_keep_forests`]: each call on files keeps a forest. Nothing here is a matter of
//! speed.
#![tactic(auto)]

ghost use Rattle.world_forest.specs.Laws.{CallsKeepForests};

/// Each call that makes, puts back, removes, writes or counts files and directories keeps a forest, and the root alone is
/// one.
pub fn calls_keep_forests()
    ensures { CallsKeepForests }
{}
