//! The law that files and directories of every run from a document are a forest.
//!
//! `world_forest` defines a forest of files, and says that each call on files keeps it. `first_worlds` says that every
//! world that a document gives begins with one (`specs/FirstWorlds`). The laws below say that each turn of the machine
//! keeps it, by its effect, and so every run. All of it is in proofs alone.
//!
//! A public promise rests on [`runs_keep_forests`] and on [`texts_begin_as_forests`]: files are a forest in every world
//! of every run from a document. Nothing here is a matter of speed.
#![tactic(auto)]

mod first_worlds;

ghost use Rattle.lam_bytecode.specs.Codes.{CodeTree};
ghost use Rattle.world_forest_laws.specs.Laws.{StepsKeepForests, RunsKeepForests};

pub use first_worlds::{texts_begin_as_forests, worlds_begin_as_forests};

/// Every turn of every code, from a world with sound stores, keeps a forest.
pub fn steps_keep_forests()
    ensures { (code : CodeTree) → StepsKeepForests code }
{}

/// The files and directories are a forest in every world of every run from a valid world in which they are one.
pub fn runs_keep_forests()
    ensures { (code : CodeTree) → RunsKeepForests code }
{}
