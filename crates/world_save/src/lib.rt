//! The saving of a run: from its end to the document of the next one.
//!
//! [`save`] is `save_files` of `world_save_files` at the end of a run. The files and directories are those that its
//! turns left. The names of tags, what is public, the pipes and the threads are those that it began with. The law
//! [`starts_can_be_kept`] says that such a document has pipes and threads to be taken. That the files are still a
//! forest is a law of `world_forest_laws`.
//!
//! A public promise rests on [`save`] (clauses `ok`, `err`) and on the law. Nothing here is a matter of speed:
//! `world_save_files` does the work.
#![tactic(auto)]

ghost use Rattle.std.specs.Prelude.{◌≡◌, Ok, IfOk, IfErr};
ghost use Rattle.flow_labels.specs.TwoLists.{Text};
ghost use Rattle.lam_bytecode.specs.Codes.{CodeTree};
ghost use Rattle.lam_machine_terms.specs.Worlds.{World};
ghost use Rattle.world_doc_terms.specs.Start.{start_of};
ghost use Rattle.world_forest.specs.Forest.{IsForest};
ghost use Rattle.world_save_files.specs.Saved.{CanBeKept, IsSavedText, IsSaveFault};

use std::alloc::Global;
pub use thread_host_run::{Run, RunOf, let_go_run, run_of};
use world_forest_laws::runs_keep_forests;
pub use world_save_files::{DOCUMENT_LIMIT, SaveFault, Saved, save_files};

/// Every document that gives a start has pipes and threads that the next one can take.
pub fn starts_can_be_kept()
    ensures { (text : Text) (code : CodeTree) (w : World) → start_of text code ≡ Ok w → CanBeKept text }
{}

/// The document of the next run: the files and directories as the run left them, and all else as it stands in the document
/// that the run began with.
///
/// # Errors
///
/// As of [`save_files`].
pub fn save(alloc: Global, run: &Run, old: &[u8]) -> Result<Saved, SaveFault>
    requires start { start_of old.now run.now.code ≡ Ok run.now.start }
    requires forest { IsForest run.now.start.files }
    ensures ok { IfOk result (λ s. IsSavedText run.now.start.names run.now.start.public run.now.world.files old.now s.text.items s.items) }
    ensures err { IfErr result (IsSaveFault run.now.start.names run.now.start.public run.now.world.files old.now) }
{
    starts_can_be_kept();
    runs_keep_forests();
    let _turns = run.turns();
    let start = run.start().stores();
    let now = run.now().stores();
    save_files(alloc, &start.names, &start.public, &now.files, old)
}
