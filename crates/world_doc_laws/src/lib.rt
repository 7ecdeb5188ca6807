//! Laws of world documents, in proofs alone.
//!
//! `world_doc_terms` defines what a document gives: the start of a run, or its first break. These laws join that to the
//! machine and to the source.
//!
//! - `starts`: a world that a document gives is valid. So what is proved of runs from a valid start holds of runs from
//!   a document. Its threads stand at entries (`specs/Starts`, `specs/Standing`).
//! - `entered_starts`: the threads of a start stand at entries of guarded code, and agree with its descriptions
//!   (`specs/Entered`).
//! - `saved`: the reading of a document of version 3, by its counters and items (`specs/Saved`).
//! - `runs`: every run from there of a code that acts as a typed program means what its source means
//!   (`specs/Documents`, `specs/Entries`).
//!
//! A public promise rests on [`texts_start`], [`starts_are_entered`] and [`runs_of_documents_mean`]: a document gives a
//! valid start, from which runs are sound and mean what their source means. Nothing here is a matter of speed.
#![tactic(auto)]

mod entered_starts;
mod runs;
mod saved;
mod starts;

pub use entered_starts::starts_are_entered;
pub use runs::{entries_are_functions, runs_of_documents_mean};
pub use saved::{saved_bytes_are_read, saved_files_are_read, saved_starts_are_read};
pub use starts::{texts_start, threads_stand_at_entries, worlds_start};
