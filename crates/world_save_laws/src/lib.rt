//! The laws of saved worlds: a written document is read back, in proofs alone.
//!
//! - `text_laws`: the text of a document is read as the document, member by member (`specs/Plain`).
//! - `list_laws`: its lists say the tags, the counters and the items that were saved (`specs/ListLaws`).
//! - `tree_laws`: the items make again the files and directories that the root reached (`specs/TreeLaws`).
//! - `end_laws`: the end of every run from a document can be saved and made again (`specs/EndLaws`).
//! - `read_laws`: these four as one law (`specs/Saved`), and the same of two runs (`specs/Runs`).
//! - `run_laws`: runs that look the same to an observer leave starts that do. Each visible file and directory must be
//!   named in a visible directory (`specs/Agreeing`).
//!
//! A public promise rests on `next_worlds_are_read` and `next_starts_agree`: what `next` writes is read as the start of
//! the next run, and does not tell more than the run did. Nothing here is a matter of speed.
#![tactic(auto)]

mod end_laws;
mod list_laws;
mod read_laws;
mod run_laws;
mod text_laws;
mod tree_laws;

pub use end_laws::{ends_are_whole, starts_are_small};
pub use list_laws::{saved_counters_are_said, saved_items_are_said, saved_tags_are_read};
pub use read_laws::{next_worlds_are_read, saved_starts_agree, saved_texts_are_read};
pub use run_laws::next_starts_agree;
pub use text_laws::{spelled_documents_are_read, spelled_texts_are_bounded};
pub use tree_laws::trees_are_made_again;
pub use world_doc_laws::{entries_are_functions, runs_of_documents_mean, texts_start};
