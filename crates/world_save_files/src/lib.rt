//! The next run's document, made of given files and directories.
//!
//! [`save_files`] refuses first what has no text: the least tag that has no name, then the first path that is no text.
//! Then it takes the values of `pipes` and `threads` from the document that the run began with, and counts the bytes of
//! the new document. It builds the document only where it is not too long. `specs/Saved` defines such a document, and
//! what is refused.
//!
//! - `numbers` and `values`: the text of a JSON value.
//! - `kept`: the texts that are taken from the older document.
//! - `document`: the refusals and the document.
//! - `lengths`: the law that all texts of the same files have one length.
//!
//! A public promise rests on `save_files` (clauses `ok`, `err`): the document is written whole, or its first refusal is
//! told. Free to change for speed: how values of the older document are copied.
#![tactic(auto)]

mod document;
mod kept;
mod lengths;
mod numbers;
mod values;

pub use document::{DOCUMENT_LIMIT, SaveFault, Saved, save_files};
pub use lengths::saved_lengths_are_one;
