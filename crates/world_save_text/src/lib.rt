//! The text of a saved world's document, written or only counted by a [`JsonWriter`].
//!
//! A text that is too long is not built: [`count_document`] says how long it would be, and takes memory for one row and
//! one file at a time. It takes the rows in the order of the list of homes, since the length is the same in each order.
//! [`write_document`] writes the text, of rows in order.
//!
//! - `writer`: the writer, which keeps a text or its length alone.
//! - `values`: the JSON values that are written.
//! - `paths`: the first item whose path is no text. An item comes after its directory, so it is the first whose own
//!   entry is none.
//! - `rows`, `tags`, `tree`: the lists of counters, of tags, and of files and directories. The path of each is made
//!   from the path before it, and counted by the length that its step says.
//! - `document`: all of them together.
//!
//! The promise of `save_files` (`world_save_files`) rests on `count_document`, `write_document` and `first_bad_path`
//! (the one clause of each). Free to change for speed: how the parts of a text are put together.
#![tactic(auto)]

mod document;
mod paths;
mod rows;
mod tags;
mod tree;
mod values;
mod writer;

pub use document::{Contents, count_document, write_document};
pub use paths::first_bad_path;
pub use values::{digits, escaped, label, number, quoted};
pub use writer::{JsonWriter, raw};
