//! The reader of world documents: from a text to the start of a run.
//!
//! [`start`] is the whole reading. The bytes are UTF-8 and a JSON text. Its members are `version`, `tags`, `tree`,
//! `pipes` and `threads`, looked at in this order; in version 3 `counts` stands before `tree`. `world_doc_stores` reads
//! the tags and what is said by their names, and makes the files. What is public in the world is so by the kinds of the
//! tags.
//!
//! Each thread runs a function of the code whose result is a number, with an argument of its kind for each parameter,
//! and with capabilities. The threads are answered as they just started, or their first break, exactly as the
//! definition `threads_in` of `world_doc_terms` reads them.
//!
//! - `document`: the whole reading.
//! - `pipes`: the pipes, with a table of what the document calls them for look-up in constant time.
//! - `entry`: the functions that a thread may run.
//! - `args`: the arguments. Of several contents that may be there, exactly one is.
//! - `threads`: the threads.
//!
//! The answer is the world that the definition `start_of` of `world_doc_terms` reads, or the document's first break, in
//! a [`WorldFault`]. Only want of memory is left open.
//!
//! A public promise rests on [`start`]: the world that the definition reads, or the document's first break. Free to
//! change for speed: how the document, and the names of its pipes, are kept while it is read.
#![tactic(auto)]

mod args;
mod document;
mod entry;
mod pipes;
mod threads;

pub use document::start;
pub use lam_machine_world::let_go_world;
pub use world_doc_stores::WorldFault;
pub use world_doc_terms::WorldBreak;
