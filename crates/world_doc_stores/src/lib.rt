//! The reader of a world document's members, tags, files and directories.
//!
//! A document is a JSON value of `serde_json`. Each reader here computes the definition of the same name in
//! `world_doc_terms`. It answers the value that the definition reads, or the definition's break, as a [`WorldFault`].
//! Members are looked at in the order of the calls, so the first break of the document is the one that is named.
//!
//! - `fault`: the faults. `specs/Meaning` says what a result means.
//! - `members`: a member of an object in the form that it must have.
//! - `tags`: the tags with their names and kinds, labels, tags by their names, and capabilities.
//! - `path`: the way of a path from the root down, over the entries of directories.
//! - `tree`: the items of the tree of versions 1 and 2, each put into the files by their own call.
//! - `counts`: how many files and directories each home has made.
//! - `numbered`: the items of the tree of version 3, each of which says its name.
//! - `files`: all files and directories of a document of any version ([`read_files`]).
//!
//! No public promise rests on this crate directly: `start` of `world_doc` is made of its readers. Free to change for
//! speed: how a reader finds and keeps what it reads. Which break comes first is fixed.
#![tactic(auto)]

mod counts;
mod fault;
mod files;
mod members;
mod numbered;
mod path;
mod tags;
mod tree;

pub use fault::{WorldFault, bad_member, no_member, no_tag};
pub use files::read_files;
pub use members::{array_member, member, object, object_member, str_member};
pub use tags::{FirstTags, read_caps, read_label, read_label_as, read_tag, read_tags};
