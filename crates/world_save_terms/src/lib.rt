//! Definitions of saved worlds: from a run's end to the next run's document.
//!
//! - `specs/Items`: the files and directories that can be reached from the root, each directory followed by what it
//!   holds, with their paths.
//! - `specs/Rows`: the counters, in the byte order of the texts of their homes' labels.
//! - `specs/Compact`: the texts of a JSON value in the compact form.
//! - `specs/Document`: the document, which is one JSON value, and its compact text.
//! - `specs/Refusals`: what cannot be saved.
//!
//! `world_doc_terms` defines what such a document gives when it is read.
//!
//! Nothing here is a matter of speed.
#![tactic(auto)]
