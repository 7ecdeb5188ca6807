//! The files and directories of a saved world, found from the root down.
//!
//! [`walk`] lists them as `items_of` of `world_save_terms` does: each directory followed by what it holds. It keeps a
//! stack of its own, so no depth of directories is too much for it. Its memory goes by the number of items and by their
//! entries' names alone. Paths may add up far past memory, so a path is told by how much of the path before it stays.
//!
//! - `traversal`: the list. It ends because the files are a forest (`proofs/Chains`): the directories on the way down
//!   differ.
//! - `measure`: the number of bytes that a text takes between quotes.
//!
//! The promise of `save_files` (`world_save_files`) rests on [`walk`] and `escaped_len` (the one clause of each). Free
//! to change for speed: how the way down is kept.
#![tactic(auto)]

mod measure;
mod traversal;

pub use measure::{escaped_len, letter, more};
pub use traversal::{Step, lengthen, walk};
