//! The definition of world documents: from JSON to the start of a run.
//!
//! Each reader of `specs/` is a row of the format: it answers a value, or the first break of the document
//! (`specs/Breaks`).
//!
//! - `specs/Tags`: the tags with their names and kinds, and what is said by them.
//! - `specs/Stores`: files, directories and pipes.
//! - `specs/Numbered`: the files and directories of version 3, which say their names.
//! - `specs/Entries`: the threads.
//! - `specs/Start`: all of these together, as `world_of` of a document that was read and `start_of` of a text.
//!
//! The order in which members are looked at is the order of the readers' calls. Stores are made by their own
//! definitions, and threads are those that just started. So there is no second account of a file, a pipe or a thread.
//!
//! In code there are the two types that readers of documents share with printers of their breaks: [`Version`] and
//! [`WorldBreak`].
//!
//! No public promise rests on this crate directly: that of `start` of `world_doc` is stated in its terms. Nothing here
//! is a matter of speed.
#![tactic(auto)]

mod breaks;
mod version;

pub use breaks::WorldBreak;
pub use version::Version;
