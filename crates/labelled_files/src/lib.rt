//! Labelled directories and files.
//!
//! A file is a string of bytes. A directory is a list of named entries in the order of their making, each of which
//! leads to a file or a directory. Everything begins at one root, an empty directory at the public label. Removing an
//! entry removes the entry alone: its file or directory lives on for those who hold its name.
//!
//! New files and directories are numbered per home, the maker's label and the thing's own, and never globally. So a
//! name tells of no other label. Files and directories share one counter.
//!
//! A label never changes, and nothing here tests one. The reference monitor above first decides each access by the
//! rules of `flow_labels` and `capabilities`. Contracts see [`Files`] as finite maps by name, so what a call leaves
//! alone is plain to see.
//!
//! - `both`: pairs of results.
//! - `directory`: the entries of one directory, and the names that an entry may have.
//! - `contents`: the bytes of one file.
//! - `files`: all of them by name.
//!
//! The promises about runs and saved worlds rest on the calls of `Files` (clauses `fault`, `name`, `ok`, `err`, and
//! what each reader gives), on `facts` and on `hold_bytes`. Free to change for speed: the maps, and how they are copied
//! and compared.

#![tactic(auto)]

mod both;
mod contents;
mod directory;
mod files;

pub use contents::FILE_LIMIT;
pub use directory::{ENTRY_LIMIT, EntryKind, Target, is_entry_name};
pub use files::{FileFault, Files, HOME_LIMIT};
