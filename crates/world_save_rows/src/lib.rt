//! The counters of a saved world as sorted rows, and its unnamed tags.
//!
//! [`homes`] lists the homes once, in one pass. Their labels' texts may be far longer than the labels. So [`rows`] is
//! called only where it is known that all rows fit into a document.
//!
//! - `home_list`: the list.
//! - `unnamed`: the least tag of a label that would be written and has no name. All labels of files and directories are
//!   labels of homes that are counted, so only the list of these is looked at.
//! - `order`: the rows, in the byte order of the texts.
//!
//! The promise of `save_files` (`world_save_files`) rests on `homes`, `rows` and `least_unnamed`: each home once, in
//! order, or the least tag without a name. Free to change for speed: how homes are found and sorted.
#![tactic(auto)]

mod home_list;
mod order;
mod unnamed;

pub use home_list::{HomeCount, homes};
pub use order::{Row, row_of, rows};
pub use unnamed::least_unnamed;
