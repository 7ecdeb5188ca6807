//! Effects of operations as data, known before they are done.
//!
//! An [`OpEffect`] says exactly what an operation does to the acting call, as its definition says (`did_of`). It
//! borrows the parts of values and asks, and allocates nothing. [`value_from`] and [`ask_from`] copy such parts into a
//! value or an ask. The crates above give the effect of each operation: `thread_core_calls` those of built-in calls,
//! `thread_core_ops` all others.
//!
//! No public promise rests on it directly: `lam_machine`'s does. Free to change for speed: how parts are copied.
#![tactic(auto)]

mod acted;
mod asks;
mod equal;
mod readers;

pub use acted::{AskRef, Called, Computed, OpEffect, ValueRef};
pub use asks::{ask_from, value_from};
pub use equal::{same_names, same_values};
pub use readers::{is_null, number_in, some_null, tag_in, thing_in, truth_in};
pub use thread_core_state::{Context, Operands};
