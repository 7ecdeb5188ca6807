//! Names, values and their texts.
//!
//! Everything that a program makes has a *name*: its maker's label, its own label and a number. A name tells all that a
//! reference monitor asks about a thing, so no test on a reference reads the thing. A *value* is what a local, a field
//! or an array's element holds; references among values are names.
//!
//! - `homes`: homes, each a pair of a maker's label and an own label, and look-up in a map by home.
//! - `names`: names and their order, by which stores are maps from names.
//! - `byte_text` and `values`: the values.
//! - `limits`: limits that more than one crate above speaks of.
//! - `shapes`: the classes, kinds and sizes of new things.
//! - `text`: the printed values.
//!
//! `lam_value_homes`, which this crate passes on, has the counters of homes and equality of maps. Contracts see all of
//! these as plain data: equal values are equal in every respect.
//!
//! The promises about runs rest on names and values: `Name`'s calls, `at_home`, `same_value` and the texts
//! (`value_text`, `push_value`). Free to change for speed: what a home remembers of its place, and how names share
//! their home.

#![tactic(auto)]

mod byte_text;
mod homes;
mod limits;
mod names;
mod same_lists;
mod shapes;
mod text;
mod values;

pub use byte_text::ByteText;
pub use homes::{Home, at_home};
pub use lam_value_homes::{
    Counters, Denied, HomeCounts, Label, Labelled, NoMemory, Same, TagNames, Whole, push_number,
    same_maps,
};
pub use limits::{BYTES_LIMIT, TAG_LIMIT};
pub use names::Name;
pub use same_lists::same_values;
pub use shapes::{Kind, Shape};
pub use text::{
    bytes_text, push_bytes, push_name, push_value, push_values, value_text, values_text,
};
pub use values::{Value, Values, same_value};
