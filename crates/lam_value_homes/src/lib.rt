//! Allocation counters by home, and equality of maps.
//!
//! A *home* is a pair of labels: a maker's, and that of the thing made. Things are numbered per home and never
//! globally, so that no number tells of another label.
//!
//! - `counters`: a counter for each home, and the list of all counted homes.
//! - `sameness`: comparison of two maps key by key, whole or where an observer sees the keys.
//!
//! Names, made of a home and a number, stand above in `lam_value`, to which this crate passes labels on. The laws that
//! relate a hash map to the finite map of its contracts (`Maps`, `Rows`, `Keys` in `proofs/`) stand here once for all
//! stores.
//!
//! The promises of the stores above rest on `Counters` (its calls' values) and on `same_maps`. Free to change for
//! speed: the maps behind the counters, and the order in which homes are listed.
#![tactic(auto)]

mod counters;
mod sameness;

pub use counters::{Counters, HomeCounts};
pub use flow_labels::{
    Denied, Form, Label, NoMemory, TagId, TagNames, TagSet, push_int, push_label, push_number,
    push_sets, push_tag, same,
};
pub use sameness::{Labelled, Same, Whole, same_maps};
