//! The reference monitor, with a semantic rule for each ask.
//!
//! [`serve`] has a *row* for each ask: its tests in their order, its fault, its effect and its answer. It reads the
//! stores and the acting context, and changes nothing; `lam_machine_effects` applies the effect. `flow_labels` and
//! `capabilities` test the rules, and the first that fails is the answer. Where a rule asks for capabilities, the
//! public ones of the stores count beside those of the context.
//!
//! - `rules`: the tests of more than one rule.
//! - `things`, `files`, `pipes` and `contexts`: the rows of the asks about each.
//! - `services`: their services where memory may be refused to an effect.
//! - `rows`: the dispatch of each ask to its row.
//! - `readiness`: which ask waits, and which may be made.
//!
//! `specs/Serves` says what is read, and `lam_machine_terms` what is served.
//!
//! A public promise rests on [`serve`] and on [`is_ready`]: each ask is served exactly by its row, and waits exactly
//! where the definition says. Free to change for speed: the order in which a row reads and tests.
#![tactic(auto)]

mod actor;
mod contexts;
mod files;
mod pipes;
mod readiness;
mod rows;
mod rules;
mod services;
mod things;

pub use actor::Acting;
pub use lam_machine_effects::{Served, Stores};
pub use readiness::is_ready;
pub use rows::serve;
