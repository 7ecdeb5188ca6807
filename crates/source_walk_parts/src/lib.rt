//! The building blocks of a source walk's steps.
//!
//! - `walk`: a walk's frames, its context's label, capabilities, locals and open calls, and the units left; with the
//!   changes that steps make.
//! - `answers`: which answers suit an ask.
//! - `controls`: how a walk goes on with the result of an operator or a built-in call.
//! - `locals`: the locals of calls and regions.
//! - `access`: accesses to fields and elements, with their tests in order.
//! - `things`: arrays, monitors and threads.
//!
//! `specs/States` says what a step is. It leaves the tree of asks as it is, and takes a unit or makes what is pending
//! less, as `specs/Weights` counts it.
//!
//! The promise of `walk` (`source_walk`) rests on the one clause of `suits`: an answer goes into a walk exactly where it
//! suits its ask. Nothing here is a matter of speed.
#![tactic(auto)]

mod access;
mod answers;
mod controls;
mod locals;
mod sorts;
mod things;
mod walk;

pub use access::{Access, Way, element_access, field_access, reads, writes};
pub use answers::{Failing, Given, Want, suits};
pub use controls::{built, labelled, operated, prefixed, signed};
pub use locals::{captured, padded};
pub use sorts::{kind_of, result_sort, sort_of};
pub use things::{monitor, new_array, spawns, thrown, wait_if_asked};
pub use walk::{
    Walk, begin_call, begin_region, go_to, local_of, pop, push, restore, return_to, set_local,
    spend, wait,
};
