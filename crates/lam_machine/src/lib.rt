//! The machine: a step of a thread over the shared stores.
//!
//! [`step`] takes the turn of a thread that `lam_machine_terms` defines, where the thread is ready. A private turn
//! changes its thread alone. A turn that asks is served by reading (`lam_machine_world`). Then the thread prepares for
//! the answer, and the effect on the stores is applied last. So a refusal of memory leaves the world as it was. Neither
//! the thread nor the world is copied. [`step_privately`] takes a turn only where it is private, and makes no event of
//! it. [`step_privately_for`] takes such turns in a row.
//!
//! A public promise rests on [`step`] (clauses `ok`, `err`), [`step_privately`] and [`step_privately_for`]: a turn is
//! exactly the definition's, or nothing has changed. Free to change for speed: how a turn is prepared, and how many
//! private turns go in a row.
#![tactic(auto)]

mod ask_turns;
mod privately;
mod steps;

pub use lam_machine_world::{World, let_go_world};
pub use privately::{step_privately, step_privately_for};
pub use steps::step;
