//! The effect of an answer on a thread, in two phases: prepare, then commit.
//!
//! The machine serves an ask in its shared stores and answers it to the thread, and a refusal of memory must change
//! neither. So [`prepare`] takes all memory that the answer needs first. A [`Prepared`] is then done, or undone,
//! without any: what grows was put on the thread already, and doing it only takes away. Nothing of the thread is
//! copied. [`take_answer`] does both at once.
//!
//! A public promise rests on `prepare` (clauses `before`, `after`, `err`), `Prepared::done` and `Prepared::back`: an
//! answer does what the definition says, or nothing. Free to change for speed: what a plan holds.
#![tactic(auto)]

mod commit;
mod pauses;
mod plan;
mod plans;

pub use pauses::{Prepared, prepare, take_answer};
pub use thread_core::{Standing, Turn, advance, go_on};
