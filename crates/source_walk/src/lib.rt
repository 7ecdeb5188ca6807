//! A check of a run's asks against the source of its program alone.
//!
//! [`walk_turns`] re-executes a program with its names resolved, with the answers of a run of turns from a start. It
//! compares the asks that it meets with the run's. It does not rely on the code of the run. Where a thread asks
//! something else than its source, or more, the answer names the first such thread and that ask's place
//! (`source_walk_terms`, `specs/Walks`).
//!
//! - `starts`: how the threads of a start begin.
//! - `threads_walk`: the walk over all threads; `source_walk_run` takes them on together, turn by turn, and
//!   `source_walk_follow` is the walk of one.
//! - `runs`: the walk over a run of a checked program, [`walk`].
//!
//! `specs/Walking` says which thread the answer names. `source_walk_meets` has the laws that a walk has one answer,
//! and which it is where the code of a run means its source.
//!
//! A public promise rests on `walk_turns` (clause `ok`) and `walk`: whether the asks of a run are those of its source,
//! and else the first thread and place. What may be made faster stands in `source_walk_run`.
#![tactic(auto)]

mod runs;
mod starts;
mod threads_walk;

pub use runs::walk;
pub use source_walk_run::{RunFault, World, meant_runs_are_same};
pub use source_walk_terms::Walked;
pub use threads_walk::walk_turns;
