//! The walks of a run's threads, each over its source.
//!
//! One pass over the turns of a run takes each thread's walk on, turn by turn. It keeps the state of each walk and
//! nothing of the turns before. How many turns each thread takes bounds its source, and is counted before the pass.
//!
//! - `tally`: the number of turns of each thread.
//! - `entries`: whether a thread may begin where it was started.
//! - `births`: how a thread begins that a turn starts.
//! - `walks`: the walks of all threads, and what one turn changes.
//! - `turns_pass`: the pass; `departures`: what is told of it, [`departures_of`].
//!
//! `specs/Departures` says what is told of a run, `specs/Walking` how walks stand to what was done, and
//! `specs/Counting` what is counted.
//!
//! The promise of `walk` (`source_walk`) rests on `departures_of`: where each thread of a run departs from its source
//! (clause `ok`), and which turns are no run (clauses `run` and `stops`). Free to change for speed: how the turns of
//! each thread are counted (`tally`).
#![tactic(auto)]

mod births;
mod departures;
mod entries;
mod tally;
mod turns_pass;
mod walks;

pub use departures::{Departures, departures_of};
pub use lam_machine_replay::{RunFault, World, runs_are_whole};
pub use source_walk_meets::{meant_runs_are_same, runs_have_threads};
