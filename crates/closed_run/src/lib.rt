//! Closed runs in code: a run by the closed schedule, to its end.
//!
//! `closed_terms` defines the schedule, closed runs and how they end. Here a code takes its turns by it. [`closed_kept`]
//! makes the closed run of a code from a start, and says how it ended, and folds what somebody looks for over its turns.
//! [`closed_on`] keeps nothing. [`first_departure`] finds the first turn at which given turns are not closed. [`next_of`]
//! is one look at the schedule, for programs that take the turns themselves.
//!
//! A turn costs a step of its thread and a look at that thread alone. The list of all threads is looked at once in 64
//! open turns, where a thread waits, and where one ended. In a run, private turns of the slot's thread go in rows:
//! inside as long as they go, outside up to what is left of the slot. [`first_departure`] takes turns one by one, since
//! each is compared with the given one.
//!
//! - `next`: who is next.
//! - `places`: where a closed run stands between two turns.
//! - `turns`: whether the run goes on, private turns in a row, and one turn.
//! - `ends`: a closed run to its end; `departures`: the first departure.
//!
//! A public promise rests on [`closed_kept`] (clauses `start`, `ended`, `kept`), [`closed_on`], [`first_departure`]
//! (`ok`, `run`, `stops`) and [`next_of`]: the run is the closed one, and ends as it says. Free to change for speed:
//! when the list of threads is looked at, and how many private turns go in a row.
#![tactic(auto)]

mod departures;
mod ends;
mod next;
mod places;
mod turns;

pub use closed_terms::{Departure, End, Slot};
pub use departures::first_departure;
pub use ends::{Closed, ClosedRun, closed_kept, closed_on};
pub use lam_machine_replay::{Keeps, RunFault, World};
pub use next::next_of;
pub use thread_host_run::RunParts;
