//! The sharing of a run's turns among workers, and the scheduler's hook of the program.
//!
//! [`Pace`] says which worker takes turns of which thread, how many, and who is woken. It is a matter of speed and of who goes
//! on when, so no clause of `thread_host` speaks of it: whatever stands here, what the workers leave is a run.
//!
//! A public promise rests on `SpreadGate::pick` (its one clause): worker 0 picks by turns of 64. `Pace::place_from` has a clause
//! too, on which `thread_host` rests: the place is one of the list.
//!
//! Which book one worker writes is no promise of a clause. But two calls write the same one, and sessions of examples/ compare
//! such books. It is decided by the picks and by where rows of private turns end: `Pace::turns_here`, `turns_away` and `asks`
//! with one worker, and `lightness` of `thread_host`. So a change of those changes pages.
//!
//! Free to change for speed: what `SpreadGate` picks for the other workers, and what [`Pace`] says to several, as long as no
//! wake-up is lost (the tests `pace` of `examples_ground`).
#![tactic(auto)]

mod gates;
mod pace;

pub use gates::{SpreadGate, may_wait};
pub use pace::{Pace, Wakes};
