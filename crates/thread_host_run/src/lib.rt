//! Runs of a code: a start, turns in order, and the world that they leave.
//!
//! A [`Run`] begins with no turn, and each [`Run::turn`] is one of a thread that is ready. So its driver, one caller or
//! many workers under one lock, has a run at each moment, and can only make it longer. [`Run::go`] takes such a turn
//! for a caller that does not need its event.
//!
//! The code is guarded and the start is sound for it (`IsSound` of `guarded_code_runs`), and so is the world of each
//! moment. Every access finds a reference that its rule allows, and none is tested a second time.
//!
//! A [`Course`] is the part of a run that moves. [`Run::of`] puts a run together from a code, a start and a course of
//! them. So workers can share a course under a lock, while the code and the start are lent from outside.
//!
//! Private turns of one thread can be taken on a copy of it and checked in as a whole (`Stretch` of
//! `thread_core_stretches`, [`Course::check_in`], [`Run::check_in`]). Where the thread is still what it was when the
//! stretch began, its turns are turns of the run. Or they are taken in place, of the thread itself
//! ([`Course::go_along`], [`go_ready`]).
//!
//! - `readiness`: whether a thread is ready, without memory.
//! - `course` and `run`: the types; `one_turn`: one turn; `stretches`: how stretches come back.
//! - `rows`: private turns in a row, in place.
//! - `search`: the search for a thread that is ready or lives.
//! - `lists`: the list of the ready threads, kept from turn to turn; `ready_list`: with what each thread waits for
//!   (`waits`).
//! - `books`: the run of a book of turns, or the turn at which they stop to be one.
//!
//! A public promise rests on [`Run::turn`] and [`Run::check_in`] (clauses `ok`, `err`), [`Run::turns`] (clause `whole`),
//! [`Run::of`], the clauses `course` of [`Course`], and [`ready`]: turns are those of ready threads, and the world is what
//! they leave. [`list_after_turn`], [`go_ready`] and [`check_in_ready`] (clause `lists`) keep the list that of the ready
//! threads. Free to change for speed: what is remembered of each thread, which of them are looked at again, and how many
//! private turns go in a row.
#![tactic(auto)]

mod books;
mod course;
mod lists;
mod one_turn;
mod readiness;
mod ready_list;
mod rows;
mod run;
mod search;
mod stretches;
mod waits;

pub use books::{RunOf, run_of};
pub use course::{Course, let_go_course};
pub use one_turn::was_quiet;
pub use readiness::ready;
pub use ready_list::{ReadyList, check_in_ready, go_ready, list_after_turn};
pub use run::{Run, RunParts, let_go_run, let_go_verified};
pub use search::living_in;
pub use turn_book::TURN_LIMIT;
pub use waits::{Awaits, Prospect};
