//! The laws of calls: what a call's text and files tell, in proofs alone.
//!
//! The tool's contract says what a call does of its plan, and `lam_main_plan` says what is planned. These laws join
//! that to the laws of the machine, of documents and of the source. All but those of `audits`, two of `saves` and
//! `sources_run_as_meant` are clauses of `lam`.
//!
//! - `runs`: **the headline**. What `run` printed is what its observer sees of the run that the written book records.
//!   Any other run of the code that it cannot tell apart looks the same to it (`specs/Headline`, with the like of
//!   `make`).
//! - `makes`: every call of `make` is in order (`specs/Complete`).
//! - `ends`: a call whose words and files are in order is done, and refusals come exactly where they are planned
//!   (`specs/Orderly`).
//! - `fronts`: of a prefix of a run an observer is shown the first of the lines of the run, and `replay` prints them so
//!   (`specs/Fronts`).
//! - `replays`: two calls of `replay` whose starts their observer cannot tell apart print the same, and `audit` prints
//!   each release past any observer (`specs/Calls`).
//! - `pairs`: what `pair` tells of two runs (`specs/Pairs`).
//! - `saves`: what `next` does with the files at the end of a run. What it writes is read as the start of the next one
//!   (`specs/Saves`).
//! - `walks`: what `walk` tells of a run (`specs/Walks`).
//! - `audits`: what is kept of a run for observers and auditors is whole (`specs/Whole`).
//! - `meant`: the runs of all these calls mean what their source means (`specs/Meant`).
//!
//! All laws here are public promises. Nothing here is a matter of speed.
#![tactic(auto)]

mod audits;
mod ends;
mod fronts;
mod makes;
mod meant;
mod pairs;
mod replays;
mod runs;
mod saves;
mod walks;

pub use audits::{audits_are_whole, releases_are_told};
pub use ends::{orderly_calls_are_done, refusals_are_exact};
pub use fronts::{fronts_are_printed, fronts_are_seen_first};
pub use makes::{broken_makes_are_recorded, makes_are_complete, makes_end};
pub use meant::{calls_run_as_meant, sources_run_as_meant};
pub use pairs::pairs_are_told;
pub use replays::{audits_are_printed, replays_are_isolated};
pub use runs::{
    broken_runs_are_recorded, generated_runs_are_recorded, orderly_runs_end, runs_are_complete,
    runs_are_recorded, runs_end_in_order,
};
pub use saves::{next_starts_agree, next_worlds_are_read, saves_are_told};
pub use walks::walks_are_told;
