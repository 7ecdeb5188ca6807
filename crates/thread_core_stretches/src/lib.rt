//! Private turns of one thread in a row: in place, or on a copy of it, as a stretch.
//!
//! A private turn reads and changes its thread alone. So a worker that shares a world can take many of them on a copy,
//! and needs the world only to put the result back. A [`Stretch`] knows its thread before, its thread after so many
//! private turns, and their number. `specs/Stretches` says when that is so of a code; each step keeps it.
//! [`go_privately`] takes such turns of a thread itself. Those that only compute are taken in a loop over the acting call
//! (`simple`, `ahead`, `cached`), and so are loads of values that own memory. Any other is the general turn of
//! `thread_core`.
//!
//! A public promise rests on [`Stretch::begin`], [`Stretch::step`] (clauses `taken`, `ok`, `err`, `stands`),
//! [`Stretch::go_for`] (clause `stands`) and [`go_privately`] (clauses `ok`, `err`): the thread is what so many of its own
//! private turns leave. Free to change for speed: how many turns a call takes, and which of them are simple.
#![tactic(auto)]

mod ahead;
mod cached;
mod privately;
mod simple;
mod stretch;

pub use privately::go_privately;
pub use stretch::{STRETCH_LIMIT, Stretch, let_go_stretch};
pub use thread_core::{
    Outlook, Standing, Waits, outlook, standing as thread_core_standing, waits_for,
};
