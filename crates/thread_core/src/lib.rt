//! A thread's turns: its standing, its ask, its wait and its private turns.
//!
//! A thread's next turn depends on its acting context alone, and [`next`] reads it without memory. [`outlook`] gives how
//! the thread stands and what its ask waits for; [`standing`] and [`waits_for`] are its two parts. [`ask`] gives the ask.
//! [`go_on`] takes a private turn; of any other it tells only how the thread stands. [`advance`] hands the ask out, too:
//! a thread that asks is read once. A step that is refused memory leaves the thread as it was.
//!
//! An access relies on the barrier before it, and its rule is not tested again. The code is guarded, and its runs meet
//! no access whose rule fails (`guarded_code_runs`). `thread_core_answers`, above, does what an answer does to a
//! thread.
//!
//! A public promise rests on [`standing`] (clauses `near`, `standing`, `ended`), [`waits_for`], [`ask`], and [`advance`]
//! and [`private_step`] (clauses `ok`, `err`, `kept`): each is exactly what the definition of the next turn says, or
//! nothing has changed. Free to change for speed: how often what comes next is read, and how a step is made ready.
#![tactic(auto)]

mod next_turn;
mod step;
mod steps;
mod threads;
mod turn;

pub use next_turn::{Coming, next};
pub use threads::{advance, ask, go_on, outlook, private_step, standing, waits_for};
pub use turn::{Outlook, Standing, Turn, Waits};
