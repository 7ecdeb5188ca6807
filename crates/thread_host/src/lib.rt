//! A run whose turns several workers take, under one lock.
//!
//! [`run_on`] starts the workers. Each takes the lock and asks the scheduler's hook (a `Gate` of `lam_io`) for a ready
//! thread. If the thread's next turn is private, its copy costs little (`lightness`) and pays (`thread_host_pace`), the
//! worker releases the lock. It takes up to 4,096 private turns of a copy, and checks them in under the lock, if the
//! thread is still what it was. Else it takes private turns in place, or one other turn, under the lock. Then it releases
//! the lock and tells the hook. It stops where the run has ended, and sleeps where there is nothing to take. A hook that
//! holds nothing waits for nobody (`may_wait` of `thread_host_pace`): then a worker may look several times under one lock.
//! Where there is one worker it is the caller, without a lock or a thread of its own.
//!
//! What is checked in is whole under the lock, so the turns stand in one order. What the workers leave is a run like
//! any other, and that order and the start tell all of it. The hook's picks decide the order, and no contract rests on
//! them. [`run_kept`] also folds over the run as its turns are taken, for a view or a count (`Keeps` of
//! `lam_machine_replay`). So no second pass is made.
//!
//! A lock's contract does not say which value it returns. The guarded type (`shared`) therefore has a phantom
//! parameter, [`Origin`] (`origins`), that fixes the code, the start, the budget and what is kept. So what comes back
//! is known to be a course of them, and nothing is copied or compared to find that out.
//!
//! Public promises rest on [`run_on`] and [`run_kept`] (clauses `start`, `budget`, `how`, `only`, and `kept` of the second):
//! what workers leave is a run of the code from the start, within the budget, which ended as it says, and what was kept is of
//! its moments. They rest on `Shared::begin` and `Shared::end` too (`ok`, `err`): what is taken is of a ready thread and within
//! the budget, and what is checked in is a stretch that fits. Free to change for speed: which threads of several workers are
//! copied (`lightness`). No clause speaks of how long a stretch is (`LONGEST` of `shared`), but docs/ARCHITECTURE.md and
//! docs/DECISIONS.md name its 4,096, so a change of it changes those pages. What one worker's book shows is said in the head
//! of `thread_host_pace`; `lightness` decides there too how long a row is.
//!
//! - `visits`: one visit of the shared course.
//! - `stretches`: private turns in place, and how those of a copy begin and come back.
//! - `workers`: the workers; `whole_run`: the runs.
#![tactic(auto)]

mod lightness;
mod origins;
mod shared;
mod stretches;
mod visits;
mod whole_run;
mod workers;

pub use lam_machine_replay::{Counter, Keeps, World};
pub use lam_machine_runs::How;
pub use origins::Origin;
pub use shared::Shared;
pub use stretches::Opening;
pub use thread_host_run::{RunParts, let_go_verified};
pub use visits::Visit;
pub use whole_run::{Finished, FinishedKept, run_kept, run_on};
