//! A thread's asks of the reference monitor, which are its system calls, and their answers.
//!
//! A thread computes by itself until it needs an object's slot, a file, a pipe, a monitor, or a change of its own
//! label. Then it makes an *ask*, its system call, and goes on with the *answer*. The meaning of programs and the
//! machine both speak of asks, and neither depends on the other. So asks and answers stand in a crate alone.
//!
//! - `fault`: what can go wrong, with the numbers that a program sees.
//! - `ask`: the asks.
//! - `answer`: the answers and the events of a run.
//! - `specs/Suits.antt`: which answers an ask may get.
//!
//! An ask has thirty forms, and a function that drops one contains the drop of each form, too much beside anything
//! else. So a layer that is done with an ask, or with an event that holds one, passes it to [`let_go`] or
//! [`let_go_event`]. These find the ask's family first (`family`), and then drop it form by form in a function for that
//! family (`families`). `Ask::copy` goes by families, too.
//!
//! A public promise rests on `Ask::copy`, `Fault::number` and the definition of `specs/Suits`: asks, faults and answers
//! of a run. Free to change for speed: how an ask is copied and let go.
#![tactic(auto)]

mod answer;
mod ask;
mod events;
mod families;
mod family;
mod fault;
mod together;

pub use answer::{Answer, Event, Outcome, What};
pub use ask::Ask;
pub use capabilities::{Caps, flow_labels_same as same};
pub use events::{let_go_event, let_go_what};
pub use families::let_go;
pub use fault::Fault;
pub use lam_value::{Label, Name, Value, Values, same_values};
pub use together::both;
