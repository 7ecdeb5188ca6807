//! Seats, which are callers' handles on one shared run.
//!
//! A [`SeatRun`] is a run that many callers share, each by a [`Seat`] of its own, on any threads. [`SeatRun::turn_as`]
//! takes one turn for its caller. All turns stand in one book, each once, in the caller's order, and after all that its
//! seat had seen. [`SeatRun::close`] gives the run, which is one of the given code from the given start.
//!
//! A call draws a ticket, and waits until it is served. A *place* is one ticket's position in the order of calls. It
//! holds the thread that took a turn there, or nothing. `seat_table` has the atomic steps, `law` the rule that they
//! keep, and `book` the content of the table's slot.
//!
//! Public promises rest on [`SeatRun::turn_as`] and [`SeatRun::close`]: each turn stands in the book once, and the run
//! that is given back is one of the code from its start. Free to change for speed: how long a call waits before it
//! looks again.
#![tactic(auto)]

mod answer;
mod book;
mod law;
mod places;
mod seat;
mod seat_table;

pub use answer::{CloseFault, Closed, TurnAnswer, let_go_answer, let_go_closed};
pub use places::places_differ;
pub use seat::{Seat, SeatRun, let_go_seat, let_go_seat_run};
pub use thread_host_run::let_go_verified;
