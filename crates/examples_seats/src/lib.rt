//! Worked examples of seats whose calls come one after another.
//!
//! They show the place that each call has, what it is answered, and what the shared run is closed into. `scenes` opens
//! a run and makes the calls, `lines` writes what comes of them, and the others are the examples. The expected lines
//! come from the descriptions of seats, of the machine and of books, never from the program.
//!
//! Two answers are in no example. One is a ticket that is drawn and not served (`CloseFault::Open`). A call takes its
//! seat by value, and gives it back with its ticket served. So no seat with an open ticket can be dropped, and no call
//! can be under way when the run is closed. The other is a ticket word that is used up (`TurnAnswer::Worn`): it begins
//! at 0 and rises by one with each call.
#![tactic(auto)]

#[cfg(test)]
mod full;
#[cfg(test)]
mod given;
#[cfg(test)]
mod lines;
#[cfg(test)]
mod scenes;
#[cfg(test)]
mod single;
#[cfg(test)]
mod stale;
