//! Worked calls of the tool that a line of words cannot ask.
//!
//! Their outside fails, their gate is one of their own, they have many workers, or their book is looked into. The
//! others are data, of `examples_calls`. Each runs the top call over a store and an output in memory (`call`). The
//! expected bytes come from the documents of the formats, never from the tool.
//!
//! - `ends`: runs, what is seen of them and their books, also of those that no thread ends.
//! - `outside`: calls that fail.
//! - `fronts`: texts that are cut off.
//! - `play`: scripts of the greatest length.
//! - `workers`: who takes the turns, by the gates of `gates`.
//! - `views`: what is the same by any workers.
//! - `made`: the runs of what a number makes.
#![tactic(auto)]

#[cfg(test)]
mod call;
#[cfg(test)]
mod ends;
#[cfg(test)]
mod fronts;
#[cfg(test)]
mod gates;
#[cfg(test)]
mod given;
#[cfg(test)]
mod made;
#[cfg(test)]
mod outside;
#[cfg(test)]
mod play;
#[cfg(test)]
mod views;
#[cfg(test)]
mod workers;
