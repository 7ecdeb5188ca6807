//! Worked examples of tag sets, labels, capabilities, scripts, books, numbers and failing devices.
//!
//! A contract leaves want of memory free; these tests run each call once with ample memory. The expected values come
//! from the descriptions of the formats, never from the code. Each is short, since it is proved before it runs.
//!
//! `pace` is a search: it tries all interleavings of workers over small runs, and no wake-up is lost.
#![tactic(auto)]

#[cfg(test)]
mod books;
#[cfg(test)]
mod caps;
#[cfg(test)]
mod io;
#[cfg(test)]
mod labels;
#[cfg(test)]
mod numbers;
#[cfg(test)]
mod pace;
#[cfg(test)]
mod scripts;
#[cfg(test)]
mod sets;
