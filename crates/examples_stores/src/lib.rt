//! Worked examples of values, counters, the heap, monitors, files and pipes.
//!
//! A contract leaves want of memory free; these tests run each call once with ample memory. The expected values come
//! from the descriptions, never from the code. Each is short, since it is proved before it runs.
#![tactic(auto)]

#[cfg(test)]
mod counters;
#[cfg(test)]
mod files;
#[cfg(test)]
mod heap;
#[cfg(test)]
mod monitors;
#[cfg(test)]
mod pipes;
#[cfg(test)]
mod values;
