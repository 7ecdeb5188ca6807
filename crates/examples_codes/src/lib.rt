//! Worked examples of codes that are written by hand: the verifier, numbered labels, and calls over runs.
//!
//! The expected breaks, marks, numbers and answers come from the definitions, never from the code.
//!
//! - `breaks` and `marks`: what the verifier says of a code. Most of these codes stand beside the definitions too, where
//!   their breaks are computed. `thinned`: a code without redundant barriers. `numbers`: numbered labels.
//! - Over runs of one small code (`given`): `answers` steps one thread and answers its ask, `workers` has runs that
//!   workers take, `pairs` compares two runs, and `walks` follows one on the sources of programs. `entries` says whether
//!   a run begins where such a program does.
//! - `overlaps`: workers that are away with turns at one time.
#![tactic(auto)]

#[cfg(test)]
mod answers;
#[cfg(test)]
mod breaks;
#[cfg(test)]
mod entries;
#[cfg(test)]
mod facts;
#[cfg(test)]
mod given;
#[cfg(test)]
mod numbers;
#[cfg(test)]
mod overlaps;
#[cfg(test)]
mod pairs;
#[cfg(test)]
mod thinned;
#[cfg(test)]
mod walks;
#[cfg(test)]
mod workers;
