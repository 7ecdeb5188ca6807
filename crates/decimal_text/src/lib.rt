//! A reader and a writer of decimal numbers, such as `0`, `4096` and `-12`.
//!
//! Each number has one text: no leading zeros, no `+`, no `-0`. So a written number reads back as itself, and no other
//! text reads as that number ([`numbers_are_exact`], [`ints_are_exact`]). Scripts, schedules, the words of a command
//! and texts that a program reads all use this crate.
//!
//! The promises about scripts, schedules and command words rest on `read_number`, `read_int` and the writers (their
//! one clause each). Free to change for speed: how digits are read and written.
#![tactic(auto)]

mod read;
mod write;

ghost use Rattle.decimal_text.specs.Exact.{NumbersAreExact, IntsAreExact};

pub use read::{NumberFault, read_int, read_number};
pub use write::{push_int, push_int_bytes, push_number, push_number_bytes};

/// The text that is read as a number of 64 bits is the one that is written for it.
pub fn numbers_are_exact()
    ensures { NumbersAreExact }
{}

/// The text that is read as a whole number of 64 bits is the one that is written for it.
pub fn ints_are_exact()
    ensures { IntsAreExact }
{}
