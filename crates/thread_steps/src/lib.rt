//! Definitions of threads, and of the next turn of each.
//!
//! A thread is a stack of security contexts, each with its label and capabilities. Only the top context acts: it takes
//! an operation of its code, or handles a raised fault. An operation is *private* where it changes only the inside of
//! the top context, and else an *ask*, which the reference monitor answers. Where neither applies, the thread is
//! *stuck*.
//!
//! - `specs/Threads`: the data.
//! - `specs/Operators`: what operators give.
//! - `specs/Builtins`: the one table of built-in calls.
//! - `specs/Ops`: the effect of each operation.
//! - `specs/Next`: what comes next, and what an answer does to the thread.
//!
//! The compiler's proof and the machine both stand on these definitions, and neither on the other. The code here looks
//! functions and regions up among a code's units (`units`), for the verifier and for threads.
//!
//! All promises about threads are stated in these definitions. Free to change for speed: how a region's unit is found.
#![tactic(auto)]

mod units;

pub use lam_asks::{
    Answer, Ask, Caps, Fault, Label, Name, Outcome, Value, Values, both, same, same_values,
};
pub use lam_bytecode::Code;
pub use units::{UnitAt, function_takes, region_of, region_takes};
