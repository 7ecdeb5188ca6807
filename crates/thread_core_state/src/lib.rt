//! The state of the machine's threads, in code.
//!
//! A [`LamThread`] is a stack of [`Context`]s, with its outcome if it ended. A context has a label and capabilities,
//! the monitors that it took, and its open calls. The acting call stands in the context itself, and each waiting one is
//! a [`Frame`]. [`Operands`] is the stack of operands of a call.
//!
//! Contracts see the plain records of `thread_steps`, where the top of each stack stands first; in code it is the last
//! of a vector. The fields are public, since the steps of a thread, in the crate above, change them in place. No
//! invariant ties them.
//!
//! No public promise rests on it directly: `lam_machine`'s does. Free to change for speed: how `Operands` keeps its
//! values, so far as its view stays.
#![tactic(auto)]

mod context;
mod frame;
mod operands;
mod phase;
mod thread;

pub use context::Context;
pub use frame::Frame;
pub use operands::{Operands, filled, listed};
pub use phase::Phase;
pub use thread::{LamThread, locals_of};
pub use thread_steps::{Ask, Fault, both};
