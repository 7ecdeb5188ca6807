//! Equality of worlds and of code, and deep copies of code.
//!
//! Two runs end alike where their last worlds are equal: all stores, and all threads with their contexts. Most parts of
//! a world compare themselves. This crate has the parts that none of the crates below compares.
//!
//! - `outcomes`: faults, and how threads ended.
//! - `contexts`: the contexts of threads with their calls.
//! - `threads` and `worlds`: the rest.
//! - `copies`: an equal code. `equality`: whether two codes are equal.
//!
//! Each comparison goes over both sides once, place by place, and takes no memory. A program's code is given once and
//! kept where it is needed. This crate copies it for callers that keep it beside a run. It compares codes, part by
//! part, for callers that must see that two runs are of one program.
//!
//! A public promise rests on [`same_code`], [`same_world`] and [`copy_code`]: the answer is equality, and a copy is
//! equal. Free to change for speed: the order in which parts are compared and copied.
#![tactic(auto)]

mod contexts;
mod copies;
mod equality;
mod outcomes;
mod threads;
mod worlds;

pub use contexts::same_context;
pub use copies::copy_code;
pub use equality::same_code;
pub use lam_machine_world::lives;
pub use outcomes::same_result;
pub use threads::same_thread;
pub use worlds::same_world;
