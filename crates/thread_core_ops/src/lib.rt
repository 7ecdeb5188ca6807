//! The effect of each operation in the acting call of a context.
//!
//! [`see`] gives an operation's effect before it is done. The `OpEffect` is exactly what the definition says, with the
//! parts of values and asks borrowed. It allocates nothing and changes nothing. So the same answer serves to say how a
//! thread stands, to ask, to act, and to find the operands that an answered ask leaves.
//!
//! - `operators`: operators, and the making of labels and capabilities.
//! - `units`: the operations that begin a unit.
//! - `previews`: the operations.
//!
//! Built-in calls, barriers, accesses and monitors stand in `thread_core_calls`.
//!
//! No public promise rests on it directly: `lam_machine`'s does. Free to change for speed: what is borrowed.
#![tactic(auto)]

mod operators;
mod previews;
mod units;

pub use operators::{label_from, operator, prefix, with_sign};
pub use previews::{FRAMES_LIMIT, see};
