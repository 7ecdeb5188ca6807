//! Labelled pipes, which are bounded message queues by name.
//!
//! A pipe's label never changes, and a message is bytes or capabilities. Messages leave a pipe in the order in which
//! they came. At most 1,024 wait in one pipe. A message for a full pipe is dropped without telling its sender, since a
//! pipe's fullness would tell what its receiver did. (Flume, SOSP 2007, drops undeliverable messages silently for the
//! same reason.)
//!
//! Nothing here tests a label. The reference monitor above first decides who may send or receive, by the rules of
//! `flow_labels` and `capabilities`. Names and the counters of their homes are those of `lam_value`.
//!
//! [`Message`] is the type of messages, and [`Pipes`] has all pipes of a run, each a queue (`queue`).
//!
//! The promises about runs rest on `Pipes::make`, `send`, `receive` and `front`: what each call gives and leaves.
//! Free to change for speed: the map of queues, and how a queue lies in memory.
#![tactic(auto)]

mod message;
mod pipes;
mod queue;

pub use message::{Message, MessageKind};
pub use pipes::{HOME_LIMIT, PipeFault, Pipes};
pub use queue::QUEUE_LIMIT;
