//! The machine's definition: worlds, asks, turns, runs and observers' views.
//!
//! A world is a record of what the stores are seen as (`specs/Worlds`). A *service* serves an ask: it has the answer,
//! the change of the one store that the ask is about, and what is made (`specs/Serves`). `specs/Serving` has a clause
//! for each ask, and `specs/Turns` the step of one thread, runs and their replay. `specs/Views` defines what an
//! observer sees of a world and of a run: the view, releases, the agenda, the trace. `specs/Valid` says which worlds
//! are valid.
//!
//! By definition, an answer does to the acting thread what `thread_steps` says.
//!
//! No public promise rests on this crate directly: those of `lam_machine_rows`, `lam_machine` and `lam_machine_laws`
//! are stated in its terms. Nothing here is a matter of speed.
#![tactic(auto)]

pub use labelled_files::{FileFault, Files};
pub use labelled_heap::{Heap, HeapFault};
pub use labelled_pipes::{Message, MessageKind, PipeFault, Pipes};
pub use monitor_core::Monitors;
pub use thread_steps::{Answer, Caps, Fault, both};
