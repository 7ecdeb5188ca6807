//! Labelled objects, arrays and cells in memory.
//!
//! A thing's label never changes. Nothing here tests a label: the reference monitor above first decides each access by
//! the rules of `flow_labels` and `capabilities`.
//!
//! [`Cells`] are the cells of a play script: a list of labelled numbers, named by the order in which they were added.
//! [`Heap`] has the objects and arrays of a program's run, by name.
//!
//! The promises about runs rest on `Heap` and those about scripts on `Cells`: what each call gives and leaves
//! (clauses `ok`, `err`, `new`). Free to change for speed: how things lie in rows, and how they are copied and
//! compared.
#![tactic(auto)]

mod cells;
mod heap;

pub use cells::{Cell, Cells};
pub use heap::{HOME_LIMIT, Heap, HeapFault, Sort};
