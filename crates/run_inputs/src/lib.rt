//! The readers of a run's inputs, from bytes, which know no files and no exit status.
//!
//! A program's bytes become the code that is run ([`run_code_of`]), and a document's bytes the world that a run starts
//! from ([`start_in`]). A book's bytes become turns ([`read_book`]), and an observer's text a label ([`parse_label`]).
//! A program that embeds lam reads by them as the tool does. Each says why it refuses what it reads: the first fault,
//! with its place. Compiled code is guarded (`compiled_code_guarded`), and so is what is run, so nothing verifies it at
//! run time.
//!
//! Public promises rest on every reader here (clauses `run`, `sound`, `refused` and their like): bytes are read as the
//! definitions say, or refused for their first fault. Nothing here is a matter of speed: the crates below do the work.
#![tactic(auto)]

mod code;
mod document;
mod fault;

pub use code::{compiled_code, program_in, run_code, run_code_of};
pub use document::start_in;
pub use fault::InputFault;
pub use flow_labels::{LabelFault, parse_label};
pub use lam_machine_world::let_go_world;
pub use turn_book::{BookFault, Turns, read_book};
