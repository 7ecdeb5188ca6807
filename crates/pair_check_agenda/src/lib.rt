//! Agendas, the schedules of runs as an observer sees them, with the releases past it.
//!
//! Two runs from starts that agree below a label look the same there as far as they have the same agenda. That is the
//! same turns of visible threads, and the same releases past the observer (`lam_machine_terms`, `specs/Views`). An
//! [`Agenda`] is that, as data. [`agenda_of`] makes it in one pass over the turns of a start, and [`answer_of`] says
//! how far two agendas are equal (`pair_check_terms`, `specs/Pairs`).
//!
//! Of a visible turn only its thread is kept, and a release stands in a box of its own. So a long agenda takes two
//! words for each of its entries, and the contents of its releases.
//!
//! - `contents`: equality of two contents of releases.
//! - `entry`: the record of one turn; `agenda`: the list, which [`Agenda::entries`] reads.
//! - `notes`: the entry of a turn's event and the world after it; `observer`: the fold, which notes private turns in rows.
//! - `common_part`: the comparison of two agendas.
//!
//! `specs/Agendas` says what an agenda stands for, and `specs/Noting` what is noted of a turn.
//!
//! A public promise rests on [`agenda_of`] (clauses `ok`, `run`, `stops`) and [`answer_of`]: an agenda is that of the turns
//! of a start, and the answer is the first place at which two differ. Free to change for speed: how entries are stored, and
//! how many private turns are noted at once.
#![tactic(auto)]

mod agenda;
mod common_part;
mod contents;
mod entry;
mod notes;
mod observer;

pub use agenda::{Agenda, agenda_of, answer_of};
pub use entry::{Entry, Release};
pub use lam_machine_replay::{RunFault, World, runs_are_whole};
pub use pair_check_terms::PairAnswer;
