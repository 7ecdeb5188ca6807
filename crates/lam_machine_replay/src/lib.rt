//! Replay of a schedule from a start, with folds over its turns.
//!
//! `folds` takes the turns of a start in order, by [`keep_turns`], and keeps what a fold looks for. A fold that keeps
//! nothing of private turns is one of [`Keeps`], and a caller that takes turns itself can hand each to it as it is taken.
//! [`KeepsAll`] is for any fold. Private turns of one thread in a row are taken at once. The pass stops at the first turn
//! whose thread is not ready, and names it in a [`RunFault`]. `specs/Stops` says where turns stop to be a run, and
//! `specs/Keeping` what it is to keep something of turns. These folds are here:
//!
//! - an observer, which is its label, for what it sees ([`seen_by`], `specs/Viewed`),
//! - an [`Auditor`] for each release and each refusal ([`noted_in`], `specs/Audited`),
//! - a [`Counter`] for how often something is said, released and refused (`specs/Counted`),
//! - [`Nobody`], which keeps nothing.
//!
//! `products` has what a turn made: a region that was entered, or a copy, with all that is in it. [`product_label`] and
//! [`product`] read it from the turn's event and the world after it. So no turn copies more than what is kept of it.
//! The law [`products_are_told`] says that they tell it whole. `specs/Told` has the definitions.
//!
//! A public promise rests on [`keep_turns`] (clauses `ok`, `run`, `stops`), and [`seen_by`] and [`noted_in`] (the same):
//! what is kept is of the moments of these turns, and the first turn of an unready thread is named. It rests on the clause
//! of [`Keeps::keep`] too, and on the laws. Free to change for speed: how many turns go in a row, and what a turn copies.
#![tactic(auto)]

mod auditor;
mod counter;
mod events;
mod fault;
mod folds;
mod observer;
mod products;

ghost use Rattle.lam_bytecode.specs.Codes.{CodeTree};
ghost use Rattle.lam_machine_replay.specs.Stops.{RunsAreWhole};
ghost use Rattle.lam_machine_replay.specs.Laws.{CopiesAreLiving, PublicStayInRuns};
ghost use Rattle.lam_machine_replay.specs.Told.{ProductsAreTold};

pub use auditor::{Auditor, noted_in, taken};
pub use counter::Counter;
pub use fault::RunFault;
pub use folds::{Keeps, KeepsAll, Nobody, keep_turns, row_at};
pub use lam_machine::{World, step, step_privately, step_privately_for};
use lam_machine_laws::public_stay;
pub use observer::{seen_by, seen_of};
pub use products::{product, product_label};

/// A law: turns are a run exactly where they do not stop at one whose thread is not ready.
pub fn runs_are_whole()
    ensures { (code : CodeTree) → RunsAreWhole code }
{}

/// A law: a turn in a valid world copies only what lives there.
pub fn copies_are_living()
    ensures { (code : CodeTree) → CopiesAreLiving code }
{}

/// A law: the event of a turn and the world after it tell what the turn released, all of it, and by which capabilities.
pub fn products_are_told()
    ensures { (code : CodeTree) → ProductsAreTold code }
{}

/// A law: what is public at the start of a run is public in the world of each of its moments.
pub fn public_stay_in_runs()
    ensures { (code : CodeTree) → PublicStayInRuns code }
{
    public_stay();
}
