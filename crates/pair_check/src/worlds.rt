//! The first part in which two worlds differ for an observer.
//!
//! An observer sees of a world what stands at a label that flows to its own (`lam_machine_terms`, `specs/Views`).
//! [`first_part`] compares its views of two worlds, part by part, and names the first part that differs. There is none
//! exactly where the worlds agree below the observer's label (`pair_check_terms`, `specs/Parts`). Both worlds are read
//! where they stand, and no memory is taken.
//!
//! `stores` compares the parts that are stores: each store says itself whether it looks the same as another one.
//! `threads` compares threads: the contexts that are seen, in order, whatever stands between them. Where the public is
//! seen, it also compares how many threads there are and how they ended.

ghost use Rattle.std.specs.Prelude.{◌≡◌, ◌↔◌, IsTrue, MatchOption};
ghost use Rattle.lam_machine_terms.specs.Views.{Agree};
ghost use Rattle.pair_check_terms.specs.Parts.{IsSame, IsFirstPart};

use crate::stores::{same_counters, same_files, same_pipes, same_public, same_tags, same_things};
use crate::threads::same_threads;
use flow_labels::Label;
pub use lam_machine_world::World;
pub use pair_check_terms::Part;

/// The parts of a world, in the order in which they are looked at.
const PARTS: [Part; 7] = [
    Part::Tags,
    Part::Public,
    Part::Heap,
    Part::Files,
    Part::Pipes,
    Part::Counters,
    Part::Threads,
];

/// The first part in which two worlds differ as far as an observer sees, `None` exactly where they agree below its label.
/// Takes no memory.
///
/// It looks at each thing of both worlds a few times.
pub fn first_part(a: &World, b: &World, observer: &Label) -> Option<Part>
    ensures { MatchOption result (Agree observer.now a.now b.now) (λ part. IsFirstPart observer.now a.now b.now part) }
{
    for part in PARTS.iter() {
        if !is_same(*part, a, b, observer) {
            return Some(*part);
        }
    }
    None
}

/// Whether two worlds are the same in a part, as far as an observer sees.
fn is_same(part: Part, a: &World, b: &World, observer: &Label) -> bool
    ensures { IsTrue result ↔ IsSame observer.now a.now b.now part }
{
    match part {
        Part::Tags => same_tags(a, b, observer),
        Part::Public => same_public(a, b),
        Part::Heap => same_things(a, b, observer),
        Part::Files => same_files(a, b, observer),
        Part::Pipes => same_pipes(a, b, observer),
        Part::Counters => same_counters(a, b, observer),
        Part::Threads => same_threads(a, b, observer),
    }
}
