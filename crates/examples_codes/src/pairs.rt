//! Two runs of one code, beside each other.

use crate::given::{THREE, ZERO, opened, take_turns};
use flow_labels::{Label, parse_label};
use pair_check::{PairAnswer, Part, agenda_for, pair};
use std::alloc::Global;
use std::mem::forget;
use std::test::Fail;
use thread_host_run::Run;

/// Two runs whose starts differ in a secret.
#[test]
fn pairs_of_runs(rt: HostRuntime) -> Result<(), Fail> {
    let mut zero = opened(rt.alloc(), ZERO)?;
    let well = beside_another(rt.alloc(), &mut zero);
    forget(zero);
    well
}

fn beside_another(alloc: Global, zero: &mut Run) -> Result<(), Fail> {
    take_turns(zero, 5)?;
    let mut three = opened(alloc, THREE)?;
    let well = compared(alloc, zero, &mut three);
    forget(three);
    well
}

/// All turns are public: both runs have two entries while the second has two turns, and five when it has ended. Who sees the
/// secret sees that the files of the starts differ.
fn compared(alloc: Global, zero: &Run, three: &mut Run) -> Result<(), Fail> {
    are_of_one_code(zero, three)?;
    let public = parse_label("{}/{}", &zero.start().stores().names)?;
    let secret = parse_label("{a}/{}", &zero.start().stores().names)?;
    take_turns(three, 2)?;
    answers(alloc, zero, three, &public, PairAnswer::Agree { n: 2 })?;
    take_turns(three, 3)?;
    answers(alloc, zero, three, &public, PairAnswer::Agree { n: 5 })?;
    has_entries(alloc, three, &public, 5)?;
    let files = PairAnswer::WorldsDiffer { what: Part::Files };
    answers(alloc, zero, three, &secret, files)
}

/// Fails unless the runs are of one code, and from two starts.
fn are_of_one_code(zero: &Run, three: &Run) -> Result<(), Fail> {
    let one_code = zero.same_code(three.code());
    let own_start = zero.same_start(three.code(), zero.start());
    let other_start = zero.same_start(three.code(), three.start());
    if one_code && own_start && !other_start {
        return Ok(());
    }
    Err(Fail::new("one code and two starts"))
}

/// Fails where the pair of two runs has another answer for an observer.
fn answers(
    alloc: Global,
    zero: &Run,
    three: &Run,
    observer: &Label,
    wanted: PairAnswer,
) -> Result<(), Fail> {
    if !zero.same_code(three.code()) {
        return Err(Fail::new("two codes"));
    }
    match pair(alloc, zero, three, observer)? {
        found if found == wanted => Ok(()),
        found => Err(Fail::new(format_args!("{found:?}"))),
    }
}

/// Fails where an observer notes another number of entries of a run.
fn has_entries(alloc: Global, run: &Run, observer: &Label, wanted: usize) -> Result<(), Fail> {
    let noted = agenda_for(alloc, run, observer)?;
    let found = noted.len();
    forget(noted);
    if found == wanted {
        return Ok(());
    }
    Err(Fail::new(format_args!("{found} entries")))
}
