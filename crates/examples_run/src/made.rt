//! Runs of the programs and worlds that numbers make.

use crate::call::{Calls, WIDE, Wanted, comes_to, store};
use crate::gates::Hook;
use crate::given::ENTERS;
use lam_io::MemShelf;
use lam_main::Status;
use std::test::Fail;

const MADE: Wanted<'static> = Wanted {
    shows: "made threads share nothing, so the summary is the same whatever the gate",
    words: &["make", "1", "2", "B"],
    output: WIDE,
    status: Status::Done,
    printed: "made 1 2\nsaid 2\nreleases 2\nrefused 0\n",
};

#[test]
fn generated_run_repeats(rt: HostRuntime) -> Result<(), Fail> {
    let mut shelf = store(&rt, &ENTERS.files(), &[])?;
    let well = repeats(&rt, &mut shelf);
    drop(shelf);
    well
}

/// Makes the run by two gates.
fn repeats<R: Calls>(rt: &R, shelf: &mut MemShelf) -> Result<(), Fail> {
    comes_to(rt, shelf, MADE, Hook::Open)?;
    comes_to(rt, shelf, MADE, Hook::Mixes)
}
