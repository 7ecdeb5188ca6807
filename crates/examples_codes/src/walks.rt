//! Walks over a run of code that no compiler made, by the sources of programs.

use crate::entries::begins_there;
use crate::given::{ZERO, opened, take_turns};
use lam_front::check_program;
use region_check::Checked;
use source_walk::{Walked, walk};
use std::alloc::Global;
use std::mem::forget;
use std::test::Fail;
use thread_host_run::Run;

/// The source of the code, as far as its asks go.
const SAYS: &str = "fn main(): int { say(\"word\"); return 0; }";

/// A source that ends with another number.
const ENDS_OTHERWISE: &str = "fn main(): int { say(\"word\"); return 1; }";

/// A source that says another word.
const SAYS_OTHERWISE: &str = "fn main(): int { say(\"sword\"); return 0; }";

/// A run keeps to the source that says and ends as it does. From the others it departs at the ask that they do not make.
#[test]
fn walk_departs(rt: HostRuntime) -> Result<(), Fail> {
    let mut run = opened(rt.alloc(), ZERO)?;
    let well = walks(rt.alloc(), &mut run);
    forget(run);
    well
}

fn walks(alloc: Global, run: &mut Run) -> Result<(), Fail> {
    take_turns(run, 5)?;
    answers(alloc, run, SAYS, Walked::Same { asks: 2 })?;
    let at_its_end = Walked::Departs { thread: 0, ask: 1 };
    answers(alloc, run, ENDS_OTHERWISE, at_its_end)?;
    let at_once = Walked::Departs { thread: 0, ask: 0 };
    answers(alloc, run, SAYS_OTHERWISE, at_once)
}

/// Fails where the walk over a run by the source of a program has another answer.
fn answers(alloc: Global, run: &Run, text: &str, wanted: Walked) -> Result<(), Fail> {
    let checked = check_program(alloc, text.as_bytes())?;
    let walked = walked_by(alloc, &checked, run);
    forget(checked);
    match walked? {
        found if found == wanted => Ok(()),
        found => Err(Fail::new(format_args!("{found:?}"))),
    }
}

/// The walk over a run by the source of a program.
fn walked_by(alloc: Global, checked: &Checked, run: &Run) -> Result<Walked, Fail> {
    if begins_there(alloc, checked, run)? {
        return Ok(walk(alloc, checked, run)?);
    }
    Err(Fail::new("the run begins elsewhere"))
}
