//! The number of turns that each thread takes.

ghost use Rattle.std.specs.Prelude.{◌≡◌, ◌-◌, ◌^◌, ◌<◌, get_or, IfOk};
ghost use Rattle.source_walk_run.specs.Counting.{counted, AreTurnsOf};

use std::alloc::Global;
use want_of_memory::NoMemory;

/// How many of the turns are of each of so many threads. It takes a step for each turn.
///
/// # Errors
///
/// `NoMemory` where memory is refused.
pub(crate) fn turns_of_each(
    alloc: Global,
    turns: &[u32],
    threads: usize,
) -> Result<Vec<u64>, NoMemory>
    ensures { IfOk result (λ counts. AreTurnsOf turns.now threads counts.items) }
{
    let mut counts = Vec::from_elem(alloc, 0u64, threads)?;
    for turn in turns {
        count(&mut counts, *turn as usize);
    }
    Ok(counts)
}

/// One turn more of a thread, where it is there.
fn count(counts: &mut Vec<u64>, thread: usize)
    requires { get_or counts.old.items thread 0 < 2 ^ 64 - 1 }
    ensures { counts.new.items ≡ counted thread counts.old.items }
{
    if thread < counts.len() {
        counts[thread] += 1;
    }
}
