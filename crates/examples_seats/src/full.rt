//! A run that is full.

use crate::given::ENDLESS;
use crate::scenes::{By, Call, two_seats_show};
use std::test::Fail;

/// A run has a million turns, and no more. That is told after what the seat has not seen, and before whether the thread is
/// ready.
#[test]
fn full_comes_between(rt: HostRuntime) -> Result<(), Fail> {
    two_seats_show(
        &rt,
        ENDLESS,
        &[
            Call {
                by: By::First,
                thread: 0,
                turns: 1_000_000,
            },
            call_for(By::First, 0),
            call_for(By::Second, 0),
            call_for(By::Second, 0),
            call_for(By::Second, 1),
        ],
        "took 999999\nfull 1000000\nstale 1000001 999999\nfull 1000002\nfull 1000003\nseen 1000001 1000004\nplaces of 0 1000000\nempty places 4\nlam book 1\n0 1000000\n",
    )
}

fn call_for(by: By, thread: u32) -> Call {
    Call {
        by,
        thread,
        turns: 1,
    }
}
