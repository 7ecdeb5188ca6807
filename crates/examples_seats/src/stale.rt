//! Two seats that move one thread.

use crate::given::FAULTS;
use crate::scenes::{By, Call, two_seats_show};
use std::test::Fail;

/// A turn of thread 0 by a seat.
fn turn_by(by: By) -> Call {
    Call {
        by,
        thread: 0,
        turns: 1,
    }
}

/// Who has not seen the thread's last turn is told its place, and has seen it then.
#[test]
fn unseen_turn_makes_a_call_stale(rt: HostRuntime) -> Result<(), Fail> {
    two_seats_show(
        &rt,
        FAULTS,
        &[turn_by(By::First), turn_by(By::Second), turn_by(By::Second)],
        "took 0\nstale 1 0\ntook 2\nseen 1 3\nplaces of 0 1\nempty places 1\nplaces of 0 1\nlam book 1\n0 2\n",
    )
}

/// It is stale where the thread has ended, too, and not ready only once that was seen.
#[test]
fn stale_comes_before_not_ready(rt: HostRuntime) -> Result<(), Fail> {
    two_seats_show(
        &rt,
        FAULTS,
        &[
            Call {
                by: By::First,
                thread: 0,
                turns: 17,
            },
            turn_by(By::Second),
            turn_by(By::Second),
        ],
        "took 16 t0 {}/{} end value 1 = done\nstale 17 16\nnot ready 18\nseen 17 19\nplaces of 0 17\nempty places 2\nlam book 1\n0 17\n",
    )
}
