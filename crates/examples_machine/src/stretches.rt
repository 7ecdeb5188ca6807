//! A stretch of private turns, taken on a copy and checked in to a run.

ghost use Rattle.std.specs.Prelude.{IfOk, OnOk};
ghost use Rattle.thread_core_stretches.specs.Stretches.{StretchStands};

use crate::regions::FAULTS;
use crate::run::{opened, take_turns};
use crate::worlds::BARE;
use guarded_code::Verified;
use lam_asks::{Ask, What, let_go_event};
use std::mem::forget;
use std::test::Fail;
use thread_core_stretches::{Stretch, let_go_stretch};
use thread_host_run::{Run, TURN_LIMIT};

/// The first turns of the run enter a region, whose next ones are private up to a fault.
#[test]
fn stretch_is_checked_in_once(rt: HostRuntime) -> Result<(), Fail> {
    let mut run = opened(rt.alloc(), FAULTS, BARE)?;
    let well = checks_in_once(&mut run);
    forget(run);
    well
}

/// After six turns a stretch has three more, and is checked in; another one that began where it did fits no more, and the
/// next turn is that the fault is caught.
fn checks_in_once(run: &mut Run) -> Result<(), Fail> {
    take_turns(run, &[(0, 6)])?;
    let stretch = three_turns(run)?;
    let other = match three_turns(run) {
        Ok(other) => other,
        Err(fail) => {
            let_go_stretch(stretch);
            return Err(fail);
        }
    };
    let well = checked_in(run, stretch);
    let fits = run.fits(&other);
    let_go_stretch(other);
    well?;
    if run.turns().len() != 9 || fits {
        return Err(Fail::new("nine turns, and the other stretch fits no more"));
    }
    catches_next(run)
}

/// A stretch of thread 0, whose next three turns are private and whose fourth is not.
fn three_turns(run: &Run) -> Result<Stretch, Fail>
    ensures { IfOk result (StretchStands run.now.code) }
{
    match run.now().threads().first() {
        None => Err(Fail::new("no thread")),
        Some(thread) => {
            let mut stretch = Stretch::begin(0, thread)?;
            match steps(&mut stretch, run.code()) {
                Ok(()) => Ok(stretch),
                Err(fail) => {
                    let_go_stretch(stretch);
                    Err(fail)
                }
            }
        }
    }
}

/// Takes three private turns, and no fourth.
fn steps(stretch: &mut Stretch, code: &Verified) -> Result<(), Fail>
    ensures { StretchStands code.now stretch.old → StretchStands code.now stretch.new }
{
    let first = stretch.step(code)?;
    let second = stretch.step(code)?;
    let third = stretch.step(code)?;
    let fourth = stretch.step(code)?;
    if !first || !second || !third || fourth {
        return Err(Fail::new("three private turns and no fourth"));
    }
    Ok(())
}

/// Checks a stretch in.
fn checked_in(run: &mut Run, stretch: Stretch) -> Result<(), Fail>
    requires { StretchStands run.old.code stretch }
    ensures { OnOk result (StretchStands run.new.code stretch) }
{
    if !run.fits(&stretch) {
        let_go_stretch(stretch);
        return Err(Fail::new("the stretch does not fit"));
    }
    run.check_in(stretch)?;
    Ok(())
}

/// Takes a turn of thread 0, which is that a fault is caught.
fn catches_next(run: &mut Run) -> Result<(), Fail> {
    if run.turns().len() as u64 >= TURN_LIMIT || !run.ready(0) {
        return Err(Fail::new("not ready"));
    }
    let event = run.turn(0)?;
    let well = is_caught(&event.what);
    let_go_event(event);
    if well {
        return Ok(());
    }
    Err(Fail::new("no fault is caught"))
}

fn is_caught(what: &What) -> bool {
    match what {
        What::Private => false,
        What::Asked { ask, .. } => matches!(ask, Ask::Caught(_)),
    }
}
