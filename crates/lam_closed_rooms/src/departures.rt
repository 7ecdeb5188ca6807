//! The line of where turns depart from the closed schedule.

ghost use Rattle.std.specs.Prelude.{◌≡◌, ◌≢◌, IfOk, IfErr, Some, string_bytes};
ghost use Rattle.guarded_code_runs.specs.Worlds.{IsSound};
ghost use Rattle.lam_machine_runs.specs.Stops.{stopped_at};
ghost use Rattle.lam_main_replay.specs.Books.{WhereReady};
ghost use Rattle.lam_main_replay.specs.Halts.{Says};
ghost use Rattle.lam_closed_plan.specs.Checks.{departure_line, IsOfDeparture};

use closed_run::{World, first_departure};
use closed_terms::Departure;
use decimal_text::push_number;
use flow_labels::Label;
use guarded_code::Verified;
use lam_main_replay::{Halt, run_halt};
use std::alloc::Global;
use want_of_memory::NoMemory;

/// The line of turns, where they are a run. A turn whose thread is not ready is told first.
pub(crate) fn told(
    alloc: Global,
    code: &Verified,
    start: World,
    turns: &[u32],
    base: &Label,
) -> Result<String, Halt>
    requires sound { IsSound code.now start }
    ensures says { Says result (WhereReady (IsOfDeparture code.now start base.now turns.now) (stopped_at code.now turns.now start)) }
    ensures no_fault { IfErr result (λ halt. halt ≢ Halt.ShelfFailed) }
{
    match first_departure(alloc, code, start, turns, base) {
        Ok(departure) => Ok(line_of(alloc, departure)?),
        Err(fault) => Err(run_halt(fault)),
    }
}

/// The line of a departure, or of none.
fn line_of(alloc: Global, departure: Option<Departure>) -> Result<String, NoMemory>
    ensures { IfOk result (λ text. string_bytes text ≡ departure_line departure) }
{
    match departure {
        None => Ok(String::from_str(alloc, "closed\n")?),
        Some(at) => departure_text(alloc, at),
    }
}

/// The line of a departure.
fn departure_text(alloc: Global, at: Departure) -> Result<String, NoMemory>
    ensures { IfOk result (λ text. string_bytes text ≡ departure_line (Some at)) }
{
    let mut text = String::new(alloc);
    text.push_str("departs at turn ")?;
    push_number(&mut text, at.turn)?;
    text.push_str(" thread ")?;
    push_number(&mut text, at.thread as u64)?;
    text.push('\n')?;
    Ok(text)
}
