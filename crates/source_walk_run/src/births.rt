//! The beginnings of the threads that a run starts.

ghost use Rattle.std.specs.Prelude.{◌≡◌, IfOk};
ghost use Rattle.std.specs.Option.{option_map};
ghost use Rattle.lam_asks.specs.declared.ask.Ask.TheVariants.{Spawn as spawn};
ghost use Rattle.source_walk_meets.specs.Births.{birth_by, birth_of};
ghost use Rattle.source_walk_run.specs.Beginnings.{is_thread, beginning_of};

use capabilities::Caps;
use lam_asks::{Answer, Ask, What};
use lam_value::{Value, Values};
use source_walk_state::Beginning;
use want_of_memory::NoMemory;

/// How a thread begins that the turn started.
pub(crate) fn begun(what: &What) -> Result<Option<Beginning>, NoMemory>
    ensures { IfOk result (λ b. b ≡ option_map beginning_of (birth_of what.now)) }
{
    match what {
        What::Private => Ok(None),
        What::Asked { ask, answer } => spawned(ask, answer),
    }
}

fn spawned(ask: &Ask, answer: &Answer) -> Result<Option<Beginning>, NoMemory>
    ensures { IfOk result (λ b. b ≡ option_map beginning_of (birth_by ask.now answer.now)) }
{
    match ask {
        Ask::Spawn { unit, args, caps } => spawned_as(*unit, args, caps, answer),
        _ => Ok(None),
    }
}

fn spawned_as(
    unit: u32,
    args: &Values,
    caps: &Caps,
    answer: &Answer,
) -> Result<Option<Beginning>, NoMemory>
    ensures { IfOk result (λ b. b ≡ option_map beginning_of (birth_by (spawn unit args.now caps.now) answer.now)) }
{
    if !is_thread(answer) {
        return Ok(None);
    }
    let args = args.copy()?;
    let caps = caps.copy()?;
    Ok(Some(Beginning {
        function: unit,
        args,
        caps,
    }))
}

fn is_thread(answer: &Answer) -> bool
    ensures { result ≡ is_thread answer.now }
{
    matches!(answer, Answer::Val(Value::Thread(_)))
}
