//! Services whose effect may have been refused memory.
//!
//! A row moves its effect here, so that it has nothing left to drop where there was no memory.

ghost use Rattle.std.specs.Prelude.{◌≡◌, IfOk};
ghost use Rattle.lam_machine_effects.specs.Serves as told;
ghost use Rattle.lam_machine_effects.specs.Meaning.{meaning, DoesAs};

use lam_machine_effects::{Effect, Served};
use lam_value::Value;
use want_of_memory::NoMemory;

/// It is done, where its effect could be made.
pub fn did(effect: Result<Effect, NoMemory>) -> Result<Served, NoMemory>
    ensures { (f : told.Effect) → IfOk effect (λ e. meaning e ≡ f) → IfOk result (λ d. DoesAs d (told.does f)) }
{
    match effect {
        Ok(effect) => Ok(Served::does(effect)),
        Err(error) => Err(error),
    }
}

/// It is done and there is a value, where its effect could be made.
pub fn given(v: Value, effect: Result<Effect, NoMemory>) -> Result<Served, NoMemory>
    ensures { (f : told.Effect) → IfOk effect (λ e. meaning e ≡ f) → IfOk result (λ d. DoesAs d (told.gives v f)) }
{
    match effect {
        Ok(effect) => Ok(Served::gives(v, effect)),
        Err(error) => {
            drop(v);
            Err(error)
        }
    }
}
