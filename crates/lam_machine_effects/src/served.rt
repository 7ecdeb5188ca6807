//! The services of the reference monitor.

ghost use Rattle.std.specs.Prelude.{◌≡◌};
ghost use Rattle.lam_machine_terms.specs.Answer.TheVariants.{Done, Val, Refused, Failed};
ghost use Rattle.lam_machine_effects.specs.declared.effect.Effect.TheVariants as Effect;

use crate::effect::Effect;
use lam_machine_terms::{Answer, Fault};
use lam_value::{Denied, Value};

/// What an ask is served by.
#[derive(Drop)]
pub struct Served {
    pub answer: Answer,
    pub effect: Effect,
}

impl Served {
    /// A rule forbids it, and nothing is done.
    pub fn refused(denied: Denied) -> Served
        ensures { result ≡ record { answer = Refused denied; effect = Effect.Nothing } }
    {
        Served {
            answer: Answer::Refused(denied),
            effect: Effect::Nothing,
        }
    }

    /// It cannot be done, and nothing is.
    pub fn failed(fault: Fault) -> Served
        ensures { result ≡ record { answer = Failed fault; effect = Effect.Nothing } }
    {
        Served {
            answer: Answer::Failed(fault),
            effect: Effect::Nothing,
        }
    }

    /// It is done.
    pub fn does(effect: Effect) -> Served
        ensures { result ≡ record { answer = Done; effect = effect } }
    {
        Served {
            answer: Answer::Done,
            effect,
        }
    }

    /// It is done, and there is a value.
    pub fn gives(v: Value, effect: Effect) -> Served
        ensures { result ≡ record { answer = Val v; effect = effect } }
    {
        Served {
            answer: Answer::Val(v),
            effect,
        }
    }
}
