//! The next turn of a context.

ghost use Rattle.std.specs.Prelude.{◌≡◌, ◌<◌, ◌+◌, ◌^◌, IfSome, slice_get};
ghost use Rattle.thread_steps.specs.Next.{ops_of};
ghost use Rattle.thread_core.specs.Coming.{next_from, HasPlace};
ghost use Rattle.thread_core.specs.Untested.{untested_next};

use lam_asks::Fault;
use lam_bytecode::{Code, Op};
use thread_core_effects::OpEffect;
use thread_core_ops::see;
use thread_core_state::Context;

/// What comes next of a context.
#[derive(Clone, Copy)]
pub enum Coming<'a> {
    /// A fault that was raised is handled.
    Handles(Fault),
    /// An operation.
    Sees(OpEffect<'a>),
    /// No operation stands here.
    Nothing,
}

/// The operation at an address of a unit.
fn op_at(code: &Code, unit: usize, at: usize) -> Option<Op>
    ensures op { result ≡ slice_get (ops_of code.now unit) at }
    ensures place { IfSome result (λ _. at + 1 < 2 ^ 64) }
{
    match code.units().get(unit) {
        None => None,
        Some(unit) => {
            let ops = unit.ops.as_slice();
            if at < ops.len() { Some(ops[at]) } else { None }
        }
    }
}

/// What comes next of a context, exactly, where an access goes by the barrier before it. Takes no memory.
#[tactic(auto, unfolding(crate::specs::Untested::untested_next))]
pub fn next<'a>(c: &'a Context, code: &'a Code) -> Coming<'a>
    ensures next { next_from code.now c.now result ≡ untested_next code.now c.now }
    ensures place { HasPlace c.now result }
{
    if let Some(fault) = c.fault {
        return Coming::Handles(fault);
    }
    match op_at(code, c.unit, c.at) {
        None => Coming::Nothing,
        Some(op) => Coming::Sees(see(c, code, op)),
    }
}
