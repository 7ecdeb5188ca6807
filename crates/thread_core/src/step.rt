//! A context's next private step, with its value made.

use crate::turn::Standing;
use lam_asks::Fault;
use lam_value::Value;

/// How a private turn changes a context, whatever its operands are.
#[derive(Drop)]
pub enum Change {
    /// So many operands go.
    Drops { takes: usize },
    /// A value stands in the place of so many operands.
    Puts { takes: usize, value: Value },
    /// It goes on at an address, and so many operands go.
    Jumps { to: usize, takes: usize },
    /// A function is called with so many arguments.
    Calls { unit: usize, count: usize },
    /// A fault is raised.
    Fails(Fault),
}

/// What a context does in its next turn.
#[derive(Drop)]
pub enum Step {
    Changes(Change),
    /// The top operand goes into a local.
    Sets { local: usize },
    /// The top operand is the result of the call.
    Returns,
    /// Nothing: the turn is not private, and this is how the context stands.
    Keeps(Standing),
}
