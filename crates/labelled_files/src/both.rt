//! Pairs of results, of which either may have failed for want of memory.

ghost use Rattle.std.specs.Prelude.{◌≡◌, IfOk, Ok};

use lam_value::NoMemory;

/// Two values that were both made, or that memory was refused to one of them.
///
/// What was made before a refusal is let go here, and not by each caller.
pub(crate) fn both<A: Drop, B: Drop>(
    first: Result<A, NoMemory>,
    second: Result<B, NoMemory>,
) -> Result<(A, B), NoMemory>
    ensures { IfOk result (λ p. (first ≡ Ok p.0) × (second ≡ Ok p.1)) }
{
    let first = first?;
    let second = second?;
    Ok((first, second))
}
