//! Equality of two faults, and of two threads' outcomes.

ghost use Rattle.std.specs.Prelude.{◌≡◌, ◌↔◌, IsTrue};
ghost use Rattle.std.specs.Option.{option_copied};

use ask_equality::same_outcome;
use lam_asks::{Fault, Outcome};

/// Whether the same fault is there, or none on either side.
pub(crate) fn same_fault(a: Option<Fault>, b: Option<Fault>) -> bool
    ensures { IsTrue result ↔ (a ≡ b) }
{
    a == b
}

/// Whether two threads ended alike, or neither has ended.
pub fn same_result(a: Option<&Outcome>, b: Option<&Outcome>) -> bool
    ensures { IsTrue result ↔ (option_copied a.entry ≡ option_copied b.entry) }
{
    match a {
        None => b.is_none(),
        Some(x) => match b {
            None => false,
            Some(y) => same_outcome(x, y),
        },
    }
}
