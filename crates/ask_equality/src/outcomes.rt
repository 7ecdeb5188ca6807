//! Equality of faults, outcomes and answers.

ghost use Rattle.std.specs.Prelude.{◌≡◌, ◌↔◌, IsTrue};

use lam_asks::{Answer, Outcome};
use lam_value::same_value;

/// Whether two outcomes are equal.
pub fn same_outcome(a: &Outcome, b: &Outcome) -> bool
    ensures { IsTrue result ↔ (a.now ≡ b.now) }
{
    match a {
        Outcome::Value(x) => matches!(b, Outcome::Value(y) if same_value(x, y)),
        Outcome::Failed(x) => matches!(b, Outcome::Failed(y) if *x == *y),
    }
}

/// Whether two answers are equal.
pub fn same_answer(a: &Answer, b: &Answer) -> bool
    ensures { IsTrue result ↔ (a.now ≡ b.now) }
{
    match a {
        Answer::Done => matches!(b, Answer::Done),
        Answer::Entered => matches!(b, Answer::Entered),
        Answer::Val(x) => matches!(b, Answer::Val(y) if same_value(x, y)),
        Answer::Refused(x) => matches!(b, Answer::Refused(y) if *x == *y),
        Answer::Failed(x) => matches!(b, Answer::Failed(y) if *x == *y),
    }
}
