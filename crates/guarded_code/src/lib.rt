//! Guarded code, in which every access is dominated by its barrier.
//!
//! The compiler need not be trusted for the placement of barriers. A code is described address by address, and its
//! *descriptions* say whether each access finds a reference that was tested by its rule. A dataflow analysis finds them
//! in rounds over the addresses (Kildall, POPL 1973), and so a verifier can find them too.
//!
//! - `specs/Descriptions`: what is known of operands and locals, their meet where paths join, and the entry of a unit.
//! - `specs/Changes`: one table of what each operation takes and gives, and what is known after it.
//! - `specs/Rounds`: the rounds, for any kind of description.
//! - `specs/Breaks`: the four rules of guarded code and the first break of a code, with its unit and address.
//! - `specs/Says`: how much a description says, and which tables meet the rules on descriptions.
//! - `specs/Facts`: what is proved of the rounds here; `specs/Samples`: codes by hand and their breaks.
//!
//! The rounds say nothing of a run; `guarded_code_runs` proves what a run of guarded code never meets.
//!
//! A public promise rests on `Verified` (its invariant): the machine runs guarded code alone. Nothing here is a matter
//! of speed.
#![tactic(auto)]

mod known;

ghost use Rattle.std.specs.Prelude.{◌≡◌};
ghost use Rattle.guarded_code.specs.Breaks.{IsGuarded};
ghost use Rattle.guarded_code.specs.Facts.{MeetsRules, SaysMost, IsLast, EndsThere, BreaksThere, GuardedMeans};

pub use known::{Access, Known, Operand, ValueKind};
use std::marker::Model;
use thread_steps::Code;

/// What stands after the last round meets every rule on descriptions, and says at least as much as any other table that
/// meets them. Where there is such a table no round breaks.
pub fn rounds_describe()
    ensures rules { MeetsRules }
    ensures most { SaysMost }
{}

/// The rounds end: one more than those that the definition takes changes nothing. So they end where a round changes
/// nothing or breaks, however many there were.
pub fn rounds_end()
    ensures last { IsLast }
    ensures holds { EndsThere }
    ensures breaks { BreaksThere }
{}

/// A code has no break exactly where each of its units has good targets, descriptions, and operands of the kinds that its
/// operations take, and each of its accesses finds its reference tested by its rule.
pub fn guarded_code_has_no_break()
    ensures { GuardedMeans }
{}

/// A code without a break.
#[derive(Drop)]
pub struct Verified {
    code: Code,
}

impl Model for Verified {
    ghost use Rattle.thread_steps.specs.Codes.{CodeTree, coded_code};
    ghost use Rattle.guarded_code.specs.Breaks.{IsGuarded};

    ghost Value = { CodeTree };

    ghost coded = { coded_code };

    ghost view = { λ v. v.code };

    ghost invariant = { λ v. IsGuarded v.code };
}

impl Verified {
    /// A code of which it is known that it has no break. It is not copied.
    pub fn of(code: Code) -> Verified
        requires { IsGuarded code }
        ensures { result ≡ code }
    {
        Verified { code }
    }

    /// The code.
    pub fn code(&self) -> &Code
        ensures code { result.now ≡ self.now }
        ensures guarded { IsGuarded result.now }
    {
        &self.code
    }
}
