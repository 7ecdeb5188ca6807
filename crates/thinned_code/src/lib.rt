//! The definition of thinned code, guarded code without its redundant barriers.
//!
//! In guarded code, what is known just before a barrier may say that the same rule tested its operand already. Such a
//! barrier always passes, so it is redundant. All redundant barriers are removed at once. A jump to an address goes to
//! the operation that stood there, or to the next one that stayed.
//!
//! - `specs/Thinned`: which operations stay, where an address goes, and thinned code, with examples.
//! - `specs/Facts`: what is proved of it here.
//!
//! Thinned code is guarded because of two properties of descriptions. An operand that is a copy of a local always has
//! that local's facts, so a redundant barrier changes no description (`proofs/Coherent`). And the descriptions of both
//! codes say the same. What stood at the operations that stayed meets the rules of thinned code (`proofs/Thinning`).
//! What thinned code's own rounds find, spread over the removed barriers, meets the rules of the code
//! (`proofs/Spread`).
//!
//! `thinned_code_acts` says what thinned code does in a run.
//!
//! A public promise rests on `thinned_code_has_no_break` and `thinned_code_tests_once`: thinned code is guarded, and
//! has no redundant barrier. Nothing here is a matter of speed.
#![tactic(auto)]

ghost use Rattle.thinned_code.specs.Facts.{StaysGuarded, StaysCode, KeepsUnits, KeepsNames, ThinnedOnce};

/// Thinned code is guarded where the code is.
pub fn thinned_code_has_no_break()
    ensures { StaysGuarded }
{}

/// Thinned code keeps what every code keeps, and of its units all but their operations and the place of a catch block: it
/// has the same functions by the same numbers and names, with the same parameters, and the same regions, constants and
/// classes.
pub fn thinned_code_keeps_units()
    ensures code { StaysCode }
    ensures units { KeepsUnits }
    ensures names { KeepsNames }
{}

/// No barrier of thinned code is redundant: thinned once more, it stays as it is.
pub fn thinned_code_tests_once()
    ensures { ThinnedOnce }
{}
