//! Whether the text of a float is as long as the shortest numeral that is read as it.
//!
//! No contract of the library `ryu` says that its numerals are the shortest. Here a numeral is tested: its digits are read as the
//! float, and neither of the two beside it that have one digit fewer is ([`is_shortest`]). Reading keeps the order of
//! numbers, so no other numeral of fewer digits is read as the float either, and all such texts of a float have one length
//! ([`shortest_texts_are_one`]).
//!
//! The length of a saved number rests on [`is_shortest`] and on [`shortest_texts_are_one`]. Free to change for speed:
//! `digits_of`, since what it finds is tested.
#![tactic(auto)]

mod digits;
mod floats;
mod lengths;

ghost use Rattle.std.specs.Prelude.{◌≡◌, ◌<◌, ◌-◌, IsTrue, Some, length};
ghost use Rattle.std.specs.Float.{binary64};
ghost use Rattle.std.specs.Float.Ieee.{neg};
ghost use Rattle.fast_float.specs.Parse.{parse_float};
ghost use Rattle.shortest_numerals.specs.Shortest.{IsShortest, IsShortestText, LengthsAreOne, ShortestAreOne};

use digits::{Digits, digits_of};
use floats::{none_beside, reads_as};
use lengths::{is_count, is_length};

/// A float above 0 has one length of shortest numerals.
pub fn shortest_lengths_are_one()
    ensures { LengthsAreOne }
{}

/// All texts of a float's shortest numeral have one length.
pub fn shortest_texts_are_one()
    ensures { ShortestAreOne }
{}

// Whether the digits are those of the shortest numeral.
fn are_shortest(x: f64, length: u64, found: Digits) -> bool
    ensures { IsTrue result → IsShortest x length }
{
    if 1_000_000_000_000_000_000 <= found.digits || found.digits % 10 == 0 {
        return false;
    }
    is_count(found.digits, found.count)
        && is_length(length, found.count, found.exponent)
        && reads_as(found.digits, found.exponent, x)
        && none_beside(found.digits, found.exponent, x)
}

// The same of a numeral without a sign.
fn is_shortest_size(x: f64, text: &[u8]) -> bool
    ensures { IsTrue result → IsShortest x (length text.now) }
{
    match digits_of(text) {
        Some(found) => are_shortest(x, text.len() as u64, found),
        None => false,
    }
}

// The same of one with a sign.
fn is_shortest_after_sign(x: f64, text: &[u8]) -> bool
    ensures { IsTrue result → IsShortest (neg x) (length text.now - 1) × (0 < length text.now) }
{
    !text.is_empty() && is_shortest_size(-x, text.split_at(1).1)
}

/// Whether a text has the length of the shortest numeral of the float that it is read as, with its sign.
pub fn is_shortest(text: &str, x: f64) -> bool
    requires { parse_float binary64 text.now ≡ Some x }
    ensures { IsTrue result → IsShortestText x text.now }
{
    if text == "0.0" {
        return true;
    }
    if text == "-0.0" {
        return true;
    }
    if is_shortest_size(x, text.as_bytes()) {
        return true;
    }
    is_shortest_after_sign(x, text.as_bytes())
}
