//! The length of the part in which two agendas are equal.

ghost use Rattle.std.specs.Prelude.{◌≡◌, ◌||◌, cond, length, min};
ghost use Rattle.pair_check_terms.specs.Pairs.{is_turn, IsMet};
ghost use Rattle.pair_check_terms.specs.declared.answer.PairAnswer.TheVariants.{TurnsDiffer, ReleaseDiffers};
ghost use Rattle.pair_check_agenda.specs.Agendas.{item_in, items_in};

use crate::entry::{Entry, is_turn, same_entry};
use pair_check_terms::PairAnswer;

/// The first place at which two lists differ, and whether one of them has a turn there; or how far both go.
pub(crate) fn meeting(a: &[Entry], b: &[Entry]) -> PairAnswer
    ensures { IsMet (items_in a.now) (items_in b.now) result }
{
    let both = shorter(a, b);
    for at in 0..both {
        let one = &a[at];
        let other = &b[at];
        if !same_entry(one, other) {
            return difference(one, other, at as u64);
        }
    }
    PairAnswer::Agree { n: both as u64 }
}

/// The length of the shorter list.
fn shorter(a: &[Entry], b: &[Entry]) -> usize
    ensures { result ≡ min (length a.now) (length b.now) }
{
    if a.len() < b.len() { a.len() } else { b.len() }
}

/// What two entries that differ make of a place.
fn difference(a: &Entry, b: &Entry, n: u64) -> PairAnswer
    ensures { result ≡ cond (is_turn (item_in a.now) || is_turn (item_in b.now)) (TurnsDiffer n) (ReleaseDiffers n) }
{
    if is_turn(a) || is_turn(b) {
        PairAnswer::TurnsDiffer { n }
    } else {
        PairAnswer::ReleaseDiffers { n }
    }
}
