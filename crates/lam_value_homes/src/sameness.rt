//! Equality of maps, by length and look-up: whole, or where an observer sees.

ghost use Rattle.std.specs.Prelude.{◌≡◌, ◌↔◌, true, IsTrue, length};
ghost use Rattle.std.specs.Option.{option_copied};
ghost use Rattle.std.specs.HashMap.{IsUnique, get as at_key};
ghost use Rattle.std.specs.List.{filter};
ghost use Rattle.flow_labels.specs.declared.Label.{Label};
ghost use Rattle.lam_value_homes.specs.Alike.{is_shown, AreAlike, AreAlikeWhere, HasAlike};
ghost use Rattle.lam_value_homes.specs.Homes.{label_eq};

use flow_labels::{Label, flows};
use indexmap::IndexMap;
use std::hash::Hash;

/// Keys with a label, by which an observer sees what stands at them or does not.
pub trait Labelled: Eq {
    ghost label_of: { Self → Label };

    fn label(&self) -> &Label
        ensures { result.now ≡ label_of self.now };

    /// Equal keys have equal labels.
    ghost label_follows: { (x y : Self) → Self.eq x y ≡ true → label_eq (label_of x) (label_of y) ≡ true };
}

/// Marks that a value is compared whole.
pub struct Whole;

/// What stands at the keys of a map. `Part` marks what of it is compared: all of it, or what an observer sees.
pub trait Same<Part> {
    ghost IsSame: { Self → Self → Type 0 };

    fn same(&self, other: &Self) -> bool
        ensures { IsTrue result ↔ IsSame self.now other.now };
}

impl Labelled for Label {
    ghost label_of = { λ l. l };

    fn label(&self) -> &Label {
        self
    }

    ghost label_follows = { λ _ _ e. e };
}

impl Same<Whole> for u64 {
    ghost IsSame = { λ x y. x ≡ y };

    fn same(&self, other: &u64) -> bool {
        *self == *other
    }
}

/// Whether two maps have the same at each key whose label flows to the observer's, or at each key where there is
/// no observer.
pub fn same_maps<K: Hash + Labelled, V: Same<Part>, Part>(
    a: &IndexMap<K, V>,
    b: &IndexMap<K, V>,
    observer: Option<&Label>,
) -> bool
    ensures { IsTrue result ↔ AreAlikeWhere (λ k. is_shown (option_copied observer.entry) (K.label_of k)) V.IsSame (at_key K.eq a.now) (at_key K.eq b.now) }
{
    count_shown(a, observer) == count_shown(b, observer) && has_alike(a, b, observer)
}

/// Whether an observer sees a label, which it does where there is none.
fn is_shown(label: &Label, observer: Option<&Label>) -> bool
    ensures { result ≡ is_shown (option_copied observer.entry) label.now }
{
    match observer {
        None => true,
        Some(observer) => flows(label, observer),
    }
}

fn count_shown<K: Hash + Labelled, V>(map: &IndexMap<K, V>, observer: Option<&Label>) -> usize
    ensures count { result ≡ length (filter (λ e. is_shown (option_copied observer.entry) (K.label_of e.0)) map.now.entries) }
    ensures unique { IsUnique K.eq map.now }
{
    let mut count = 0;
    for at in 0..map.len() {
        let Some((key, _)) = map.get_index(at) else {
            unreachable!()
        };
        if is_shown(key.label(), observer) {
            count += 1;
        }
    }
    count
}

/// Whether what stands at each shown key of `a` stands there in `b` too.
fn has_alike<K: Hash + Labelled, V: Same<Part>, Part>(
    a: &IndexMap<K, V>,
    b: &IndexMap<K, V>,
    observer: Option<&Label>,
) -> bool
    ensures { IsTrue result ↔ HasAlike (λ k. is_shown (option_copied observer.entry) (K.label_of k)) V.IsSame (at_key K.eq b.now) a.now.entries }
{
    for at in 0..a.len() {
        let Some((key, value)) = a.get_index(at) else {
            unreachable!()
        };
        if !is_alike(b, key, value, observer) {
            return false;
        }
    }
    true
}

/// Whether a map has the same value at a key, where that is shown.
fn is_alike<K: Hash + Labelled, V: Same<Part>, Part>(
    map: &IndexMap<K, V>,
    key: &K,
    value: &V,
    observer: Option<&Label>,
) -> bool
    ensures { IsTrue result ↔ (IsTrue (is_shown (option_copied observer.entry) (K.label_of key.now)) → AreAlike V.IsSame (Some value.now) (at_key K.eq map.now key.now)) }
{
    if is_shown(key.label(), observer) {
        is_there(map, key, value)
    } else {
        true
    }
}

/// Whether a map has the same value at a key.
fn is_there<K: Hash + Eq, V: Same<Part>, Part>(map: &IndexMap<K, V>, key: &K, value: &V) -> bool
    ensures { IsTrue result ↔ AreAlike V.IsSame (Some value.now) (at_key K.eq map.now key.now) }
{
    match map.get(key) {
        None => false,
        Some(there) => value.same(there),
    }
}
