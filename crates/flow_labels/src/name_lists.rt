//! Equality of two lists of tag names.
//!
//! Two runs that are compared whole have the same tags by the same names. Otherwise the texts of their labels would
//! mean different things.

ghost use Rattle.std.specs.Prelude.{◌≡◌, ◌↔◌, IsTrue, length, slice_get};

use crate::names::TagNames;
use tag_sets::TagId;

/// Whether two have the same names in the same order.
pub fn same_names(a: &TagNames, b: &TagNames) -> bool
    ensures { IsTrue result ↔ (a.now ≡ b.now) }
{
    a.count() == b.count() && begin_alike(a, b)
}

/// Whether the first names of a list are those of another one that has as many.
fn begin_alike(a: &TagNames, b: &TagNames) -> bool
    requires { length a.now ≡ length b.now }
    ensures { IsTrue result ↔ (a.now ≡ b.now) }
{
    for at in 0..a.count() {
        if !same_name(a, b, TagId(at)) {
            return false;
        }
    }
    true
}

/// Whether two give a tag the same name, or both give it none.
fn same_name(a: &TagNames, b: &TagNames, tag: TagId) -> bool
    ensures { IsTrue result ↔ (slice_get a.now tag ≡ slice_get b.now tag) }
{
    match a.name(tag) {
        None => b.name(tag).is_none(),
        Some(name) => match b.name(tag) {
            None => false,
            Some(other) => name.as_bytes() == other.as_bytes(),
        },
    }
}
