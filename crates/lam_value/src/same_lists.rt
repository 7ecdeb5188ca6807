//! Equality of lists of values, and of shapes.

ghost use Rattle.std.specs.Prelude.{◌≡◌, ◌↔◌, IsTrue, length};

use crate::shapes::Shape;
use crate::values::{Value, Values, same_value};

/// Whether two lists have equal values, place by place.
pub fn same_values(a: &[Value], b: &[Value]) -> bool
    ensures { IsTrue result ↔ (a.now ≡ b.now) }
{
    a.len() == b.len() && begin_alike(a, b)
}

/// Whether the first values of a list are those of another one that is as long.
fn begin_alike(a: &[Value], b: &[Value]) -> bool
    requires { length a.now ≡ length b.now }
    ensures { IsTrue result ↔ (a.now ≡ b.now) }
{
    for at in 0..a.len() {
        if !same_value(&a[at], &b[at]) {
            return false;
        }
    }
    true
}

impl Values {
    /// Whether two lists have equal values, place by place.
    pub fn same(&self, other: &Values) -> bool
        ensures { IsTrue result ↔ (self.now ≡ other.now) }
    {
        same_values(self.as_slice(), other.as_slice())
    }
}

impl Shape {
    /// Whether two shapes are equal.
    pub fn same(&self, other: &Shape) -> bool
        ensures { IsTrue result ↔ (self.now ≡ other.now) }
    {
        match self {
            Shape::Class { class, fields } => {
                matches!(other, Shape::Class { class: c, fields: f } if class == c && fields.same(f))
            }
            Shape::Array { kind, len } => {
                matches!(other, Shape::Array { kind: k, len: l } if kind == k && len == l)
            }
        }
    }
}
