//! Equality of values, as a program tests it.

ghost use Rattle.std.specs.Prelude.{◌≡◌};
ghost use Rattle.thread_core_state.specs.Equal.{same_names, same_tags, same_labels, same_values};

use flow_labels::{Label, TagSet};
use lam_value::{Name, Value};
use std::cmp::Ordering;

/// Whether two names are equal.
pub fn same_names(a: &Name, b: &Name) -> bool
    ensures { result ≡ same_names a.now b.now }
{
    matches!(a.order(b), Ordering::Equal)
}

fn same_tags(s: &TagSet, t: &TagSet) -> bool
    ensures { result ≡ same_tags s.now t.now }
{
    s.is_subset(t) && t.is_subset(s)
}

fn same_labels(x: &Label, y: &Label) -> bool
    ensures { result ≡ same_labels x.now y.now }
{
    same_tags(&x.s, &y.s) && same_tags(&x.i, &y.i)
}

/// Whether two values are equal. Values of two kinds differ.
pub fn same_values(v: &Value, w: &Value) -> bool
    ensures { result ≡ same_values v.now w.now }
{
    match v {
        Value::Int(m) => matches!(w, Value::Int(n) if *m == *n),
        Value::Bool(a) => matches!(w, Value::Bool(b) if *a == *b),
        Value::Bytes(a) => matches!(w, Value::Bytes(b) if a.bytes() == b.bytes()),
        Value::Nothing => matches!(w, Value::Nothing),
        Value::Obj(a) => matches!(w, Value::Obj(b) if same_names(a, b)),
        Value::Arr { name, len } => {
            matches!(w, Value::Arr { name: other, len: size } if same_names(name, other) && *len == *size)
        }
        Value::File(a) => matches!(w, Value::File(b) if same_names(a, b)),
        Value::Dir(a) => matches!(w, Value::Dir(b) if same_names(a, b)),
        Value::Pipe(a) => matches!(w, Value::Pipe(b) if same_names(a, b)),
        Value::Thread(a) => matches!(w, Value::Thread(b) if *a == *b),
        Value::Tag(a) => matches!(w, Value::Tag(b) if a.0 == b.0),
        Value::Lab(x) => matches!(w, Value::Lab(y) if same_labels(x, y)),
        Value::CapV { plus, minus } => {
            matches!(w, Value::CapV { plus: p, minus: m } if same_tags(plus, p) && same_tags(minus, m))
        }
    }
}
