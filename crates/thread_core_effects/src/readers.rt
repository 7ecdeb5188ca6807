//! Readers of a value as a number, a truth value, a thing or a tag.

ghost use Rattle.std.specs.Prelude.{◌≡◌};
ghost use Rattle.std.specs.Option.{option_copied};
ghost use Rattle.std.specs.List.{list_any};
ghost use Rattle.thread_core_state.specs.Operators.{is_null, some_null};
ghost use Rattle.thread_core_effects.specs.Reading.{number_in, truth_in, thing_in, tag_in};

use flow_labels::TagId;
use lam_value::{Name, Value};

/// The number that a value is.
pub fn number_in(v: &Value) -> Option<i64>
    ensures { result ≡ number_in v.now }
{
    match v {
        Value::Int(n) => Some(*n),
        _ => None,
    }
}

/// The truth value that a value is.
pub fn truth_in(v: &Value) -> Option<bool>
    ensures { result ≡ truth_in v.now }
{
    match v {
        Value::Bool(b) => Some(*b),
        _ => None,
    }
}

/// The name of an object or an array.
pub fn thing_in(v: &Value) -> Option<&Name>
    ensures { option_copied result ≡ thing_in v.now }
{
    match v {
        Value::Obj(name) => Some(name),
        Value::Arr { name, .. } => Some(name),
        _ => None,
    }
}

/// The tag that a value is.
pub fn tag_in(v: &Value) -> Option<TagId>
    ensures { result ≡ tag_in v.now }
{
    match v {
        Value::Tag(tag) => Some(*tag),
        _ => None,
    }
}

/// Whether a value is null.
pub fn is_null(v: &Value) -> bool
    ensures { result ≡ is_null v.now }
{
    matches!(v, Value::Nothing)
}

fn any_null(values: &[Value]) -> bool
    ensures { result ≡ list_any (λ v. is_null v) values.now }
{
    values.iter().any(|v| is_null(v))
}

/// Whether one of some values is null.
pub fn some_null(values: &[Value]) -> bool
    ensures { result ≡ some_null values.now }
{
    any_null(values)
}
