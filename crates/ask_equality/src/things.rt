//! Tests of asks for objects, arrays and monitors.

ghost use Rattle.std.specs.Prelude.{◌≡◌, ◌↔◌, IsTrue};
ghost use Rattle.lam_asks.specs.declared.ask.Ask.TheVariants as ask;

use flow_labels::{Label, same};
use lam_asks::Ask;
use lam_value::{Shape, Value, same_value};

pub(crate) fn is_read(b: &Ask, r: &Value, at: u64) -> bool
    ensures { IsTrue result ↔ (ask.Read r.now at ≡ b.now) }
{
    matches!(b, Ask::Read { r: x, at: y } if same_value(r, x) && at == *y)
}

pub(crate) fn is_write(b: &Ask, r: &Value, at: u64, v: &Value) -> bool
    ensures { IsTrue result ↔ (ask.Write r.now at v.now ≡ b.now) }
{
    match b {
        Ask::Write { r: x, at: y, v: z } => same_value(r, x) && at == *y && same_value(v, z),
        _ => false,
    }
}

pub(crate) fn is_new(b: &Ask, shape: &Shape) -> bool
    ensures { IsTrue result ↔ (ask.New shape.now ≡ b.now) }
{
    matches!(b, Ask::New { shape: x } if shape.same(x))
}

pub(crate) fn is_copy(b: &Ask, r: &Value, own: &Label) -> bool
    ensures { IsTrue result ↔ (ask.CopyTo r.now own.now ≡ b.now) }
{
    matches!(b, Ask::CopyTo { r: x, own: y } if same_value(r, x) && same(own, y))
}

pub(crate) fn is_taking(b: &Ask, r: &Value) -> bool
    ensures { IsTrue result ↔ (ask.MonEnter r.now ≡ b.now) }
{
    matches!(b, Ask::MonEnter { r: x } if same_value(r, x))
}

pub(crate) fn is_giving(b: &Ask, r: &Value) -> bool
    ensures { IsTrue result ↔ (ask.MonLeave r.now ≡ b.now) }
{
    matches!(b, Ask::MonLeave { r: x } if same_value(r, x))
}
