//! Tests of asks for pipes.

ghost use Rattle.std.specs.Prelude.{◌≡◌, ◌↔◌, IsTrue};
ghost use Rattle.lam_asks.specs.declared.ask.Ask.TheVariants as ask;

use capabilities::Caps;
use flow_labels::{Label, same};
use lam_asks::Ask;
use lam_value::{ByteText, Name};

pub(crate) fn is_new_pipe(b: &Ask, own: &Label) -> bool
    ensures { IsTrue result ↔ (ask.MakePipe own.now ≡ b.now) }
{
    matches!(b, Ask::MakePipe { own: x } if same(own, x))
}

pub(crate) fn is_send(b: &Ask, pipe: &Name, bytes: &ByteText) -> bool
    ensures { IsTrue result ↔ (ask.Send pipe.now bytes.now ≡ b.now) }
{
    matches!(b, Ask::Send { pipe: x, bytes: y } if pipe.same(x) && bytes.same(y))
}

pub(crate) fn is_caps_send(b: &Ask, pipe: &Name, caps: &Caps) -> bool
    ensures { IsTrue result ↔ (ask.SendCaps pipe.now caps.now ≡ b.now) }
{
    matches!(b, Ask::SendCaps { pipe: x, caps: y } if pipe.same(x) && caps.same(y))
}

pub(crate) fn is_receive(b: &Ask, pipe: &Name) -> bool
    ensures { IsTrue result ↔ (ask.Receive pipe.now ≡ b.now) }
{
    matches!(b, Ask::Receive { pipe: x } if pipe.same(x))
}

pub(crate) fn is_caps_receive(b: &Ask, pipe: &Name) -> bool
    ensures { IsTrue result ↔ (ask.ReceiveCaps pipe.now ≡ b.now) }
{
    matches!(b, Ask::ReceiveCaps { pipe: x } if pipe.same(x))
}
