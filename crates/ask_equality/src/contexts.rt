//! Tests of asks of contexts and threads, and of what is said.

ghost use Rattle.std.specs.Prelude.{◌≡◌, ◌↔◌, IsTrue};
ghost use Rattle.lam_asks.specs.declared.ask.Ask.TheVariants as ask;

use crate::outcomes::same_outcome;
use capabilities::Caps;
use flow_labels::{Denied, Label, same};
use lam_asks::{Ask, Fault, Outcome};
use lam_value::{ByteText, Values};

pub(crate) fn is_mint(b: &Ask) -> bool
    ensures { IsTrue result ↔ (ask.Mint ≡ b.now) }
{
    matches!(b, Ask::Mint)
}

pub(crate) fn is_entering(b: &Ask, label: &Label, caps: &Caps, region: u32, args: &Values) -> bool
    ensures { IsTrue result ↔ (ask.Enter label.now caps.now region args.now ≡ b.now) }
{
    match b {
        Ask::Enter {
            label: x,
            caps: y,
            region: z,
            args: w,
        } => same(label, x) && caps.same(y) && region == *z && args.same(w),
        _ => false,
    }
}

pub(crate) fn is_leaving(b: &Ask) -> bool
    ensures { IsTrue result ↔ (ask.Leave ≡ b.now) }
{
    matches!(b, Ask::Leave)
}

pub(crate) fn is_barred(b: &Ask, denied: Denied) -> bool
    ensures { IsTrue result ↔ (ask.Barred denied ≡ b.now) }
{
    matches!(b, Ask::Barred(x) if denied == *x)
}

pub(crate) fn is_caught(b: &Ask, fault: Fault) -> bool
    ensures { IsTrue result ↔ (ask.Caught fault ≡ b.now) }
{
    matches!(b, Ask::Caught(x) if fault == *x)
}

pub(crate) fn is_suppressed(b: &Ask, fault: Fault) -> bool
    ensures { IsTrue result ↔ (ask.Suppressed fault ≡ b.now) }
{
    matches!(b, Ask::Suppressed(x) if fault == *x)
}

pub(crate) fn is_spawn(b: &Ask, unit: u32, args: &Values, caps: &Caps) -> bool
    ensures { IsTrue result ↔ (ask.Spawn unit args.now caps.now ≡ b.now) }
{
    match b {
        Ask::Spawn {
            unit: x,
            args: y,
            caps: z,
        } => unit == *x && args.same(y) && caps.same(z),
        _ => false,
    }
}

pub(crate) fn is_join(b: &Ask, thread: u32) -> bool
    ensures { IsTrue result ↔ (ask.Join thread ≡ b.now) }
{
    matches!(b, Ask::Join { thread: x } if thread == *x)
}

pub(crate) fn is_say(b: &Ask, bytes: &ByteText) -> bool
    ensures { IsTrue result ↔ (ask.Say bytes.now ≡ b.now) }
{
    matches!(b, Ask::Say { bytes: x } if bytes.same(x))
}

pub(crate) fn is_end(b: &Ask, outcome: &Outcome) -> bool
    ensures { IsTrue result ↔ (ask.End outcome.now ≡ b.now) }
{
    matches!(b, Ask::End(x) if same_outcome(outcome, x))
}
