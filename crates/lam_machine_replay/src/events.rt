//! The counts of one turn, by its event.

ghost use Rattle.std.specs.Prelude.{◌≡◌, ◌-◌, ◌^◌, ◌<◌};
ghost use Rattle.lam_value.specs.declared.values.Value.{Value as Plain};
ghost use Rattle.lam_asks.specs.declared.answer.Answer.TheVariants.{Entered, Val};
ghost use Rattle.lam_machine_replay.specs.Told.{label_by};
ghost use Rattle.audit_log_notes.specs.Sums.{is_done, says, is_said, is_refused};
ghost use Rattle.lam_machine_replay.specs.Counted.{goes_below, tells_release, counted, with_turn, AreBelow};

use audit_log_notes::{Sums, refusal_of};
use flow_labels::{Label, flows};
use lam_asks::{Answer, Ask, Event, What};

/// The sums with one turn more.
pub(crate) fn with_turn(sums: &Sums, event: &Event) -> Sums
    requires { AreBelow sums.now (2 ^ 64 - 1) }
    ensures { result ≡ with_turn sums.now event.now }
{
    Sums {
        said: counted(sums.said, is_said(&event.what)),
        releases: counted(sums.releases, tells_release(event)),
        refused: counted(sums.refused, is_refused(&event.what)),
    }
}

/// One more, where it is so.
fn counted(n: u64, so: bool) -> u64
    requires { n < 2 ^ 64 - 1 }
    ensures { result ≡ counted n so }
{
    if so { n + 1 } else { n }
}

/// Whether bytes were shown.
fn is_said(what: &What) -> bool
    ensures { result ≡ is_said what.now }
{
    match what {
        What::Private => false,
        What::Asked { ask, answer } => says(ask, answer),
    }
}

fn says(ask: &Ask, answer: &Answer) -> bool
    ensures { result ≡ says ask.now answer.now }
{
    match ask {
        Ask::Say { .. } => is_done(answer),
        _ => false,
    }
}

fn is_done(answer: &Answer) -> bool
    ensures { result ≡ is_done answer.now }
{
    matches!(answer, Answer::Done)
}

/// Whether a turn was refused what it wanted, or a barrier of the code found that it would be.
fn is_refused(what: &What) -> bool
    ensures { result ≡ is_refused what.now }
{
    refusal_of(what).is_some()
}

/// Whether the event tells of a release: of a region or a copy that is not above the acting label.
fn tells_release(event: &Event) -> bool
    ensures { result ≡ tells_release event.now }
{
    match &event.what {
        What::Private => false,
        What::Asked { ask, answer } => match answer {
            Answer::Entered => enters_below(&event.label, ask),
            Answer::Val(_) => copies_below(&event.label, ask),
            _ => false,
        },
    }
}

fn enters_below(from: &Label, ask: &Ask) -> bool
    ensures { result ≡ goes_below from.now (label_by Entered ask.now) }
{
    match ask {
        Ask::Enter { label, .. } => !flows(from, label),
        _ => false,
    }
}

fn copies_below(from: &Label, ask: &Ask) -> bool
    ensures { (v : Plain) → result ≡ goes_below from.now (label_by (Val v) ask.now) }
{
    match ask {
        Ask::CopyTo { own, .. } => !flows(from, own),
        _ => false,
    }
}
