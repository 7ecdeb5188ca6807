//! Records of a run: an observer's view, an auditor's notes, and counts.
//!
//! An observer at a label sees the events of the threads whose label flows to its own, and the *releases* past it. An
//! unseen thread makes a release where it enters a region, or copies a thing, with a label that the observer sees. That
//! is a declassification or an endorsement. A list of [`Seen`] is that, in order. An auditor notes every release and
//! every refusal; a list of [`Noted`] is that. [`refusal_of`] says what counts as a refusal. `specs/Notes.antt` says
//! which lists of both a run of the machine has (`lam_machine_terms`).
//!
//! [`Sums`] are how often something was said, released and refused in a run. `specs/Sums` says what is counted in its
//! moments, and `summary` writes the lines.
//!
//! A public promise rests on [`summary_text`]: the lines of a run's counts, byte for byte. Free to change for speed:
//! how the text is put together.
#![tactic(auto)]

mod summary;

ghost use Rattle.std.specs.Prelude.{◌≡◌, IfOk};
ghost use Rattle.audit_log_notes.specs.Notes.{refusal_of, refusal_by, refusal_in};
ghost use Rattle.audit_log_notes.specs.declared.Content.TheVariants as Content;
ghost use Rattle.audit_log_notes.specs.declared.Seen.TheVariants as Seen;

use capabilities::Caps;
use flow_labels::{Denied, Label};
use lam_asks::{Answer, Ask, Event, What};
use lam_value::{Value, Values};
pub use summary::summary_text;
use want_of_memory::NoMemory;

/// What is made by a release: what whoever sees it comes to know.
#[derive(Drop)]
pub enum Content {
    /// A region was entered: its label and capabilities, how many regions are open then, its number, and the values that
    /// it captured.
    Context {
        label: Label,
        caps: Caps,
        depth: u32,
        region: u32,
        args: Values,
    },
    /// A copy was made: the object or array that it is, and what is in its slots.
    Thing {
        name: Value,
        slots: Values,
    },
}

impl Content {
    /// An equal content.
    ///
    /// # Errors
    ///
    /// `NoMemory` where memory is refused.
    pub fn copy(&self) -> Result<Content, NoMemory>
        ensures { IfOk result (λ c. c ≡ self.now) }
    {
        match self {
            Content::Context {
                label,
                caps,
                depth,
                region,
                args,
            } => copy_context(label, caps, *depth, *region, args),
            Content::Thing { name, slots } => {
                let name = name.copy()?;
                let slots = slots.copy()?;
                Ok(Content::Thing { name, slots })
            }
        }
    }
}

fn copy_context(
    label: &Label,
    caps: &Caps,
    depth: u32,
    region: u32,
    args: &Values,
) -> Result<Content, NoMemory>
    ensures { IfOk result (λ c. c ≡ Content.Context label.now caps.now depth region args.now) }
{
    let label = label.copy()?;
    let caps = caps.copy()?;
    let args = args.copy()?;
    Ok(Content::Context {
        label,
        caps,
        depth,
        region,
        args,
    })
}

/// What an observer sees at one place of a run. Private turns are left out.
#[derive(Drop)]
pub enum Seen {
    /// An ask of a thread that it sees, with the answer.
    Event(Event),
    /// A release by a thread that it does not see: what was made, and the capabilities that it took.
    Release {
        thread: u32,
        content: Content,
        by: Caps,
    },
}

impl Seen {
    /// An equal one.
    ///
    /// # Errors
    ///
    /// `NoMemory` where memory is refused.
    pub fn copy(&self) -> Result<Seen, NoMemory>
        ensures { IfOk result (λ s. s ≡ self.now) }
    {
        match self {
            Seen::Event(event) => Ok(Seen::Event(event.copy()?)),
            Seen::Release {
                thread,
                content,
                by,
            } => copy_release(*thread, content, by),
        }
    }
}

fn copy_release(thread: u32, content: &Content, by: &Caps) -> Result<Seen, NoMemory>
    ensures { IfOk result (λ s. s ≡ Seen.Release thread content.now by.now) }
{
    let content = content.copy()?;
    let by = by.copy()?;
    Ok(Seen::Release {
        thread,
        content,
        by,
    })
}

/// What an auditor looks at: a release, with the capabilities that it took, or a refusal, without any.
#[derive(Drop)]
pub struct Noted {
    /// The number of the turn in the run, from 0.
    pub turn: u64,
    pub event: Event,
    pub by: Option<Caps>,
}

impl Noted {
    /// An equal one.
    ///
    /// # Errors
    ///
    /// `NoMemory` where memory is refused.
    pub fn copy(&self) -> Result<Noted, NoMemory>
        ensures { IfOk result (λ n. n ≡ self.now) }
    {
        let by = copy_by(&self.by)?;
        let event = self.event.copy()?;
        Ok(Noted {
            turn: self.turn,
            event,
            by,
        })
    }
}

/// The rule and the tag by which a turn was refused what it wanted: those of a refusal, or of a barrier of the compiled
/// code, which finds beforehand what would be refused. `None` where the turn was not refused anything.
pub fn refusal_of(what: &What) -> Option<Denied>
    ensures { result ≡ refusal_of what.now }
{
    match what {
        What::Private => None,
        What::Asked { ask, answer } => refusal_by(ask, refusal_in(answer)),
    }
}

fn refusal_by(ask: &Ask, answered: Option<Denied>) -> Option<Denied>
    ensures { result ≡ refusal_by ask.now answered }
{
    match ask {
        Ask::Barred(denied) => Some(*denied),
        _ => answered,
    }
}

fn refusal_in(answer: &Answer) -> Option<Denied>
    ensures { result ≡ refusal_in answer.now }
{
    match answer {
        Answer::Refused(denied) => Some(*denied),
        _ => None,
    }
}

fn copy_by(by: &Option<Caps>) -> Result<Option<Caps>, NoMemory>
    ensures { IfOk result (λ c. c ≡ by.now) }
{
    match by {
        None => Ok(None),
        Some(caps) => Ok(Some(caps.copy()?)),
    }
}

/// What was counted in a run.
#[derive(Clone, Copy, Debug, PartialEq, Eq)]
pub struct Sums {
    /// How often bytes were shown.
    pub said: u64,
    /// How often a region was entered, or a copy made, that is not above the acting label.
    pub releases: u64,
    /// How often a turn was refused what it wanted, or a barrier of the code found that it would be.
    pub refused: u64,
}
