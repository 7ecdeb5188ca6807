//! The texts of an observer's view and of a run's audit.
//!
//! ```text
//! t0 {}/{} enter {a}/{} caps +{}-{a} region 0 (7) = entered
//! release t0 enter {}/{} caps +{}-{} depth 2 region 1 (7) by +{}-{a}
//! ```
//!
//! These are two lines of an observer's text ([`view_text`]): an event that it sees, and a release past it. The
//! release's line in the audit ([`audit_text`]) is `12 t0 {a}/{} enter {}/{} by +{}-{a}`, with the turn and the acting
//! label. It ends with ` public` where all that it took is public ([`marks_are_exact`]). A refusal's line is
//! `8 t0 {}/{} refused AddS a`.
//!
//! Both are written line by line into one text. `specs/Log.antt` defines the lines, of the kept lists and of the
//! moments of a run themselves. [`views_are_read`] and [`audits_are_read`] say that these are the same. A moment's line
//! speaks of what is public in the moment's world. No turn changes that (`lam_machine_laws`), so the text is written
//! with what is public at the start.
//!
//! A public promise rests on [`view_text`], [`audit_text`] and the laws [`views_are_read`], [`audits_are_read`] and
//! [`marks_are_exact`]: both texts, byte for byte. `lam` writes them line by line, by [`push_noted`], [`push_release`]
//! and `push_event` of `audit_log_texts` (the one clause of each). Free to change for speed: how a text is put
//! together.
#![tactic(auto)]

mod audit;
mod view;

ghost use Rattle.audit_log.specs.Laws.{ViewsAreRead, AuditsAreRead, MarksAreExact};

pub use audit::{audit_text, push_noted};
pub use view::{push_release, push_seen, view_text};

/// A law: the list of what an observer saw of a run's moments has the lines of what it sees of them.
pub fn views_are_read()
    ensures { ViewsAreRead }
{}

/// A law: the list of what is noted of a run's moments has the audit lines of them, where the same is public in the worlds
/// of all of them.
pub fn audits_are_read()
    ensures { AuditsAreRead }
{}

/// A law: the line of a release is marked as public exactly where the public capabilities cover what it took.
pub fn marks_are_exact()
    ensures { MarksAreExact }
{}
