//! Invariants of the machine's turns, and isolation of observers, for every code and interleaving.
//!
//! The laws stand over the definitions of `lam_machine_terms`, and look into no operation of a code. A private turn
//! changes only the inside of the acting context, and each ask is looked at once, by the store that it is about.
//!
//! - `specs/Isolation`: two runs that agree below an observer's label, and what their starts must satisfy.
//! - `specs/Sound`: what every turn keeps of the stores. Each stays sound, and no counter passes its limit.
//! - `specs/Laws`, `specs/Tests`: contexts come back as they were, and faults are handled where they were raised.
//!   Releases are allowed by capabilities that the acting context holds or that are public. No context gets
//!   capabilities but by minting, receiving and entering, and no turn changes what is public. They also say what is
//!   refused, and by which rule.
//! - `specs/Judged`: each ask is served by its row (`row` of `lam_machine_terms/specs/Serving`): its tests, its fault and
//!   what is done. What holds of these three holds of the ask.
//! - `turn_parts`: a turn that asks is its ask's service, with the answer's effect on the thread and its own on the
//!   stores (`specs/Turned`). A service that is ready has room (`specs/Ready`).
//! - `specs/Own`: a thread of a run is that thread with its own turns and the answers that it got.
//!
//! Public promises rest on most of its laws, first on [`runs_are_isolated`] (clauses `isolated`, `steady`) and
//! [`refusals_name_the_first`]. Nothing here is a matter of speed.
#![tactic(auto)]

mod turn_parts;

ghost use Rattle.flow_labels.specs.declared.Label.{Label};
ghost use Rattle.lam_machine_effects.specs.Codes.{CodeTree};
ghost use Rattle.lam_machine_laws.specs.Isolation.{ValidAreWellLabelled, StaysWellLabelled, IsIsolated, IsSteady, TwoAsksRelease};
ghost use Rattle.lam_machine_laws.specs.Sound.{StaysSound};
ghost use Rattle.lam_machine_laws.specs.Tests.{RefusalsNameTheFirst, RefusalsChangeNothing};
ghost use Rattle.lam_machine_laws.specs.Judged.{AsksAreJudged};
ghost use Rattle.lam_machine_laws.specs.Laws.{ContextsComeBack, FaultsAreHandled, ReleasesAreAllowed, CapsDoNotGrow, PublicStay};
ghost use Rattle.lam_machine_laws.specs.Own.{TurnsTouchTheirThread, ThreadsFollowTheirTurns};

pub use turn_parts::{served_has_room, turns_have_parts};

/// In every valid world each first context is public, and the monitors that a context lists have its label. Every turn of
/// every code keeps that.
pub fn worlds_stay_well_labelled()
    ensures valid { ValidAreWellLabelled }
    ensures turns { (code : CodeTree) → StaysWellLabelled code }
{}

/// Two runs of any code, whose starts agree below an observer's label, with the same visible turns in the same order
/// and the same releases past the label, have the same visible events and the same visible state, as far as both go.
/// Between two entries of the agenda nothing that the observer sees changes.
///
/// Of the starts this takes no more than that they are well labelled.
pub fn runs_are_isolated()
    ensures isolated { (code : CodeTree) (o : Label) → IsIsolated code o }
    ensures steady { (code : CodeTree) (o : Label) → IsSteady code o }
{}

/// Only entering a region and copying release, and what is past some observer is a release.
pub fn two_asks_release()
    ensures { (code : CodeTree) → TwoAsksRelease code }
{}

/// A turn from a world with sound stores leads to one with sound stores, within the same limits.
///
/// Of a turn that copies a thing this takes that the thing lives.
pub fn worlds_stay_sound()
    ensures { (code : CodeTree) → StaysSound code }
{}

/// While a thread has more contexts than some, these stay as they are; when it next has as many, it has these.
///
/// So after a region the label, the capabilities and the locals outside are those that stood when it was entered.
pub fn contexts_come_back()
    ensures { (code : CodeTree) → ContextsComeBack code }
{}

/// A fault that was raised is what a context turns to next: a region's body has it caught, a catch block has it
/// suppressed, and a first context ends its thread. In every run the first thing that the thread does from there is that
/// ask, and it is done.
pub fn faults_are_handled()
    ensures { (code : CodeTree) → FaultsAreHandled code }
{}

/// Each release was allowed by capabilities that the acting context held or that are public, and names exactly those that it
/// used.
pub fn releases_are_allowed()
    ensures { (code : CodeTree) → ReleasesAreAllowed code }
{}

/// After a turn the capabilities of each context are those before it, but for both of a tag just minted, those of a
/// message just received, and those of a new context or thread, each of them public or held by the acting context. Where a
/// region is entered, the new context has those that were asked for, and the one below keeps its own.
pub fn capabilities_do_not_grow()
    ensures { (code : CodeTree) → CapsDoNotGrow code }
{}

/// No turn changes what is public.
pub fn public_stay()
    ensures { (code : CodeTree) → PublicStay code }
{}

/// What an ask is served by is stated once: first its tests, then its fault, and where no test fails and there is no fault,
/// what is done.
pub fn asks_are_judged()
    ensures { AsksAreJudged }
{}

/// An ask is refused exactly where one of its tests fails, in which the public capabilities count as held, and the answer
/// names the first rule that does, with its least tag.
pub fn refusals_name_the_first()
    ensures { RefusalsNameTheFirst }
{}

/// A refusal raises Denied in the acting context, a failure raises its fault there, and nothing else changes.
pub fn refusals_change_nothing()
    ensures { (code : CodeTree) → RefusalsChangeNothing code }
{}

/// A turn changes the acting thread as that thread itself says, by the ask's answer where it asks, leaves every other
/// thread as it is, and starts a thread only where a spawn is answered with its number.
pub fn turns_touch_their_thread()
    ensures { (code : CodeTree) → TurnsTouchTheirThread code }
{}

/// After any turns a thread stands where its own turns among them lead: from where it stood, or from the entry at which
/// it was started.
pub fn threads_follow_their_turns()
    ensures { (code : CodeTree) → ThreadsFollowTheirTurns code }
{}
