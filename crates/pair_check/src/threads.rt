//! The comparison of two worlds' threads below an observer's label.

ghost use Rattle.std.specs.Prelude.{◌≡◌, ◌↔◌, ◌<◌, ◌≤◌, ◌+◌, ◌∷◌, [], ℕ, IsTrue, MatchOption, Some, drop, filter, length, reverse, slice_get};
ghost use Rattle.std.specs.Option.{option_copied};
ghost use Rattle.flow_labels.specs.Flow.{seen, public_label};
ghost use Rattle.thread_steps.specs.Threads.{Context as ContextOf};
ghost use Rattle.lam_machine_terms.specs.Worlds.{contexts_in, result_in};
ghost use Rattle.lam_machine_terms.specs.Views.{is_seen};
ghost use Rattle.pair_check_terms.specs.Parts.{SameThreads};
ghost use Rattle.pair_check.specs.Threads.{seen_in, HaveSeenAlike, EndAlike};

use crate::stores::sees_public;
use flow_labels::{Label, seen};
use lam_machine_equal::{same_context, same_result};
use lam_machine_world::World;
use thread_core_state::{Context, LamThread};

/// Whether each thread has the same seen contexts, and where the public is seen there are as many threads and they ended
/// alike.
pub(crate) fn same_threads(a: &World, b: &World, observer: &Label) -> bool
    ensures { IsTrue result ↔ SameThreads observer.now a.now b.now }
{
    threads_alike(a.threads(), b.threads(), observer)
}

fn threads_alike(a: &[LamThread], b: &[LamThread], observer: &Label) -> bool
    ensures { IsTrue result ↔ (HaveSeenAlike observer.now a.now b.now × (IsTrue (seen public_label observer.now) → EndAlike a.now b.now)) }
{
    have_seen_alike(a, b, observer) && end_alike_where_public(a, b, observer)
}

fn have_seen_alike(a: &[LamThread], b: &[LamThread], observer: &Label) -> bool
    ensures { IsTrue result ↔ HaveSeenAlike observer.now a.now b.now }
{
    for at in 0..longer(a, b) {
        if !has_seen_alike(a.get(at), b.get(at), observer) {
            return false;
        }
    }
    true
}

/// The length of the longer list.
fn longer(a: &[LamThread], b: &[LamThread]) -> usize
    ensures first { length a.now ≤ result }
    ensures second { length b.now ≤ result }
{
    if a.len() < b.len() { b.len() } else { a.len() }
}

/// Whether two threads, which may not be there, have the same seen contexts.
fn has_seen_alike(a: Option<&LamThread>, b: Option<&LamThread>, observer: &Label) -> bool
    ensures { IsTrue result ↔ (seen_in observer.now (option_copied a.entry) ≡ seen_in observer.now (option_copied b.entry)) }
{
    same_seen(contexts_of(a), contexts_of(b), observer)
}

/// The contexts of a thread, the acting one last, and none where there is no thread.
fn contexts_of<'a>(thread: Option<&'a LamThread>) -> &'a [Context]
    ensures { result.now ≡ reverse (contexts_in (option_copied thread.entry)) }
{
    match thread {
        None => &[],
        Some(thread) => thread.contexts(),
    }
}

/// Whether two lists have equal contexts where they are seen, in order; what is not seen may stand anywhere.
fn same_seen(a: &[Context], b: &[Context], observer: &Label) -> bool
    ensures { IsTrue result ↔ (filter (is_seen observer.now) a.now ≡ filter (is_seen observer.now) b.now) }
{
    let mut next = 0;
    for context in a {
        if seen(context.label(), observer) {
            match next_seen(b, next, observer) {
                None => return false,
                Some(at) => {
                    if !same_context(context, &b[at]) {
                        return false;
                    }
                    next = at + 1;
                }
            }
        }
    }
    next_seen(b, next, observer).is_none()
}

/// The place of the first context that is seen, from a place on.
fn next_seen(list: &[Context], from: usize, observer: &Label) -> Option<usize>
    ensures { MatchOption result (filter (is_seen observer.now) (drop from list.now) ≡ []) (λ at. (at < length list.now) × ((c : ContextOf) → slice_get list.now at ≡ Some c → filter (is_seen observer.now) (drop from list.now) ≡ c ∷ filter (is_seen observer.now) (drop (at + 1) list.now))) }
{
    for at in from..list.len() {
        if seen(list[at].label(), observer) {
            return Some(at);
        }
    }
    None
}

fn end_alike_where_public(a: &[LamThread], b: &[LamThread], observer: &Label) -> bool
    ensures { IsTrue result ↔ (IsTrue (seen public_label observer.now) → EndAlike a.now b.now) }
{
    !sees_public(observer) || end_alike(a, b)
}

/// Whether there are as many threads, and each ended as the other one at its place, or neither has ended.
fn end_alike(a: &[LamThread], b: &[LamThread]) -> bool
    ensures { IsTrue result ↔ EndAlike a.now b.now }
{
    a.len() == b.len() && each_ended_alike(a, b)
}

fn each_ended_alike(a: &[LamThread], b: &[LamThread]) -> bool
    requires { length a.now ≡ length b.now }
    ensures { IsTrue result ↔ ((t : ℕ) → result_in (slice_get a.now t) ≡ result_in (slice_get b.now t)) }
{
    for at in 0..a.len() {
        if !same_result(a[at].result(), b[at].result()) {
            return false;
        }
    }
    true
}
