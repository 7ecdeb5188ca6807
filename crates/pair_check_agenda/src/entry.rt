//! The record of one turn.

ghost use Rattle.std.specs.Prelude.{◌≡◌, ◌↔◌, IsTrue};
ghost use Rattle.lam_machine_terms.specs.Views as views;
ghost use Rattle.pair_check_terms.specs.Pairs.{is_turn};
ghost use Rattle.pair_check_agenda.specs.Agendas.{release_in, item_in};

use crate::contents::same_content;
use audit_log_notes::Content;
use capabilities::Caps;

/// What an observer notes of one turn.
#[derive(Drop)]
pub enum Entry {
    /// A thread that it sees took the turn.
    Turn { thread: u32 },
    /// A thread that it does not see released something past it.
    Past(Box<Release>),
}

/// A release: who made it, what was made, and the capabilities that it took.
#[derive(Drop)]
pub struct Release {
    pub thread: u32,
    pub content: Content,
    pub by: Caps,
}

/// Whether a turn was seen.
pub(crate) fn is_turn(entry: &Entry) -> bool
    ensures { result ≡ is_turn (item_in entry.now) }
{
    matches!(entry, Entry::Turn { .. })
}

/// Whether the same is noted.
pub(crate) fn same_entry(a: &Entry, b: &Entry) -> bool
    ensures { IsTrue result ↔ (item_in a.now ≡ item_in b.now) }
{
    match a {
        Entry::Turn { thread } => is_turn_of(b, *thread),
        Entry::Past(release) => is_past(b, release),
    }
}

fn is_turn_of(entry: &Entry, thread: u32) -> bool
    ensures { IsTrue result ↔ (views.turn thread ≡ item_in entry.now) }
{
    matches!(entry, Entry::Turn { thread: other } if thread == *other)
}

fn is_past(entry: &Entry, release: &Release) -> bool
    ensures { IsTrue result ↔ (views.past (release_in release.now) ≡ item_in entry.now) }
{
    match entry {
        Entry::Turn { .. } => false,
        Entry::Past(other) => same_release(release, other),
    }
}

/// Whether two releases are equal.
fn same_release(a: &Release, b: &Release) -> bool
    ensures { IsTrue result ↔ (release_in a.now ≡ release_in b.now) }
{
    a.thread == b.thread && a.by.same(&b.by) && same_content(&a.content, &b.content)
}
