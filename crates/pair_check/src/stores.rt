//! The comparison of two worlds' stores below an observer's label.

ghost use Rattle.std.specs.Prelude.{◌≡◌, ◌↔◌, IsTrue, Some};
ghost use Rattle.flow_labels.specs.Flow.{seen, public_label};
ghost use Rattle.lam_machine_terms.specs.Views.{view, shown, shown_counts, where_public};
ghost use Rattle.pair_check_terms.specs.Parts.{SameTags, SameThings, SameFiles, SameCounters};

use flow_labels::{Label, same_names, seen};
use labelled_files::Files;
use labelled_heap::Heap;
use labelled_pipes::Pipes;
use lam_machine_effects::Stores;
use lam_machine_world::World;
use monitor_core::Monitors;

/// Whether an observer sees what is public.
pub(crate) fn sees_public(observer: &Label) -> bool
    ensures { result ≡ seen public_label observer.now }
{
    seen(&Label::public(observer.allocator()), observer)
}

/// Whether the first tags have the same names, and where the public is seen the next tag has the same number.
pub(crate) fn same_tags(a: &World, b: &World, observer: &Label) -> bool
    ensures { IsTrue result ↔ SameTags observer.now a.now b.now }
{
    tags_alike(a.stores(), b.stores(), observer)
}

fn tags_alike(a: &Stores, b: &Stores, observer: &Label) -> bool
    ensures { IsTrue result ↔ ((a.now.names ≡ b.now.names) × (where_public observer.now (Some a.now.tags) ≡ where_public observer.now (Some b.now.tags))) }
{
    same_names(&a.names, &b.names) && next_alike(a.tags, b.tags, observer)
}

fn next_alike(a: u64, b: u64, observer: &Label) -> bool
    ensures { IsTrue result ↔ (where_public observer.now (Some a) ≡ where_public observer.now (Some b)) }
{
    !sees_public(observer) || a == b
}

/// Whether the same is public.
pub(crate) fn same_public(a: &World, b: &World) -> bool
    ensures { IsTrue result ↔ (a.now.public ≡ b.now.public) }
{
    a.stores().public.same(&b.stores().public)
}

/// Whether the slots that are seen are the same, and who holds the monitors of what is seen.
pub(crate) fn same_things(a: &World, b: &World, observer: &Label) -> bool
    ensures { IsTrue result ↔ SameThings observer.now a.now b.now }
{
    things_alike(a.stores(), b.stores(), observer)
}

fn things_alike(a: &Stores, b: &Stores, observer: &Label) -> bool
    ensures { IsTrue result ↔ ((shown observer.now a.now.heap.slots ≡ shown observer.now b.now.heap.slots) × (shown observer.now a.now.monitors ≡ shown observer.now b.now.monitors)) }
{
    slots_alike(&a.heap, &b.heap, observer) && monitors_alike(&a.monitors, &b.monitors, observer)
}

fn slots_alike(a: &Heap, b: &Heap, observer: &Label) -> bool
    ensures { IsTrue result ↔ (shown observer.now a.now.slots ≡ shown observer.now b.now.slots) }
{
    a.same_seen(b, observer)
}

fn monitors_alike(a: &Monitors, b: &Monitors, observer: &Label) -> bool
    ensures { IsTrue result ↔ (shown observer.now a.now ≡ shown observer.now b.now) }
{
    a.same_seen(b, observer)
}

/// Whether the entries of the directories and the bytes of the files that are seen are the same.
pub(crate) fn same_files(a: &World, b: &World, observer: &Label) -> bool
    ensures { IsTrue result ↔ SameFiles observer.now a.now b.now }
{
    files_alike(&a.stores().files, &b.stores().files, observer)
}

fn files_alike(a: &Files, b: &Files, observer: &Label) -> bool
    ensures { IsTrue result ↔ ((shown observer.now a.now.dirs ≡ shown observer.now b.now.dirs) × (shown observer.now a.now.files ≡ shown observer.now b.now.files)) }
{
    a.same_seen(b, observer)
}

/// Whether the same messages wait in the pipes that are seen.
pub(crate) fn same_pipes(a: &World, b: &World, observer: &Label) -> bool
    ensures { IsTrue result ↔ ((view observer.now a.now).pipes ≡ (view observer.now b.now).pipes) }
{
    pipes_alike(&a.stores().pipes, &b.stores().pipes, observer)
}

fn pipes_alike(a: &Pipes, b: &Pipes, observer: &Label) -> bool
    ensures { IsTrue result ↔ (shown observer.now a.now.waiting ≡ shown observer.now b.now.waiting) }
{
    a.same_seen(b, observer)
}

/// Whether each home with a seen maker has made as many things, as many files and as many pipes.
pub(crate) fn same_counters(a: &World, b: &World, observer: &Label) -> bool
    ensures { IsTrue result ↔ SameCounters observer.now a.now b.now }
{
    counters_alike(a.stores(), b.stores(), observer)
}

fn counters_alike(a: &Stores, b: &Stores, observer: &Label) -> bool
    ensures { IsTrue result ↔ ((shown_counts observer.now a.now.heap.counts ≡ shown_counts observer.now b.now.heap.counts) × ((shown_counts observer.now a.now.files.counts ≡ shown_counts observer.now b.now.files.counts) × (shown_counts observer.now a.now.pipes.counts ≡ shown_counts observer.now b.now.pipes.counts))) }
{
    thing_counts_alike(&a.heap, &b.heap, observer)
        && file_counts_alike(&a.files, &b.files, observer)
        && pipe_counts_alike(&a.pipes, &b.pipes, observer)
}

fn thing_counts_alike(a: &Heap, b: &Heap, observer: &Label) -> bool
    ensures { IsTrue result ↔ (shown_counts observer.now a.now.counts ≡ shown_counts observer.now b.now.counts) }
{
    a.counter_facts();
    b.counter_facts();
    a.same_counters(b, observer)
}

fn file_counts_alike(a: &Files, b: &Files, observer: &Label) -> bool
    ensures { IsTrue result ↔ (shown_counts observer.now a.now.counts ≡ shown_counts observer.now b.now.counts) }
{
    let _own = a.counters();
    let _others = b.counters();
    a.same_counters(b, observer)
}

fn pipe_counts_alike(a: &Pipes, b: &Pipes, observer: &Label) -> bool
    ensures { IsTrue result ↔ (shown_counts observer.now a.now.counts ≡ shown_counts observer.now b.now.counts) }
{
    a.counter_facts();
    b.counter_facts();
    a.same_counters(b, observer)
}
