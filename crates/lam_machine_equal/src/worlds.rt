//! Equality of two worlds.

ghost use Rattle.std.specs.Prelude.{◌≡◌, ◌↔◌, IsTrue};
ghost use Rattle.lam_machine_effects.specs.Parts.{stores_of};

use crate::threads::same_threads;
use flow_labels::same_names;
use lam_machine_effects::Stores;
use lam_machine_world::World;

/// Whether two worlds are equal: all stores, and all threads with their contexts. Takes no memory.
pub fn same_world(a: &World, b: &World) -> bool
    ensures { IsTrue result ↔ (a.now ≡ b.now) }
{
    same_all_stores(a, b) && same_all_threads(a, b)
}

fn same_all_stores(a: &World, b: &World) -> bool
    ensures { IsTrue result ↔ (stores_of a.now ≡ stores_of b.now) }
{
    same_stores(a.stores(), b.stores())
}

fn same_all_threads(a: &World, b: &World) -> bool
    ensures { IsTrue result ↔ (a.now.threads ≡ b.now.threads) }
{
    same_threads(a.threads(), b.threads())
}

fn same_stores(a: &Stores, b: &Stores) -> bool
    ensures { IsTrue result ↔ (a.now ≡ b.now) }
{
    same_tags(a, b) && same_things(a, b)
}

/// Whether there are as many tags, with the same names, and the same is public.
fn same_tags(a: &Stores, b: &Stores) -> bool
    ensures { IsTrue result ↔ ((a.now.tags ≡ b.now.tags) × ((a.now.names ≡ b.now.names) × (a.now.public ≡ b.now.public))) }
{
    a.tags == b.tags && same_names(&a.names, &b.names) && a.public.same(&b.public)
}

/// Whether all that was made is equal, and who holds each monitor.
fn same_things(a: &Stores, b: &Stores) -> bool
    ensures { IsTrue result ↔ ((a.now.heap ≡ b.now.heap) × ((a.now.monitors ≡ b.now.monitors) × ((a.now.files ≡ b.now.files) × (a.now.pipes ≡ b.now.pipes)))) }
{
    a.heap.same(&b.heap)
        && a.monitors.same(&b.monitors)
        && a.files.same(&b.files)
        && a.pipes.same(&b.pipes)
}
