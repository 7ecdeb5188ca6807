//! The type of worlds.

ghost use Rattle.std.specs.Prelude.{◌≡◌, ◌≤◌, length, IfOk};
ghost use Rattle.lam_machine_rows.specs.Limits.{most_threads};
ghost use Rattle.lam_machine_rows.specs.Parts.{stores_of, world_of};

use lam_machine_rows::Stores;
use std::alloc::Global;
use std::marker::Model;
use thread_core_state::LamThread;
use want_of_memory::NoMemory;

/// The stores, and the threads: that of number n stands at place n. There are at most 4,096.
#[derive(Drop)]
pub struct World {
    pub stores: Stores,
    pub threads: Vec<LamThread>,
}

impl Model for World {
    ghost use Rattle.lam_machine_rows.specs.Worlds.{World as Plain};
    ghost use Rattle.lam_machine_world.specs.Coding.{coded_world};

    ghost Value = { Plain };

    ghost coded = { coded_world };

    ghost use Rattle.std.specs.Prelude.{◌≤◌, length};
    ghost use Rattle.lam_machine_rows.specs.Limits.{most_threads};
    ghost use Rattle.lam_machine_rows.specs.Parts.{world_of};

    ghost view = { λ w. world_of w.stores w.threads.items };

    ghost invariant = { λ w. length w.threads.items ≤ most_threads };
}

impl World {
    /// The world of stores and threads.
    pub fn new(stores: Stores, threads: Vec<LamThread>) -> World
        requires { length threads.items ≤ most_threads }
        ensures { result ≡ world_of stores threads.items }
    {
        World { stores, threads }
    }

    /// All but the threads.
    pub fn stores(&self) -> &Stores
        ensures { result.now ≡ stores_of self.now }
    {
        &self.stores
    }

    /// The threads.
    pub fn threads(&self) -> &[LamThread]
        ensures threads { result.now ≡ self.now.threads }
        ensures few { length result.now ≤ most_threads }
    {
        self.threads.as_slice()
    }

    /// An equal world.
    ///
    /// # Errors
    ///
    /// `NoMemory` where memory is refused.
    pub fn copy(&self) -> Result<World, NoMemory>
        ensures { IfOk result (λ w. w ≡ self.now) }
    {
        let threads = copied(*self.threads.allocator(), self.threads.as_slice())?;
        match self.stores.copy() {
            Ok(stores) => Ok(World { stores, threads }),
            Err(error) => {
                drop(threads);
                Err(error)
            }
        }
    }
}

fn copied(alloc: Global, threads: &[LamThread]) -> Result<Vec<LamThread>, NoMemory>
    ensures { IfOk result (λ v. v.items ≡ threads.now) }
{
    let mut copies = Vec::with_capacity(alloc, threads.len())?;
    for thread in threads {
        copies.push(thread.copy()?)?;
    }
    Ok(copies)
}
