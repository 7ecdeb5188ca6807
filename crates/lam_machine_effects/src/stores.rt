//! The state that the machine's threads share, one of each store.
//!
//! [`Stores`] has objects and arrays with their monitors, files and directories, pipes, the number of tags, and what is
//! public. Each store stands in a crate of its own, whose contracts say what its calls do. Threads stand beside the
//! stores: a world is both (`specs/Parts`), so that a thread can be taken out and changed while the stores change too.
//!
//! Nothing here tests a label.

ghost use Rattle.std.specs.Prelude.{◌≡◌, IfOk};
ghost use Rattle.lam_machine_terms.specs.Trees.{root_alone};
ghost use Rattle.lam_machine_effects.specs.Parts.{first_stores};

use lam_machine_terms::{Caps, Files, Heap, Monitors, Pipes, both};
use lam_value::TagNames;
use std::alloc::Global;
use want_of_memory::NoMemory;

/// The number of threads that there may be.
pub const THREAD_LIMIT: u64 = 4_096;

/// One of each store.
#[derive(Drop)]
pub struct Stores {
    /// The names of the first tags: that of tag n stands at place n.
    pub names: TagNames,
    /// What every context counts as holding, by the kinds of the first tags.
    pub public: Caps,
    /// How many tags there are: the number of the next one.
    pub tags: u64,
    pub heap: Heap,
    pub monitors: Monitors,
    pub files: Files,
    pub pipes: Pipes,
}

impl Stores {
    /// The stores in which nothing was made: the root directory alone, and the tags that have names, with what is
    /// public.
    ///
    /// # Errors
    ///
    /// `NoMemory` where memory is refused.
    pub fn new(alloc: Global, names: TagNames, public: Caps) -> Result<Stores, NoMemory>
        ensures { IfOk result (λ s. s ≡ first_stores names public) }
    {
        match Files::new(alloc) {
            Ok(files) => Ok(with_files(alloc, names, public, files)),
            Err(error) => {
                drop(names);
                drop(public);
                Err(error)
            }
        }
    }

    /// Equal stores.
    ///
    /// # Errors
    ///
    /// `NoMemory` where memory is refused.
    pub fn copy(&self) -> Result<Stores, NoMemory>
        ensures { IfOk result (λ s. s ≡ self.now) }
    {
        let tags = both(self.names.copy(), self.public.copy());
        let things = both(self.heap.copy(), self.monitors.copy());
        let streams = both(self.files.copy(), self.pipes.copy());
        let ((names, public), ((heap, monitors), (files, pipes))) = both(
            tags,
            both(things, streams),
        )?;
        Ok(Stores {
            names,
            public,
            tags: self.tags,
            heap,
            monitors,
            files,
            pipes,
        })
    }
}

/// The stores in which nothing was made but these files.
fn with_files(alloc: Global, names: TagNames, public: Caps, files: Files) -> Stores
    requires { files ≡ root_alone }
    ensures { result ≡ first_stores names public }
{
    let tags = names.count();
    Stores {
        names,
        public,
        tags,
        heap: Heap::new(alloc),
        monitors: Monitors::new(alloc),
        files,
        pipes: Pipes::new(alloc),
    }
}
