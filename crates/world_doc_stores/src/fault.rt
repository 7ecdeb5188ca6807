//! Faults of reading a world document: its first break, or refused memory.

ghost use Rattle.std.specs.Prelude.{◌≡◌};
ghost use Rattle.world_doc_terms.specs.Breaks.{NoMember, BadMember, NoTag};
ghost use Rattle.world_doc_stores.specs.Meaning.{Says};
ghost use Rattle.world_doc_stores.specs.declared.fault.WorldFault.TheVariants.{NoMemory as no_memory};

use std::alloc::{AllocError, AllocFailed, Global};
use want_of_memory::NoMemory;
use world_doc_terms::WorldBreak;

/// Why a document gives no world.
#[derive(Debug, Drop)]
pub enum WorldFault {
    /// It is broken.
    Broken(WorldBreak),
    /// Memory ran out.
    NoMemory,
}

impl From<NoMemory> for WorldFault {
    ghost from_gives = { λ _ e. e ≡ no_memory };

    fn from(_e: NoMemory) -> WorldFault {
        WorldFault::NoMemory
    }
}

impl From<AllocError> for WorldFault {
    ghost from_gives = { λ _ e. e ≡ no_memory };

    fn from(_e: AllocError) -> WorldFault {
        WorldFault::NoMemory
    }
}

impl<T: Drop> From<AllocFailed<T>> for WorldFault {
    ghost from_gives = { λ _ e. e ≡ no_memory };

    fn from(_e: AllocFailed<T>) -> WorldFault {
        WorldFault::NoMemory
    }
}

/// The fault that a member is not there, or `NoMemory` where memory is refused for its name.
pub fn no_member(alloc: Global, name: &str) -> WorldFault
    ensures { Says result (NoMember name.now) }
{
    match String::from_str(alloc, name) {
        Ok(name) => WorldFault::Broken(WorldBreak::NoMember(name)),
        Err(_) => WorldFault::NoMemory,
    }
}

/// The fault that a member is of another form, or `NoMemory` where memory is refused for its name.
pub fn bad_member(alloc: Global, name: &str) -> WorldFault
    ensures { Says result (BadMember name.now) }
{
    match String::from_str(alloc, name) {
        Ok(name) => WorldFault::Broken(WorldBreak::BadMember(name)),
        Err(_) => WorldFault::NoMemory,
    }
}

/// The fault that no tag has a name, or `NoMemory` where memory is refused for the name.
pub fn no_tag(alloc: Global, name: &str) -> WorldFault
    ensures { Says result (NoTag name.now) }
{
    match String::from_str(alloc, name) {
        Ok(name) => WorldFault::Broken(WorldBreak::NoTag(name)),
        Err(_) => WorldFault::NoMemory,
    }
}
