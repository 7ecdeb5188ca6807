//! Traits for the tool's files, output and scheduler hook, with their implementations.
//!
//! A [`Shelf`] is a file store and a [`Sink`] an output stream; clauses of the traits say what each call means. Each
//! counts its faults. A generic caller cannot raise the count, so it cannot make up a fault.
//!
//! - [`MemShelf`] and [`MemSink`] hold their contents in memory and fail at the calls that a test lists.
//! - [`DirShelf`] and [`StdSink`] are the current folder and standard output, the trusted edge. Their contracts say
//!   nothing of contents.
//! - A [`Gate`] is a scheduler hook, which picks the thread that goes on. [`OpenGate`] picks by the number of the turn,
//!   and a [`TableGate`] what a test lists. `lam` has a gate of its own (`thread_host_pace`).
//!
//! The promises about printed text and written files rest on `Shelf`, `Sink` and `write_all` (clauses `set`, `others`,
//! `failed`, `refused`, `all` and `front`). Nothing here is a matter of speed.
#![tactic(auto)]

mod device;
mod memory;

ghost use Rattle.std.specs.Prelude.{◌≡◌, ◌≤◌, List, ℕ, Option, Result, Bool, [], length, take, IfOk, OnOk, OnErr, IsErrOf, IsTrue, ⊤};
ghost use Rattle.lam_io.specs.declared.ShelfFault.TheVariants.{NoMemory as no_memory};
ghost use Rattle.lam_io.specs.declared.SinkFault.{SinkFault};
ghost use Rattle.lam_io.specs.Outside.{Rose, AllStay, OthersStay, IsRead, refusals_after, Took, TookFront, IsCount, Writes};

pub use device::{DirShelf, StdSink};
pub use memory::{MemShelf, MemSink, OpenGate, TableGate};
use std::alloc::{AllocError, AllocFailed, Global};
use want_of_memory::NoMemory;

/// What reading a file gave: its bytes, or that it is not there or is longer than the limit.
#[derive(Debug, Drop)]
pub enum Got {
    Found(Vec<u8>),
    Absent,
    TooLong,
}

/// Why a shelf gave no answer. `Failed` is a fault of the shelf, which it counts.
#[derive(Clone, Copy, Debug, PartialEq, Eq)]
pub enum ShelfFault {
    Failed,
    NoMemory,
}

impl From<NoMemory> for ShelfFault {
    ghost from_gives = { λ _ e. e ≡ no_memory };

    fn from(_e: NoMemory) -> ShelfFault {
        ShelfFault::NoMemory
    }
}

impl From<AllocError> for ShelfFault {
    ghost from_gives = { λ _ e. e ≡ no_memory };

    fn from(_e: AllocError) -> ShelfFault {
        ShelfFault::NoMemory
    }
}

impl<T: Drop> From<AllocFailed<T>> for ShelfFault {
    ghost from_gives = { λ _ e. e ≡ no_memory };

    fn from(_e: AllocFailed<T>) -> ShelfFault {
        ShelfFault::NoMemory
    }
}

/// Why a sink took nothing.
#[derive(Clone, Copy, Debug, PartialEq, Eq)]
pub enum SinkFault {
    Failed,
}

/// A file store: files by their names.
///
/// Whether it tells its files, the files, how many of its calls failed, and how many of its writes it refused for want
/// of memory are its meanings in proofs.
pub trait Shelf {
    ghost tells: { Self → Bool };

    ghost files: { Self → List ℕ → Option (List ℕ) };

    ghost faults: { Self → ℕ };

    ghost refusals: { Self → ℕ };

    /// Reads a file of at most `limit` bytes. It changes no file, whatever it answers.
    fn read(&mut self, alloc: Global, name: &str, limit: u64) -> Result<Got, ShelfFault>
        ensures later { faults self.old ≤ faults self.new }
        ensures failed { IsErrOf result ShelfFault.Failed → Rose (faults self.old) (faults self.new) }
        ensures tells_on { IsTrue (tells self.old) → IsTrue (tells self.new) }
        ensures got { IsTrue (tells self.old) → IfOk result (IsRead (files self.old name.now) limit) }
        ensures stay { IsTrue (tells self.old) → AllStay (files self.old) (files self.new) }
        ensures refused { refusals self.new ≡ refusals self.old };

    /// Sets a file to these bytes, and no other. After an error that file may hold anything.
    fn write(&mut self, name: &str, bytes: &[u8]) -> Result<(), ShelfFault>
        ensures later { faults self.old ≤ faults self.new }
        ensures failed { IsErrOf result ShelfFault.Failed → Rose (faults self.old) (faults self.new) }
        ensures tells_on { IsTrue (tells self.old) → IsTrue (tells self.new) }
        ensures set { IsTrue (tells self.old) → OnOk result (files self.new name.now ≡ Some bytes.now) }
        ensures others { IsTrue (tells self.old) → OthersStay (files self.old) (files self.new) name.now }
        ensures refused { refusals self.new ≡ refusals_after result (refusals self.old) };
}

/// An output stream: where bytes go.
///
/// The bytes that it took, where it tells them, how many of its calls failed, and what a call may do (`gives`: from a
/// sink and a piece, the answer and the sink after it) are its meanings in proofs.
pub trait Sink {
    ghost taken: { Self → Option (List ℕ) };

    ghost faults: { Self → ℕ };

    ghost gives: { Self → List ℕ → Result ℕ SinkFault → Self → Type 0 } = { λ _ _ _ _. ⊤ };

    /// Takes some first bytes of the piece, at least one unless it is empty, and answers how many.
    fn write(&mut self, piece: &[u8]) -> Result<u64, SinkFault>
        ensures later { faults self.old ≤ faults self.new }
        ensures failed { OnErr result (Rose (faults self.old) (faults self.new)) }
        ensures count { IfOk result (λ n. IsCount n (length piece.now)) }
        ensures took { IfOk result (λ n. Took (taken self.old) (taken self.new) (take n piece.now)) }
        ensures nothing { OnErr result (Took (taken self.old) (taken self.new) []) }
        ensures gives { gives self.old piece.now result self.new };
}

/// A hook of a scheduler. It has no faults.
pub trait Gate {
    /// Which of the ready threads a worker takes at a turn, modulo the length of the list.
    fn pick(&self, worker: u64, turn: u64, ready: &[u32]) -> u64;

    /// Called outside the lock after each turn that a worker checked in.
    fn between(&self, worker: u64, thread: u32);
}

/// Writes all of the text, or fails with a proper front of it taken. Each call has all that is left of the text, and
/// an empty rest makes none.
pub fn write_all<O: Sink>(out: &mut O, text: &[u8]) -> Result<(), SinkFault>
    ensures later { O.faults out.old ≤ O.faults out.new }
    ensures failed { OnErr result (Rose (O.faults out.old) (O.faults out.new)) }
    ensures all { OnOk result (Took (O.taken out.old) (O.taken out.new) text.now) }
    ensures front { OnErr result (TookFront (O.taken out.old) (O.taken out.new) text.now) }
    ensures calls { Writes O.gives out.old text.now result out.new }
{
    let mut done = 0usize;
    while done < text.len() {
        let count = out.write(&text[done..])?;
        done += count as usize;
    }
    Ok(())
}
