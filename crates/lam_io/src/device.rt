//! The current folder as a file store, and standard output. Their contracts say nothing of contents.

ghost use Rattle.std.specs.Prelude.{◌≡◌, ◌≤◌, false, None, Err, take};
ghost use Rattle.lam_io.specs.Outside.{Rose, refusals_after};
ghost use Rattle.lam_io.specs.Device.{no_counts};

use crate::{Got, Shelf, ShelfFault, Sink, SinkFault};
use std::alloc::Global;
use std::io::{ErrorKind, Read, Write};
use std::marker::Model;
use std::rt::Files;
use std::{fs, io};

/// The files of the current folder. A caller sees the number of faults, and of writes that were refused for want of
/// memory.
#[derive(Drop)]
pub struct DirShelf<R: Files + AllocGlobal + Drop> {
    rt: R,
    faults: u64,
    refusals: u64,
}

impl<R: Files + AllocGlobal + Drop> Model for DirShelf<R> {
    ghost use Rattle.lam_io.specs.Device.{Counts};

    ghost Value = { Counts };

    ghost view = { λ s. record { faults = s.faults; refusals = s.refusals } };
}

impl<R: Files + AllocGlobal + Drop> DirShelf<R> {
    pub fn new(rt: R) -> DirShelf<R>
        ensures { result ≡ no_counts }
    {
        DirShelf {
            rt,
            faults: 0,
            refusals: 0,
        }
    }
}

impl<R: Files + AllocGlobal + Drop> Shelf for DirShelf<R> {
    ghost tells = { λ s. false };

    ghost files = { λ s name. None };

    ghost faults = { λ s. s.faults };

    ghost refusals = { λ s. s.refusals };

    fn read(&mut self, alloc: Global, name: &str, limit: u64) -> Result<Got, ShelfFault> {
        match read_file(&self.rt, alloc, name, limit) {
            Ok(got) => Ok(got),
            Err(e) => Err(count_fault(&mut self.faults, e)),
        }
    }

    fn write(&mut self, name: &str, bytes: &[u8]) -> Result<(), ShelfFault> {
        match fs::write(&self.rt, name, bytes) {
            Ok(()) => Ok(()),
            Err(e) => Err(count_write(&mut self.faults, &mut self.refusals, e)),
        }
    }
}

/// Want of memory is no fault of the shelf; every other error is one.
fn count_fault(faults: &mut u64, error: io::Error) -> ShelfFault
    ensures later { faults.old ≤ faults.new }
    ensures failed { result ≡ ShelfFault.Failed → Rose faults.old faults.new }
{
    if error.kind() == ErrorKind::OutOfMemory {
        return ShelfFault::NoMemory;
    }
    *faults = faults.saturating_add(1);
    ShelfFault::Failed
}

/// A write that is refused for want of memory is counted apart.
fn count_write(faults: &mut u64, refusals: &mut u64, error: io::Error) -> ShelfFault
    ensures later { faults.old ≤ faults.new }
    ensures failed { result ≡ ShelfFault.Failed → Rose faults.old faults.new }
    ensures refused { refusals.new ≡ refusals_after (Err result) refusals.old }
{
    match count_fault(faults, error) {
        ShelfFault::Failed => ShelfFault::Failed,
        ShelfFault::NoMemory => {
            *refusals = refusals.saturating_add(1);
            ShelfFault::NoMemory
        }
    }
}

/// Reads at most one byte more than the limit.
fn read_file<R: Files + AllocGlobal>(
    rt: &R,
    alloc: Global,
    name: &str,
    limit: u64,
) -> io::Result<Got> {
    let file = match fs::open(rt, name) {
        Ok(file) => file,
        Err(e) => {
            if e.kind() == ErrorKind::NotFound {
                return Ok(Got::Absent);
            }
            return Err(e);
        }
    };
    let mut bytes = Vec::new(alloc);
    file.take(limit.saturating_add(1)).read_to_end(&mut bytes)?;
    if bytes.len() as u64 > limit {
        return Ok(Got::TooLong);
    }
    Ok(Got::Found(bytes))
}

/// Standard output. A caller sees the number of faults.
#[derive(Drop)]
pub struct StdSink<R: Print + Drop> {
    rt: R,
    faults: u64,
}

impl<R: Print + Drop> Model for StdSink<R> {
    ghost use Rattle.std.specs.Prelude.{ℕ};

    ghost Value = { ℕ };

    ghost view = { λ s. s.faults };
}

impl<R: Print + Drop> StdSink<R> {
    pub fn new(rt: R) -> StdSink<R>
        ensures { result ≡ 0 }
    {
        StdSink { rt, faults: 0 }
    }
}

impl<R: Print + Drop> Sink for StdSink<R> {
    ghost taken = { λ s. None };

    ghost faults = { λ s. s };

    fn write(&mut self, piece: &[u8]) -> Result<u64, SinkFault> {
        if piece.is_empty() {
            return Ok(0);
        }
        match io::writer(&self.rt).write(piece) {
            Ok(count) if count > 0 => Ok(count as u64),
            _ => {
                self.faults = self.faults.saturating_add(1);
                Err(SinkFault::Failed)
            }
        }
    }
}
