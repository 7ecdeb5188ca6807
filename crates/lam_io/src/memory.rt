//! A file store and an output in memory with injected failures, and the scheduler hooks.

ghost use Rattle.std.specs.Prelude.{if◌then◌else◌, ◌≡◌, ◌≤◌, ◌^◌, ◌-◌, Some, Ok, map, IfOk, OnOk, OnErr, IsErrOf, length, take, [], ◌/◌, true, string_bytes, not, IsTrue, ◌↔◌};
ghost use Rattle.std.specs.Option.{option_copied};
ghost use Rattle.std.specs.Str.{bytes_eq};
ghost use Rattle.std.specs.List.{prefix_len};
ghost use Rattle.lam_io.specs.Outside.{Rose, AllStay, OthersStay, IsRead, refusals_after, IsCount, Took, one_more};
ghost use Rattle.lam_io.specs.Memory.{NamesDiffer, file_in, is_listed, shelf_fails, shelf_after, sink_answer, sink_after, picked, seen};

use crate::{Gate, Got, Shelf, ShelfFault, Sink, SinkFault};
use std::alloc::Global;
use std::marker::Model;
use want_of_memory::NoMemory;

/// Counts a call, and its fault where the call's number is listed.
fn next_fails(calls: &mut u64, failing: &[u64], faults: &mut u64) -> bool
    ensures listed { result ≡ is_listed calls.old failing.now }
    ensures counted { calls.new ≡ one_more calls.old }
    ensures faults { faults.new ≡ (if result then one_more faults.old else faults.old) }
    ensures later { faults.old ≤ faults.new }
{
    *calls = calls.saturating_add(1);
    let fails = failing.contains(calls);
    if fails {
        *faults = faults.saturating_add(1);
    }
    fails
}

/// A sink that holds what it took.
///
/// A caller sees its bytes, its room, how many bytes it takes by a call at most, the number of its calls, the numbers of
/// those that fail, and its faults.
#[derive(Debug, Drop)]
pub struct MemSink {
    held: Vec<u8>,
    room: usize,
    most: u64,
    calls: u64,
    failing: Vec<u64>,
    faults: u64,
}

impl Model for MemSink {
    ghost use Rattle.std.specs.Prelude.{◌≤◌, vec_len, vec_capacity};
    ghost use Rattle.lam_io.specs.Memory.{SinkState};

    ghost Value = { SinkState };

    ghost view = { λ s. record { bytes = s.held.items; room = s.room; most = s.most; calls = s.calls; failing = s.failing.items; faults = s.faults } };

    ghost invariant = { λ s. (vec_len s.held ≤ s.room) × (s.room ≤ vec_capacity s.held) × (1 ≤ s.most) };
}

impl MemSink {
    /// A sink with room for so many bytes, which it takes at once. Its calls with the given numbers, counted from 1,
    /// fail.
    pub fn new(alloc: Global, room: u64, failing: Vec<u64>) -> Result<MemSink, NoMemory>
        ensures { IfOk result (λ s. s ≡ record { bytes = []; room = room; most = 2 ^ 64 - 1; calls = 0; failing = failing.items; faults = 0 }) }
    {
        MemSink::short(alloc, room, u64::MAX, failing)
    }

    /// The same, but it takes no more than `most` bytes by a call.
    pub fn short(
        alloc: Global,
        room: u64,
        most: u64,
        failing: Vec<u64>,
    ) -> Result<MemSink, NoMemory>
        requires { 1 ≤ most }
        ensures { IfOk result (λ s. s ≡ record { bytes = []; room = room; most = most; calls = 0; failing = failing.items; faults = 0 }) }
    {
        let room = room as usize;
        let held = Vec::with_capacity(alloc, room)?;
        Ok(MemSink {
            held,
            room,
            most,
            calls: 0,
            failing,
            faults: 0,
        })
    }

    /// What was taken.
    pub fn bytes(&self) -> &[u8]
        ensures { result.now ≡ self.now.bytes }
    {
        self.held.as_slice()
    }
}

impl Sink for MemSink {
    ghost taken = { λ s. Some s.bytes };

    ghost faults = { λ s. s.faults };

    ghost gives = { λ s piece answer after. (answer ≡ sink_answer s piece) × (after ≡ sink_after s piece) };

    /// Takes what fits, and no more than a call may. It fails exactly where the call's number is listed, and where there is a piece and no room.
    fn write(&mut self, piece: &[u8]) -> Result<u64, SinkFault>
        ensures later { self.old.faults ≤ self.new.faults }
        ensures failed { OnErr result (Rose self.old.faults self.new.faults) }
        ensures count { IfOk result (λ n. IsCount n (length piece.now)) }
        ensures took { IfOk result (λ n. Took (Some self.old.bytes) (Some self.new.bytes) (take n piece.now)) }
        ensures nothing { OnErr result (Took (Some self.old.bytes) (Some self.new.bytes) []) }
        ensures gives { (result ≡ sink_answer self.old piece.now) × (self.new ≡ sink_after self.old piece.now) }
    {
        if next_fails(&mut self.calls, self.failing.as_slice(), &mut self.faults) {
            return Err(SinkFault::Failed);
        }
        let left = self.room - self.held.len();
        if left == 0 && !piece.is_empty() {
            self.faults = self.faults.saturating_add(1);
            return Err(SinkFault::Failed);
        }
        let count = left.min(piece.len()).min(self.most as usize);
        match self.held.extend_from_slice(&piece[..count]) {
            Ok(()) => Ok(count as u64),
            Err(_) => unreachable!(),
        }
    }
}

/// A shelf that holds its files.
///
/// A caller sees its files, the number of its calls, the numbers of those that fail, its faults, and the number of its
/// writes that it refused for want of memory.
#[derive(Debug, Drop)]
pub struct MemShelf {
    files: Vec<(String, Vec<u8>)>,
    calls: u64,
    failing: Vec<u64>,
    faults: u64,
    refusals: u64,
}

impl Model for MemShelf {
    ghost use Rattle.std.specs.Prelude.{map};
    ghost use Rattle.lam_io.specs.Memory.{ShelfState, seen};

    ghost Value = { ShelfState };

    ghost view = { λ s. record { files = map seen s.files.items; calls = s.calls; failing = s.failing.items; faults = s.faults; refusals = s.refusals } };
}

impl MemShelf {
    /// A shelf of the given files, whose names differ. Its calls with the given numbers, counted from 1, fail.
    pub fn new(files: Vec<(String, Vec<u8>)>, failing: Vec<u64>) -> MemShelf
        requires { NamesDiffer (map seen files.items) }
        ensures { result ≡ record { files = map seen files.items; calls = 0; failing = failing.items; faults = 0; refusals = 0 } }
    {
        MemShelf {
            files,
            calls: 0,
            failing,
            faults: 0,
            refusals: 0,
        }
    }
}

impl Shelf for MemShelf {
    ghost tells = { λ s. true };

    ghost files = { λ s. file_in s.files };

    ghost faults = { λ s. s.faults };

    ghost refusals = { λ s. s.refusals };

    /// Fails exactly where the call's number is listed.
    fn read(&mut self, alloc: Global, name: &str, limit: u64) -> Result<Got, ShelfFault>
        ensures exactly { IsErrOf result ShelfFault.Failed ↔ IsTrue (shelf_fails self.old) }
        ensures state { self.new ≡ shelf_after self.old self.old.files self.old.refusals }
        ensures later { self.old.faults ≤ self.new.faults }
        ensures failed { IsErrOf result ShelfFault.Failed → Rose self.old.faults self.new.faults }
        ensures tells_on { IsTrue true → IsTrue true }
        ensures got { IsTrue true → IfOk result (IsRead (file_in self.old.files name.now) limit) }
        ensures stay { IsTrue true → AllStay (file_in self.old.files) (file_in self.new.files) }
        ensures refused { self.new.refusals ≡ self.old.refusals }
    {
        if next_fails(&mut self.calls, self.failing.as_slice(), &mut self.faults) {
            return Err(ShelfFault::Failed);
        }
        read_of(alloc, self.files.as_slice(), name, limit)
    }

    /// Fails exactly where the call's number is listed. After an error no file changed.
    fn write(&mut self, name: &str, bytes: &[u8]) -> Result<(), ShelfFault>
        ensures exactly { IsErrOf result ShelfFault.Failed ↔ IsTrue (shelf_fails self.old) }
        ensures state { self.new ≡ shelf_after self.old self.new.files (refusals_after result self.old.refusals) }
        ensures unchanged { OnErr result (self.new.files ≡ self.old.files) }
        ensures later { self.old.faults ≤ self.new.faults }
        ensures failed { IsErrOf result ShelfFault.Failed → Rose self.old.faults self.new.faults }
        ensures tells_on { IsTrue true → IsTrue true }
        ensures set { IsTrue true → OnOk result (file_in self.new.files name.now ≡ Some bytes.now) }
        ensures others { IsTrue true → OthersStay (file_in self.old.files) (file_in self.new.files) name.now }
        ensures refused { self.new.refusals ≡ refusals_after result self.old.refusals }
    {
        if next_fails(&mut self.calls, self.failing.as_slice(), &mut self.faults) {
            return Err(ShelfFault::Failed);
        }
        match put_file(&mut self.files, name, bytes) {
            Ok(()) => Ok(()),
            Err(NoMemory) => {
                self.refusals = self.refusals.saturating_add(1);
                Err(ShelfFault::NoMemory)
            }
        }
    }
}

fn read_of(
    alloc: Global,
    files: &[(String, Vec<u8>)],
    name: &str,
    limit: u64,
) -> Result<Got, ShelfFault>
    ensures got { IfOk result (IsRead (file_in (map seen files.now) name.now) limit) }
    ensures no_fault { ¬ IsErrOf result ShelfFault.Failed }
{
    match file_of(files, name.as_bytes()) {
        None => Ok(Got::Absent),
        Some(bytes) => {
            if bytes.len() as u64 > limit {
                return Ok(Got::TooLong);
            }
            Ok(Got::Found(Vec::from_slice(alloc, bytes)?))
        }
    }
}

fn file_of<'a>(files: &'a [(String, Vec<u8>)], name: &[u8]) -> Option<&'a [u8]>
    ensures { option_copied result ≡ file_in (map seen files.now) name.now }
{
    for file in files {
        if file.0.as_bytes() == name {
            return Some(file.1.as_slice());
        }
    }
    None
}

fn put_file(files: &mut Vec<(String, Vec<u8>)>, name: &str, bytes: &[u8]) -> Result<(), NoMemory>
    ensures set { OnOk result (file_in (map seen files.new.items) name.now ≡ Some bytes.now) }
    ensures others { OthersStay (file_in (map seen files.old.items)) (file_in (map seen files.new.items)) name.now }
    ensures unchanged { OnErr result (map seen files.new.items ≡ map seen files.old.items) }
{
    let alloc = *files.allocator();
    let copy = Vec::from_slice(alloc, bytes)?;
    let at = place_of(files.as_slice(), name.as_bytes());
    if at < files.len() {
        files[at].1 = copy;
        return Ok(());
    }
    files.push((String::from_str(alloc, name)?, copy))?;
    Ok(())
}

/// How many files stand before the one of a name.
fn place_of(files: &[(String, Vec<u8>)], name: &[u8]) -> usize
    ensures { result ≡ prefix_len (λ p. not (bytes_eq (string_bytes p.0) name.now)) files.now }
{
    files
        .iter()
        .take_while(|file| file.0.as_bytes() != name)
        .count()
}

/// The program's gate: it picks by turns of 64, and does nothing between.
#[derive(Clone, Copy, Debug)]
pub struct OpenGate;

impl Gate for OpenGate {
    fn pick(&self, _worker: u64, turn: u64, _ready: &[u32]) -> u64
        ensures { result ≡ turn / 64 }
    {
        turn / 64
    }

    fn between(&self, _worker: u64, _thread: u32) {}
}

/// A gate that picks by a table: its entries one after another, and again from the first. It picks 0 where the table is
/// empty, and does nothing between.
#[derive(Debug, Drop)]
pub struct TableGate {
    pub picks: Vec<u64>,
}

impl Gate for TableGate {
    fn pick(&self, _worker: u64, turn: u64, _ready: &[u32]) -> u64
        ensures { result ≡ picked self.now.picks.items turn }
    {
        let picks = self.picks.as_slice();
        if picks.is_empty() {
            return 0;
        }
        picks[(turn % picks.len() as u64) as usize]
    }

    fn between(&self, _worker: u64, _thread: u32) {}
}
